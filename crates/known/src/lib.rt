#![tactic(auto)]

// No code: which names of an equation file are known where they stand, and which one is refused (16).
