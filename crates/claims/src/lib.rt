#![tactic(auto)]

// No code: proofs/ restates, for a careful reader, what the crates below prove of the three demands.
