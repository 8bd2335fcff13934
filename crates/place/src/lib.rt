#![tactic(auto)]

// No code: proofs/ shows that bad text is refused at the first byte that no good text has there.
