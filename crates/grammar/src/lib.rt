#![tactic(auto)]

// No code: specs/ has the grammar of equation files as a relation on the text, proofs/ that a text has one reading at most.
