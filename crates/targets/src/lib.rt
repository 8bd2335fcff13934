// Targets: a matrix or a table, the rules that it keeps, and what it wants of each output.
#![tactic(auto)]

pub mod rules; // rules.rt: whether a row, an entry or a whole target keeps its rule
pub mod wanted; // wanted.rt: the inputs, and what is wanted of each output, in words
