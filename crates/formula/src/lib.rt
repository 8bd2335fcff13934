// Formulas of an equation file, read into gates: names, ~ & ^ | and brackets.
#![tactic(auto)]

use circuit::GATES;

pub mod text; // text.rt: bytes at places of a text, and runs of them
pub mod keys; // keys.rt: inputs, and the search in the table of names
pub mod emit; // emit.rt: the gates that operators make
pub mod levels; // levels.rt: the five levels of a formula, which call round

// How many assignments a file may have, and so how many names may be set.
pub const NAMES: usize = 512;

// How many bytes a name may have.
pub const LONGEST: usize = 16;

// How deep brackets may nest.
pub const NESTING: usize = 32;

// The count of gates where there are more than a circuit may have: it stays there.
pub const TOO_MANY: usize = GATES + 1;

// A class of bytes: the space; the space and ~; letters and digits.
#[derive(Clone, Copy)]
pub enum Class {
    Blank,
    Tilde,
    Letter,
}

// Gates in the order in which they were made. An operand is an input's number, or 8 and a gate's number: how many inputs
// there are is not known before the file's end. `high` is one more than the highest input that was read. `fold`: what was
// read last is a binary operator's gate. `odd`: some ~ stood before anything else.
// Columns as a circuit has them, in fixed arrays: no heap.
#[derive(Clone, Copy)]
pub struct Gates {
    pub kinds: [u8; GATES],
    pub left: [u8; GATES],
    pub right: [u8; GATES],
    pub count: usize,
    pub high: u8,
    pub fold: bool,
    pub odd: bool,
}

// The table of the names that were set: each by its key, which is two numbers, and its line. It is in columns, so that a search
// compares eight halves of keys at a time.
#[derive(Clone, Copy)]
pub struct Names {
    pub low: [u64; NAMES],
    pub high: [u64; NAMES],
    pub lines: [u8; NAMES],
    pub n: usize,
}

// Why a text is refused: it is bad at this place (15), or a name that ends with this byte is not known or may not be set (16).
#[derive(Clone, Copy)]
pub enum Why {
    Text(usize),
    Name(usize),
}
