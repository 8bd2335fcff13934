// The bench by value: one circuit, one target and three limits, with what is held for each line.
#![tactic(auto)]

ghost use Rattle.std.specs.Prelude.{◌≡◌};
ghost use Rattle.bench.specs.Parts.{open_on};

use circuit::rules::is_shape;
use circuit::{GATES, LINES, OUTPUTS, Refusal, Tally, VALUES, Words};

pub mod opening; // opening.rt: an empty bench, and opening a circuit with its target and limits
pub mod edits; // edits.rt: replacing a gate, pointing an output, changing an entry, setting limits
pub mod appending; // appending.rt: one gate more after the last
pub mod sweeping; // sweeping.rt: the sweep of what stands on the bench
pub mod storing; // storing.rt: the circuit's stored bytes into a lent room
mod examine; // examine.rt: what each line has, afresh or for the readers of one gate

// What stands on the bench. Gate k is `kinds[k]`, `left[k]`, `right[k]`; a line's entry in `depths`, `and_depths` and
// `values` has the line's number; `wanted` has for each output the values that the target wants. Zeros past the last.
#[repr(C)]
#[derive(Clone, Copy)]
pub struct Bench {
    // Flags and columns and no enum: C's layout, in fixed memory.
    pub is_open: bool,
    pub is_matrix: bool,
    pub n: usize,
    pub m: usize,
    pub g: usize,
    pub max_gates: u16,
    pub max_depth: u16,
    pub max_and_depth: u16,
    pub kinds: [u8; GATES],
    pub left: [u16; GATES],
    pub right: [u16; GATES],
    pub outputs: [u16; OUTPUTS],
    pub target: [u8; VALUES],
    pub wanted: [Words; OUTPUTS],
    pub depths: [u8; LINES],
    pub and_depths: [u8; LINES],
    pub values: [Words; LINES],
}

impl Bench {
    // Something is open; numbers out of range count as nothing, so that no call leaves its bounds on any bench.
    pub fn is_standing(&self) -> bool
        ensures { result ≡ open_on self.now }
    {
        self.is_open && is_shape(self.n, self.m, self.g)
    }
}

// Where a circuit is wrong: the smallest input value with a differing output, and the smallest such output there.
#[derive(Clone, Copy)]
pub struct Place {
    pub input: usize,
    pub output: usize,
}

// The first that applies.
#[derive(Clone, Copy)]
pub enum Verdict {
    Wrong(Place),
    OverGates,
    OverDepth,
    OverAndDepth,
    Pass,
}

#[derive(Clone, Copy)]
pub struct Report {
    pub gates: usize,
    pub counts: Tally,
    pub depth: u8,
    pub and_depth: u8,
    pub verdict: Verdict,
}

// The lines that an edit reworked, in ascending order, and how many; zeros past the last.
// An array beside its count: no heap.
#[derive(Clone, Copy)]
pub struct Reworked {
    pub lines: [u16; LINES],
    pub count: usize,
}

// No line.
pub const NO_LINES: Reworked = Reworked {
    lines: [0; LINES],
    count: 0,
};

// What an edit answers.
pub type Edit = Result<Reworked, Refusal>;

// The bench beside the answer and not in it: an edit takes a bench and gives it back, refused or not.
#[derive(Clone, Copy)]
pub struct Edited {
    pub bench: Bench,
    pub edit: Edit,
}

#[derive(Clone, Copy)]
pub struct Opened {
    pub bench: Bench,
    pub answer: Result<(), Refusal>,
}
