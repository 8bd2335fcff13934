// The gates that operators make. Reading goes on past the most that a circuit may have: bad text further on comes first.
ghost use Rattle.std.specs.Prelude.{◌≡◌, Err};
ghost use Rattle.formula.specs.Emit.{no_gates, add_gate, odd_after, invert, new_line, use_line, read_at, failed};

use crate::{Gates, TOO_MANY, Why};
use circuit::{GATES, INPUTS};

// Whether some ~ stood before anything but a binary operator's gate, after one more.
fn odd_after(fold: bool, odd: bool) -> bool
    ensures { result ≡ odd_after fold odd }
{
    if fold { odd } else { true }
}

// The line of the next gate; 0 where there is no room for it.
// A line and no Option: with too many gates the text is read to its end, and then refused.
fn new_line(count: usize) -> u8
    ensures { result ≡ new_line count }
{
    if count < GATES {
        (count + INPUTS) as u8
    } else {
        0
    }
}

impl Gates {
    // No gates.
    #[tactic(auto, unfolding(crate::specs::Emit::no_gates))]
    pub fn none() -> Gates
        ensures { result ≡ no_gates }
    {
        let empty = [0u8; GATES];
        Gates {
            kinds: empty,
            left: empty,
            right: empty,
            count: 0,
            high: 0,
            fold: false,
            odd: false,
        }
    }

    // A refusal, with no gates beside it.
    // The gates are emptied, since the promise `failed` says them of a refusal too.
    pub fn fail(&mut self, why: Why) -> Why
        ensures { read_at self.new (Err result) ≡ failed why }
    {
        *self = Gates::none();
        why
    }

    // One gate more, a binary operator's, and its line.
    #[tactic(auto, unfolding(crate::specs::Emit::add_gate))]
    pub fn add_gate(&mut self, kind: u8, a: u8, b: u8) -> u8
        ensures gates { self.new ≡ add_gate self.old kind a b }
        ensures line { result ≡ new_line self.old.count }
    {
        let k = self.count;
        self.fold = true;
        if k < GATES {
            self.kinds[k] = kind;
            self.left[k] = a;
            self.right[k] = b;
            self.count = k + 1;
        } else {
            self.count = TOO_MANY;
        }
        new_line(k)
    }

    // A NOT of a line, and its line. Whether it stood before a binary operator's gate is kept beside it.
    #[tactic(auto, unfolding(crate::specs::Emit::invert))]
    pub fn add_not(&mut self, a: u8) -> u8
        ensures gates { self.new ≡ invert self.old a }
        ensures line { result ≡ new_line self.old.count }
    {
        let odd = odd_after(self.fold, self.odd);
        let line = self.add_gate(6, a, 0);
        self.fold = false;
        self.odd = odd;
        line
    }

    // A line is read: an input counts towards how many there are.
    #[tactic(auto, unfolding(crate::specs::Emit::use_line))]
    pub fn use_line(&mut self, v: u8)
        ensures { self.new ≡ use_line self.old v }
    {
        self.fold = false;
        if v < 8 && self.high <= v {
            self.high = v + 1;
        }
    }
}
