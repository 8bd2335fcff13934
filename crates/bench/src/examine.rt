// The examination of lines: all of them afresh, or only those that read a replaced gate.
ghost use Rattle.std.specs.Prelude.{◌≡◌, ◌||◌, max, ◌+◌, ◌<◌, ◌≤◌, take};
ghost use Rattle.circuit.specs.Rules.{done};
ghost use Rattle.circuit.specs.Sizes.{most_inputs, most_gates, most_lines};
ghost use Rattle.circuit.specs.Gate.{kind_of, nonlinear, no_words};
ghost use Rattle.circuit.specs.Lines.{input_words, padded};
ghost use Rattle.bench.specs.Parts.{examined, GateSet};

use crate::{Bench, Edited, Reworked};
use circuit::depth::deeper;
use circuit::{LINES, NO_WORDS, Refusal, Words, gate, line_index, low16};
use targets::wanted::input_words;

// The greater of two AND depths, and one more for a nonlinear gate.
pub(crate) fn and_deeper(kind: u8, a: u8, b: u8) -> u8
    ensures { max a b < 255 → result ≡ max a b + nonlinear (kind_of kind) }
{
    a.max(b).saturating_add(gate::and_weight(kind))
}

// The values of n inputs, on their lines.
fn inputs_only(n: usize) -> [Words; LINES]
    requires { n ≤ most_inputs }
    ensures { result ≡ padded most_lines no_words (take n input_words) }
{
    let mut values = [NO_WORDS; LINES];
    for i in 0..n {
        values[i] = input_words(i);
    }
    values
}

// The bench with every line examined afresh. The turn of a gate is written out here, in `rework` and in `extend`: a function of it
// would have a lent bench and a contract that is longer than its three lines. What the loop only reads is copied once, as in `rework`.
pub(crate) fn examine(b: Bench) -> Bench
    requires { (b.n ≤ most_inputs) × (b.g ≤ most_gates) }
    ensures { result ≡ examined b }
{
    let n = b.n;
    let g = b.g;
    let kinds = b.kinds;
    let left = b.left;
    let right = b.right;
    let mut c = b;
    c.depths = [0u8; LINES];
    c.and_depths = [0u8; LINES];
    c.values = inputs_only(n);
    for j in 0..g {
        let kind = kinds[j];
        let x = line_index(left[j]);
        let y = line_index(gate::second_read(kind, left[j], right[j]));
        let at = n + j;
        c.depths[at] = deeper(c.depths[x], c.depths[y]);
        c.and_depths[at] = and_deeper(kind, c.and_depths[x], c.and_depths[y]);
        c.values[at] = gate::eval_gate(kind, c.values[x], c.values[y]);
    }
    c
}

// Whether a gate is examined again: its line is marked, or one that it reads.
// A function of three flags and not `||` in the loop: the loop has a step more to be proved for each `||`.
fn is_reached(own: bool, a: bool, b: bool) -> bool
    ensures { result ≡ own || (a || b) }
{
    own || (a || b)
}

// Replaces gate k where it was looked at and nothing is refused. The line of gate k and each line that reads it, directly
// or through others, is examined again and listed, whether or not its values change. One bench is changed, or left, and
// given back at one place: two would cost a copy more. Arrays that the loop only reads are copied once. It has one caller:
// with two it would be compiled as a call of its own, and the bench copied in and out of it.
pub(crate) fn rework(
    b: Bench,
    look: Result<(), Refusal>,
    k: usize,
    kind: u8,
    first: u16,
    second: u16,
) -> Edited
    requires { look ≡ done → (b.n ≤ most_inputs) × (b.g ≤ most_gates) × (k < b.g) }
    ensures { GateSet look b k kind first second result }
{
    let mut c = b;
    let edit = match look {
        Err(why) => Err(why),
        Ok(()) => {
            let mut lines = [0u16; LINES];
            let mut count: usize = 0;
            c.kinds[k] = kind;
            c.left[k] = first;
            c.right[k] = second;
            let n = c.n;
            let g = c.g;
            let kinds = c.kinds;
            let left = c.left;
            let right = c.right;
            let mut marks = [false; LINES];
            marks[n + k] = true;
            for j in k..g {
                let kind = kinds[j];
                let x = line_index(left[j]);
                let y = line_index(gate::second_read(kind, left[j], right[j]));
                let at = n + j;
                if is_reached(marks[at], marks[x], marks[y]) {
                    let words = gate::eval_gate(kind, c.values[x], c.values[y]);
                    c.depths[at] = deeper(c.depths[x], c.depths[y]);
                    c.and_depths[at] = and_deeper(kind, c.and_depths[x], c.and_depths[y]);
                    marks[at] = true;
                    c.values[at] = words;
                    lines[count] = low16(at);
                    count += 1;
                }
            }
            Ok(Reworked { lines, count })
        }
    };
    Edited { bench: c, edit }
}
