// Appending a gate: it is looked at first, as every edit is, and its own line is examined.
ghost use Rattle.std.specs.Prelude.{◌≡◌, ◌<◌, ◌≤◌};
ghost use Rattle.circuit.specs.Rules.{done};
ghost use Rattle.circuit.specs.Sizes.{most_inputs, most_gates};
ghost use Rattle.bench.specs.Calls.{AppendPromise};
ghost use Rattle.bench.specs.Parts.{append_look, GateSet};

use crate::examine::and_deeper;
use crate::{Bench, Edited, Reworked};
use circuit::depth::deeper;
use circuit::rules::check_gate;
use circuit::{GATES, LINES, Refusal, gate, line_index, low_byte, low16};

// What appending a gate is refused for.
fn look_at_append(bench: &Bench, kind: usize, a: usize, b: usize) -> Result<(), Refusal>
    ensures { result ≡ append_look bench.now kind a b }
{
    if !bench.is_standing() {
        return Err(Refusal::NothingOpen);
    }
    if GATES <= bench.g {
        return Err(Refusal::Full);
    }
    check_gate(bench.is_matrix, bench.n + bench.g, kind, a, b)
}

// Adds a gate after the last one where it was looked at and nothing is refused. Its own line is examined and listed, and no
// other: no gate reads it yet. This is what replacing a gate does at the first one that is not there, without its readers.
// One bench, given back at one place, as in `rework`. The gate is read back from it: with the parameters themselves the proof did
// not close, since the law of a turn speaks of the gate on the bench.
fn extend(b: Bench, look: Result<(), Refusal>, kind: u8, first: u16, second: u16) -> Edited
    requires { look ≡ done → (b.n ≤ most_inputs) × (b.g < most_gates) }
    ensures { GateSet look b b.g kind first second result }
{
    let mut c = b;
    let edit = match look {
        Err(why) => Err(why),
        Ok(()) => {
            let k = c.g;
            c.kinds[k] = kind;
            c.left[k] = first;
            c.right[k] = second;
            c.g = k + 1;
            let at = c.n + k;
            let kind = c.kinds[k];
            let x = line_index(c.left[k]);
            let y = line_index(gate::second_read(kind, c.left[k], c.right[k]));
            let words = gate::eval_gate(kind, c.values[x], c.values[y]);
            c.depths[at] = deeper(c.depths[x], c.depths[y]);
            c.and_depths[at] = and_deeper(kind, c.and_depths[x], c.and_depths[y]);
            c.values[at] = words;
            let mut lines = [0u16; LINES];
            lines[0] = low16(at);
            Ok(Reworked { lines, count: 1 })
        }
    };
    Edited { bench: c, edit }
}

// Appends a gate after the last one. Its own line is examined, and no other: no gate reads it yet.
pub fn append_gate(bench: Bench, kind: usize, a: usize, b: usize) -> Edited
    ensures { AppendPromise bench kind a b result.edit result.bench }
{
    let look = look_at_append(&bench, kind, a, b);
    extend(bench, look, low_byte(kind), low16(a), low16(b))
}
