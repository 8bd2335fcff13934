// The sweep as an edit: gates that no output reaches are dropped and those that are the same merged; every line is then examined afresh.
ghost use Rattle.std.specs.Prelude.{◌≡◌, true, false, ◌++◌, ◌≤◌, replicate};
ghost use Rattle.circuit.specs.Sizes.{most_inputs, most_gates};
ghost use Rattle.bench.specs.Held.{recircuited};
ghost use Rattle.bench.specs.Calls.{reworking, SweepPromise};

use crate::examine::examine;
use crate::storing::circuit_of;
use crate::{Bench, Edited, Reworked};
use circuit::{Circuit, LINES, Refusal, low16};

// The bench with another circuit; what is held for lines is not examined yet.
fn with_circuit(b: Bench, c: Circuit) -> Bench
    ensures { result ≡ recircuited b c }
{
    let kinds = c.kinds;
    let left = c.left;
    let right = c.right;
    let outputs = c.outputs;
    Bench {
        n: c.n,
        m: c.m,
        g: c.g,
        kinds,
        left,
        right,
        outputs,
        ..b
    }
}

// The line of each of g gates past n inputs.
fn kept_lines(n: usize, g: usize) -> Reworked
    requires { (n ≤ most_inputs) × (g ≤ most_gates) }
    ensures { result ≡ reworking (replicate n false ++ replicate g true) }
{
    let mut lines = [0u16; LINES];
    for k in 0..g {
        lines[k] = low16(n + k);
    }
    Reworked { lines, count: g }
}

// Sweeps what stands on the bench. It lists the line of each gate that it keeps, by its new number.
pub fn sweep(bench: Bench) -> Edited
    ensures { SweepPromise bench result.edit result.bench }
{
    if !bench.is_standing() {
        return Edited {
            bench,
            edit: Err(Refusal::NothingOpen),
        };
    }
    let c = sweep::sweep(circuit_of(bench));
    let next = examine(with_circuit(bench, c));
    Edited {
        bench: next,
        edit: Ok(kept_lines(c.n, c.g)),
    }
}
