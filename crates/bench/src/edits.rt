// The edits: each looks first, and changes the bench only where nothing is left to refuse.
ghost use Rattle.std.specs.Prelude.{◌≡◌, true, cond, ◌^◌, ◌≤◌, ◌<◌};
ghost use Rattle.circuit.specs.Sizes.{most_inputs, most_outputs, most_values};
ghost use Rattle.bench.specs.Calls.{GatePromise, OutputPromise, EntryPromise, LimitsPromise};
ghost use Rattle.bench.specs.State.{limits};
ghost use Rattle.bench.specs.Parts.{gate_look, output_look, entry_look, entered};

use crate::examine::rework;
use crate::{Bench, Edited, NO_LINES};
use circuit::rules::{check_gate, check_output};
use circuit::{Refusal, VALUES, low_byte, low16};
use targets::rules::value_fits;
use targets::wanted::wanted_words;

// What replacing gate k is refused for.
// Kind and operands one by one, here and in the calls above it: C names them so.
fn look_at_gate(bench: &Bench, k: usize, kind: usize, a: usize, b: usize) -> Result<(), Refusal>
    ensures { result ≡ gate_look bench.now k kind a b }
{
    if !bench.is_standing() {
        return Err(Refusal::NothingOpen);
    }
    if bench.g <= k {
        return Err(Refusal::NotThere);
    }
    check_gate(bench.is_matrix, bench.n + k, kind, a, b)
}

// Replaces gate k. The line of gate k and every line that reads it, directly or through others, is examined again.
pub fn replace_gate(bench: Bench, k: usize, kind: usize, a: usize, b: usize) -> Edited
    ensures { GatePromise bench k kind a b result.edit result.bench }
{
    let look = look_at_gate(&bench, k, kind, a, b);
    rework(bench, look, k, low_byte(kind), low16(a), low16(b))
}

// What pointing output j is refused for.
fn look_at_output(bench: &Bench, j: usize, line: usize) -> Result<(), Refusal>
    ensures { result ≡ output_look bench.now j line }
{
    if !bench.is_standing() {
        return Err(Refusal::NothingOpen);
    }
    if bench.m <= j {
        return Err(Refusal::NotThere);
    }
    check_output(bench.n + bench.g, line)
}

// Points output j at a line.
pub fn point_output(bench: Bench, j: usize, line: usize) -> Edited
    ensures { OutputPromise bench j line result.edit result.bench }
{
    if let Err(why) = look_at_output(&bench, j, line) {
        return Edited {
            bench,
            edit: Err(why),
        };
    }
    let mut c = bench;
    c.outputs[j] = low16(line);
    Edited {
        bench: c,
        edit: Ok(NO_LINES),
    }
}

// How many rows or entries a target has.
fn target_length(only: bool, n: usize, m: usize) -> usize
    requires { n ≤ most_inputs }
    ensures { result ≡ cond only m (2 ^ n) }
{
    if only { m } else { 1usize << n }
}

// What changing entry i is refused for.
fn look_at_entry(bench: &Bench, i: usize, value: usize, constant: usize) -> Result<(), Refusal>
    ensures { result ≡ entry_look bench.now i value constant }
{
    if !bench.is_standing() {
        return Err(Refusal::NothingOpen);
    }
    if target_length(bench.is_matrix, bench.n, bench.m) <= i {
        return Err(Refusal::NotThere);
    }
    if !value_fits(bench.is_matrix, bench.n, bench.m, value, constant) {
        return Err(Refusal::Target);
    }
    Ok(())
}

// The target's bytes with entry i changed: a row's constant stands behind all masks, m bytes past its mask.
fn enter(
    matrix: bool,
    m: usize,
    bytes: [u8; VALUES],
    i: usize,
    value: u8,
    constant: u8,
) -> [u8; VALUES]
    requires { (m ≤ most_outputs) × (i < most_values) × (matrix ≡ true → i < m) }
    ensures { result ≡ entered matrix m bytes i value constant }
{
    let mut target = bytes;
    target[i] = value;
    if matrix {
        target[m + i] = constant;
    }
    target
}

// Changes row i of a matrix, mask and constant together, or the entry of input value i of a table, beside which the constant is 0.
// One call for both kinds, as C has it: a table has no constant, and any but 0 is refused.
pub fn change_entry(bench: Bench, i: usize, value: usize, constant: usize) -> Edited
    ensures { EntryPromise bench i value constant result.edit result.bench }
{
    if let Err(why) = look_at_entry(&bench, i, value, constant) {
        return Edited {
            bench,
            edit: Err(why),
        };
    }
    let mut c = bench;
    let bytes = c.target;
    c.target = enter(
        c.is_matrix,
        c.m,
        bytes,
        i,
        low_byte(value),
        low_byte(constant),
    );
    let wanted = wanted_words(c.is_matrix, &c.target, c.m);
    c.wanted = wanted;
    Edited {
        bench: c,
        edit: Ok(NO_LINES),
    }
}

// Sets the three limits.
pub fn set_limits(bench: Bench, gates: u8, depth: u8, ands: u8) -> Edited
    ensures { LimitsPromise bench (limits gates depth ands) result.edit result.bench }
{
    if bench.is_standing() {
        // Three stores, and no `..bench`: that copies the bench field by field.
        let mut c = bench;
        c.max_gates = u16::from(gates);
        c.max_depth = u16::from(depth);
        c.max_and_depth = u16::from(ands);
        Edited {
            bench: c,
            edit: Ok(NO_LINES),
        }
    } else {
        Edited {
            bench,
            edit: Err(Refusal::NothingOpen),
        }
    }
}
