// The program for a matrix that nothing refuses: it begins with the inputs, takes all the steps, and each output then names
// its row's lowest line.
ghost use Rattle.std.specs.Prelude.{map, ◌≡◌, ℕ, ◌-◌, ◌≤◌, length};
ghost use Rattle.circuit.specs.Rules.{done};
ghost use Rattle.circuit.specs.Sizes.{most_outputs, most_lines};
ghost use Rattle.circuit.specs.Structs.{held};
ghost use Rattle.circuit.specs.Lines.{padded};
ghost use Rattle.distance.specs.Base.{base_of, weight};
ghost use Rattle.builder.specs.Rule.{row, rows_of, lowest as lowestOf};
ghost use Rattle.builder.specs.Late.{late_built, late_refusal};
ghost use Rattle.builder.specs.Kept.{Fit, Begun};

use crate::base::{Base, Rows};
use crate::first::first_table;
use crate::grow::{State, grow, widened};
use crate::look::{Inputs, sums_of};
use circuit::{Circuit, GATES, LINES, OUTPUTS};

// The rows' distances from the inputs: the weight less one.
fn first_gaps(inputs: &Inputs, rows: &[u8]) -> [u8; OUTPUTS]
    requires { Fit inputs.now.n inputs.now.arrivals.now rows.now }
    ensures { result ≡ padded most_outputs 0 (map (λ (t : ℕ). weight inputs.now.n t - 1) rows.now) }
{
    let mut gaps = [0u8; OUTPUTS];
    for (i, t) in rows.iter().enumerate() {
        gaps[i] = (sums_of(inputs, *t).weight - 1) as u8;
    }
    gaps
}

// The inputs' depths, first in an array for all lines.
// As `target_bytes` of `bench`, over another length: one for both would stand in a third crate for three lines.
fn first_depths(arrivals: &[u8]) -> [u8; LINES]
    requires { length arrivals.now ≤ most_lines }
    ensures { result ≡ padded most_lines 0 arrivals.now }
{
    let mut depths = [0u8; LINES];
    depths[..arrivals.len()].copy_from_slice(arrivals);
    depths
}

// The state before the first step: the inputs at their arrivals.
fn begin(inputs: &Inputs, rows: &[u8]) -> State
    requires { Fit inputs.now.n inputs.now.arrivals.now rows.now }
    ensures { Begun inputs.now.n inputs.now.arrivals.now rows.now result }
{
    let mut masks = [0u32; LINES];
    masks[..8].copy_from_slice(&[1, 2, 4, 8, 16, 32, 64, 128]);
    State {
        masks,
        depths: first_depths(inputs.arrivals),
        len: inputs.n,
        gaps: first_gaps(inputs, rows),
        left: [0u16; GATES],
        right: [0u16; GATES],
        count: 0,
    }
}

// The number of the row's lowest line within its limit, or 0, as the definition `lowest` has it: every row of a program has
// a line, and no use for an Option.
fn lowest(base: &Base, t: u32, limit: u8) -> usize
    ensures { result ≡ lowestOf (base_of base.now.masks.now base.now.depths.now) (row t limit) }
{
    for (i, mask) in base.masks.iter().enumerate() {
        if *mask == t && base.depths[i] <= limit {
            return i;
        }
    }
    0
}

// The lines that the outputs name.
fn outputs(base: &Base, rows: &Rows) -> [u16; OUTPUTS]
    requires few_lines { length base.now.masks.now ≤ most_lines }
    ensures { result ≡ padded most_outputs 0 (map (lowestOf (base_of base.now.masks.now base.now.depths.now)) (rows_of rows.now.masks.now rows.now.limits.now)) }
{
    let mut outs = [0u16; OUTPUTS];
    for (i, mask) in rows.masks.iter().enumerate() {
        outs[i] = lowest(base, *mask, rows.limits[i]) as u16;
    }
    outs
}

// The program of a matrix that nothing refuses.
pub(crate) fn program(n: usize, arrivals: &[u8], rows: &[u8], limits: &[u8]) -> Circuit
    requires accepted { late_refusal n arrivals.now rows.now limits.now ≡ done }
    ensures { result ≡ held (late_built n arrivals.now rows.now limits.now) }
{
    let inputs = Inputs { n, arrivals };
    let mut h = first_table(&inputs);
    let mut s = begin(&inputs, rows);
    let wide = widened(rows);
    let wide_rows = Rows {
        masks: &wide[..rows.len()],
        limits,
    };
    grow(&mut s, &wide_rows, &mut h);
    let base = Base {
        masks: &s.masks[..s.len],
        depths: &s.depths[..s.len],
    };
    let outs = outputs(&base, &wide_rows);
    Circuit {
        n,
        m: rows.len(),
        g: s.count,
        kinds: [0u8; GATES],
        left: s.left,
        right: s.right,
        outputs: outs,
    }
}
