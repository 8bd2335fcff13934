// The builder: from a binary matrix and depth limits to an XOR program, by the greedy rule.
#![tactic(auto)]

mod base; // base.rt: what a choice is made over
mod first; // first.rt: the table of the inputs
mod grow; // grow.rt: the steps
mod look; // look.rt: what is refused
mod pairs; // pairs.rt: the choice of the next gate
mod program; // program.rt: the inputs, the steps, the outputs

ghost use Rattle.std.specs.Prelude.{◌≡◌, min};
ghost use Rattle.builder.specs.Call.{plan_of, Builds, BuildsNumbered};
ghost use Rattle.builder.specs.Late.{late_plan_of, BuildsLate, BuildsLateNumbered};

use circuit::rules::is_shape;
use circuit::{Circuit, INPUTS, OUTPUTS, Refusal};
use stored::restore::writing_code;
use stored::writer::write;

// The XOR program that the greedy rule gives for n inputs with these arrival depths, these rows and a depth limit for each
// row, as a circuit.
// Four parameters and no struct: C's `allpawasi_build_late` names them so, and nothing is known of them before `look`.
// Each call has two forms, since C and Rust callers name both.
pub fn plan_late(n: usize, arrivals: &[u8], rows: &[u8], limits: &[u8]) -> Result<Circuit, Refusal>
    ensures { result ≡ late_plan_of n arrivals.now rows.now limits.now }
{
    look::look(n, arrivals, rows, limits)?;
    Ok(program::program(n, arrivals, rows, limits))
}

// A depth limit in a byte: each one over 15 is refused as 16 is.
fn limit_of(d: usize) -> u8
    ensures { result ≡ min d 16 }
{
    d.min(16) as u8
}

// The XOR program for n inputs that are all there at depth 0, these rows and depth limit d for each. There are lists of
// arrivals and limits for it only where n and the number of rows are in range.
pub fn plan(n: usize, rows: &[u8], d: usize) -> Result<Circuit, Refusal>
    ensures { result ≡ plan_of n rows.now d }
{
    if !is_shape(n, rows.len(), 0) {
        return Err(Refusal::Shape);
    }
    let arrivals = [0u8; INPUTS];
    let limits = [limit_of(d); OUTPUTS];
    plan_late(n, &arrivals[..n], rows, &limits[..rows.len()])
}

// The program for late signals, stored: its bytes first in the room, the rest of the room as it was.
pub fn build_late(
    n: usize,
    arrivals: &[u8],
    rows: &[u8],
    limits: &[u8],
    room: &mut [u8],
) -> Result<usize, Refusal>
    ensures { BuildsLate n arrivals.now rows.now limits.now room.old result room.new }
{
    let c = plan_late(n, arrivals, rows, limits)?;
    write(c, room)
}

// The same with one number for its answer, as C takes it: how many bytes, or 65,536 times the refusal's number.
pub fn build_late_no(
    n: usize,
    arrivals: &[u8],
    rows: &[u8],
    limits: &[u8],
    room: &mut [u8],
) -> usize
    ensures { BuildsLateNumbered n arrivals.now rows.now limits.now room.old result room.new }
{
    writing_code(build_late(n, arrivals, rows, limits, room))
}

// The program for inputs that are all there at depth 0, stored.
pub fn build(n: usize, rows: &[u8], d: usize, room: &mut [u8]) -> Result<usize, Refusal>
    ensures { Builds n rows.now d room.old result room.new }
{
    let c = plan(n, rows, d)?;
    write(c, room)
}

// The same with one number for its answer.
pub fn build_no(n: usize, rows: &[u8], d: usize, room: &mut [u8]) -> usize
    ensures { BuildsNumbered n rows.now d room.old result room.new }
{
    writing_code(build(n, rows, d, room))
}
