// The outer calls, on a bench that is lent to be changed where it stands. Each is thin: the form by value does the work.
// The pairs that differ in one word (an open by matrix and by table, and each call here and with numbers in linked.rt) stay, since C and Rust
// callers name each of them.
#![tactic(auto)]

ghost use Rattle.std.specs.Prelude.{true, false};
ghost use Rattle.targets.specs.Target.{brought};
ghost use Rattle.bench.specs.State.{limits};
ghost use Rattle.bench.specs.Calls.{OpenPromise, GatePromise, OutputPromise, EntryPromise, LimitsPromise, SweepPromise, AppendPromise, ReportPromise, StorePromise};
ghost use Rattle.hint.specs.Hint.{HintPromise};

use bench::{Bench, Edit, Report};
use circuit::Refusal;
use distance::Found;

pub mod linked; // linked.rt: the same with numbers for answers, for other languages

// Opens a circuit with a matrix for its target: `rows` is the masks, and then the constants.
pub fn open_matrix(
    bench: &mut Bench,
    bytes: &[u8],
    rows: &[u8],
    gates: u8,
    depth: u8,
    ands: u8,
) -> Result<(), Refusal>
    ensures { OpenPromise bench.old bytes.now (brought true rows.now) (limits gates depth ands) result bench.new }
{
    let done = bench::opening::open_matrix(*bench, bytes, rows, gates, depth, ands);
    *bench = done.bench;
    done.answer
}

// Opens a circuit with a table for its target.
pub fn open_table(
    bench: &mut Bench,
    bytes: &[u8],
    entries: &[u8],
    gates: u8,
    depth: u8,
    ands: u8,
) -> Result<(), Refusal>
    ensures { OpenPromise bench.old bytes.now (brought false entries.now) (limits gates depth ands) result bench.new }
{
    let done = bench::opening::open_table(*bench, bytes, entries, gates, depth, ands);
    *bench = done.bench;
    done.answer
}

// Replaces gate k. The answer lists the lines that were examined again.
pub fn replace_gate(bench: &mut Bench, k: usize, kind: usize, a: usize, b: usize) -> Edit
    ensures { GatePromise bench.old k kind a b result bench.new }
{
    let done = bench::edits::replace_gate(*bench, k, kind, a, b);
    *bench = done.bench;
    done.edit
}

// Points output j at a line.
pub fn point_output(bench: &mut Bench, j: usize, line: usize) -> Edit
    ensures { OutputPromise bench.old j line result bench.new }
{
    let done = bench::edits::point_output(*bench, j, line);
    *bench = done.bench;
    done.edit
}

// Changes row i of a matrix, mask and constant, or the entry of input value i of a table, beside which the constant is 0.
pub fn change_entry(bench: &mut Bench, i: usize, value: usize, constant: usize) -> Edit
    ensures { EntryPromise bench.old i value constant result bench.new }
{
    let done = bench::edits::change_entry(*bench, i, value, constant);
    *bench = done.bench;
    done.edit
}

// Sets the three limits.
pub fn set_limits(bench: &mut Bench, gates: u8, depth: u8, ands: u8) -> Edit
    ensures { LimitsPromise bench.old (limits gates depth ands) result bench.new }
{
    let done = bench::edits::set_limits(*bench, gates, depth, ands);
    *bench = done.bench;
    done.edit
}

// Drops the gates that no output reaches, and merges those that are the same. The answer lists the lines of those kept.
pub fn sweep(bench: &mut Bench) -> Edit
    ensures { SweepPromise bench.old result bench.new }
{
    let done = bench::sweeping::sweep(*bench);
    *bench = done.bench;
    done.edit
}

// Appends a gate after the last one. The answer lists its line.
pub fn append_gate(bench: &mut Bench, kind: usize, a: usize, b: usize) -> Edit
    ensures { AppendPromise bench.old kind a b result bench.new }
{
    let done = bench::appending::append_gate(*bench, kind, a, b);
    *bench = done.bench;
    done.edit
}

// The report of what stands on the bench.
pub fn report(bench: &Bench) -> Result<Report, Refusal>
    ensures { ReportPromise bench.now result }
{
    report::report(*bench)
}

// How far row j of the open matrix is from the lines of the open circuit within depth d, and which of them make it.
pub fn hint(bench: &Bench, j: usize, d: usize) -> Result<Option<Found>, Refusal>
    ensures { HintPromise bench.now j d result }
{
    hint::hint(*bench, j, d)
}

// The stored bytes first in the room, and how many; the rest of the room stays.
pub fn store(bench: &Bench, room: &mut [u8]) -> Result<usize, Refusal>
    ensures { StorePromise bench.now room.old result room.new }
{
    bench::storing::store(*bench, room)
}
