// What other languages link: the static library over `lent`'s calls with numbers for answers, an export for each. A bench of zeros has
// nothing open. Each is a twin of `lent::linked`'s by the C interface: a crate is a library or a static library, and exports what is its own.
#![tactic(auto)]

ghost use Rattle.std.specs.Prelude.{◌≡◌, true, false};
ghost use Rattle.stored.specs.Writing.{Restored};
ghost use Rattle.distance.specs.Query.{found_of, found_code};
ghost use Rattle.builder.specs.Call.{BuildsNumbered};
ghost use Rattle.builder.specs.Late.{BuildsLateNumbered};
ghost use Rattle.targets.specs.Target.{brought};
ghost use Rattle.bench.specs.State.{limits};
ghost use Rattle.hint.specs.Hint.{HintCode};
ghost use Rattle.coded.specs.Coded.{OpenCode, GateCode, OutputCode, EntryCode, LimitsCode, SweepCode, AppendCode, ReportCodePromise, StoreCode, EquationsCode};

use bench::Bench;
use coded::{EditNumbers, ReadingNumbers, ReportNumbers};
use distance::FoundNumbers;

// Opens a circuit with a matrix for its target: `rows` is the masks, and then the constants.
#[unsafe(no_mangle)]
pub extern "C" fn allpawasi_open_matrix(
    bench: &mut Bench,
    bytes: &[u8],
    rows: &[u8],
    gates: u8,
    depth: u8,
    ands: u8,
) -> usize
    ensures { OpenCode bench.old bytes.now (brought true rows.now) (limits gates depth ands) result bench.new }
{
    lent::linked::allpawasi_open_matrix(bench, bytes, rows, gates, depth, ands)
}

// Opens a circuit with a table for its target.
#[unsafe(no_mangle)]
pub extern "C" fn allpawasi_open_table(
    bench: &mut Bench,
    bytes: &[u8],
    entries: &[u8],
    gates: u8,
    depth: u8,
    ands: u8,
) -> usize
    ensures { OpenCode bench.old bytes.now (brought false entries.now) (limits gates depth ands) result bench.new }
{
    lent::linked::allpawasi_open_table(bench, bytes, entries, gates, depth, ands)
}

// Replaces gate k. The answer lists the lines that were examined again.
#[unsafe(no_mangle)]
pub extern "C" fn allpawasi_replace_gate(
    bench: &mut Bench,
    k: usize,
    kind: usize,
    a: usize,
    b: usize,
) -> EditNumbers
    ensures { GateCode bench.old k kind a b result bench.new }
{
    lent::linked::allpawasi_replace_gate(bench, k, kind, a, b)
}

// Points output j at a line.
#[unsafe(no_mangle)]
pub extern "C" fn allpawasi_point_output(bench: &mut Bench, j: usize, line: usize) -> EditNumbers
    ensures { OutputCode bench.old j line result bench.new }
{
    lent::linked::allpawasi_point_output(bench, j, line)
}

// Changes row i of a matrix, mask and constant, or the entry of input value i of a table, beside which the constant is 0.
#[unsafe(no_mangle)]
pub extern "C" fn allpawasi_change_entry(
    bench: &mut Bench,
    i: usize,
    value: usize,
    constant: usize,
) -> EditNumbers
    ensures { EntryCode bench.old i value constant result bench.new }
{
    lent::linked::allpawasi_change_entry(bench, i, value, constant)
}

// Sets the three limits.
#[unsafe(no_mangle)]
pub extern "C" fn allpawasi_set_limits(
    bench: &mut Bench,
    gates: u8,
    depth: u8,
    ands: u8,
) -> EditNumbers
    ensures { LimitsCode bench.old (limits gates depth ands) result bench.new }
{
    lent::linked::allpawasi_set_limits(bench, gates, depth, ands)
}

// Drops the gates that no output reaches, and merges those that are the same. The answer lists the lines of those kept.
#[unsafe(no_mangle)]
pub extern "C" fn allpawasi_sweep(bench: &mut Bench) -> EditNumbers
    ensures { SweepCode bench.old result bench.new }
{
    lent::linked::allpawasi_sweep(bench)
}

// Appends a gate after the last one. The answer lists its line.
#[unsafe(no_mangle)]
pub extern "C" fn allpawasi_append_gate(
    bench: &mut Bench,
    kind: usize,
    a: usize,
    b: usize,
) -> EditNumbers
    ensures { AppendCode bench.old kind a b result bench.new }
{
    lent::linked::allpawasi_append_gate(bench, kind, a, b)
}

// The report of what stands on the bench.
#[unsafe(no_mangle)]
pub extern "C" fn allpawasi_report(bench: &Bench) -> ReportNumbers
    ensures { ReportCodePromise bench.now result }
{
    lent::linked::allpawasi_report(bench)
}

// How far row j of the open matrix is from the lines of the open circuit within depth d, and which of them make it: answered as
// `allpawasi_distance` is.
#[unsafe(no_mangle)]
pub extern "C" fn allpawasi_hint(bench: &Bench, j: usize, d: usize) -> FoundNumbers
    ensures { HintCode bench.now j d result }
{
    lent::linked::allpawasi_hint(bench, j, d)
}

// The stored bytes first in the room, and how many; or 65,536 times the refusal's number, and the room as it was.
#[unsafe(no_mangle)]
pub extern "C" fn allpawasi_store(bench: &Bench, room: &mut [u8]) -> usize
    ensures { StoreCode bench.now room.old result room.new }
{
    lent::linked::allpawasi_store(bench, room)
}

// Reads a stored circuit and stores it again. `only`: no gate but a linear one is allowed.
#[unsafe(no_mangle)]
pub extern "C" fn allpawasi_restore(bytes: &[u8], only: bool, room: &mut [u8]) -> usize
    ensures { Restored only bytes.now room.old result room.new }
{
    lent::linked::allpawasi_restore(bytes, only, room)
}

// Builds an XOR program: how many bytes stand first in the room, or 65,536 times the refusal's number.
#[unsafe(no_mangle)]
pub extern "C" fn allpawasi_build(n: usize, rows: &[u8], d: usize, room: &mut [u8]) -> usize
    ensures { BuildsNumbered n rows.now d room.old result room.new }
{
    lent::linked::allpawasi_build(n, rows, d, room)
}

// Builds an XOR program for inputs with arrival depths and rows with depth limits of their own: answered as `allpawasi_build` is.
#[unsafe(no_mangle)]
pub extern "C" fn allpawasi_build_late(
    n: usize,
    arrivals: &[u8],
    rows: &[u8],
    limits: &[u8],
    room: &mut [u8],
) -> usize
    ensures { BuildsLateNumbered n arrivals.now rows.now limits.now room.old result room.new }
{
    lent::linked::allpawasi_build_late(n, arrivals, rows, limits, room)
}

// The fewest XOR gates that make a target over a base, and the lines of the base that they count from; 99 where no program does; 100 and
// the refusal's number.
#[unsafe(no_mangle)]
pub extern "C" fn allpawasi_distance(
    n: usize,
    masks: &[u8],
    depths: &[u8],
    target: usize,
    d: usize,
) -> FoundNumbers
    ensures { result ≡ found_code (found_of n masks.now depths.now target d) }
{
    lent::linked::allpawasi_distance(n, masks, depths, target, d)
}

// Reads an equation file: how many bytes of its stored circuit stand first in the room, or the refusal's number and the place of
// 15 and 16, and the room as it was.
#[unsafe(no_mangle)]
pub extern "C" fn allpawasi_equations(text: &[u8], room: &mut [u8]) -> ReadingNumbers
    ensures { EquationsCode text.now room.old result room.new }
{
    lent::linked::allpawasi_equations(text, room)
}
