// A function for each call: the call on the bench by value, and its answer said.
ghost use Rattle.std.specs.Prelude.{◌≡◌, ◌+◌, ◌-◌, ◌/◌, ◌≤◌, length};
ghost use Rattle.stored.specs.Stored.{stored};
ghost use Rattle.builder.specs.Call.{built, build_answer};
ghost use Rattle.builder.specs.Late.{late_built, late_answer};
ghost use Rattle.targets.specs.Target.{brought};
ghost use Rattle.bench.specs.Calls.{OpenPromise};
ghost use Rattle.bench.specs.State.{limits};
ghost use Rattle.script.specs.Reading.{ask_open};
ghost use Rattle.script.specs.Order.{bytes_of, unreadable, ask_new, ask_report, ask_gate, ask_output, ask_entry, ask_limits, ask_sweep, ask_append, ask_store, ask_held, ask_show, ask_hint, ask_build, ask_late, ask_distance, ask_equations};
ghost use Rattle.script.specs.Placed.{HexPart, HexParts, HexThree};
ghost use Rattle.talk.specs.Texts.{edit_text};
ghost use Rattle.talk.specs.Talk.{Answers};
ghost use Rattle.talk.specs.Saying.{Said, StoresFirst, WrittenFirst, DrawsFirst};

use crate::held::say_held;
use crate::lines::{
    say, say_drawn, say_edit, say_found, say_hint, say_opened, say_reported, say_written,
};
use crate::show::say_show;
use crate::{HEX, OUT, STORED, Told};
use bench::appending::append_gate;
use bench::edits::{change_entry, point_output, replace_gate, set_limits};
use bench::opening::{empty, open_matrix, open_table};
use bench::storing::{circuit_of, store};
use bench::sweeping::sweep;
use bench::{Bench, Edited, Opened};
use builder::{build, build_late};
use circuit::Refusal;
use distance::distance;
use hint::hint;
use report::report;
use script::{
    AppendEdit, BuildCall, DistanceCall, EntryEdit, EquationsCall, GateEdit, HintCall, LateCall,
    LimitsEdit, Opening, OutputEdit, Part,
};

// A line that is no call.
pub(crate) fn tell_unreadable(b: Bench, out: &mut [u8; OUT]) -> Told
    ensures { Answers b unreadable out.old out.new result }
{
    let len = say(out, b"unreadable\n");
    Told { bench: b, len }
}

// `new`: a bench with nothing open, whatever stood on it.
pub(crate) fn tell_new(b: Bench, out: &mut [u8; OUT]) -> Told
    ensures { Answers b ask_new out.old out.new result }
{
    let len = say(out, b"new\n");
    let bench = empty();
    Told { bench, len }
}

// The bytes that a part of a line says, first in a room, and the rest of the room.
fn lay<'a>(line: &[u8], p: Part, room: &'a mut [u8]) -> (&'a mut [u8], &'a mut [u8])
    requires digits { HexPart line.now p }
    requires fits { (p.to - p.from) / 2 ≤ length room.old }
    ensures bytes { result.0.now ≡ bytes_of line.now p }
    ensures rest { length result.1.now + (p.to - p.from) / 2 ≡ length room.old }
{
    let end = text::put_unhex(room, 0, &line[p.from..p.to]);
    room.split_at_mut(end)
}

// An open with a target of either kind.
fn open_with(b: Bench, matrix: bool, bytes: &[u8], target: &[u8], o: Opening) -> Opened
    ensures { OpenPromise b bytes.now (brought matrix target.now) (limits o.gates o.depth o.ands) result.answer result.bench }
{
    if matrix {
        open_matrix(b, bytes, target, o.gates, o.depth, o.ands)
    } else {
        open_table(b, bytes, target, o.gates, o.depth, o.ands)
    }
}

// `open HEX matrix HEX G D A` or `open HEX table HEX G D A`.
// Bench, line and room go one by one: the bench by value, as edits take it, and the others lent.
pub(crate) fn tell_open(
    b: Bench,
    line: &[u8],
    matrix: bool,
    o: Opening,
    out: &mut [u8; OUT],
) -> Told
    requires { HexParts line.now o.bytes o.target }
    ensures { Answers b (ask_open matrix (bytes_of line.now o.bytes) (bytes_of line.now o.target) o.gates o.depth o.ands) out.old out.new result }
{
    let mut room = [0u8; HEX];
    let (bytes, rest) = lay(line, o.bytes, &mut room);
    let (target, _) = lay(line, o.target, rest);
    let done = open_with(b, matrix, bytes, target, o);
    let len = say_opened(out, done.answer);
    Told {
        bench: done.bench,
        len,
    }
}

// `report`.
pub(crate) fn tell_report(b: Bench, out: &mut [u8; OUT]) -> Told
    ensures { Answers b ask_report out.old out.new result }
{
    let len = say_reported(out, report(b));
    Told { bench: b, len }
}

// An edit's answer, with the bench after it. Laid into its callers: as a call of its own it is handed a copy of the bench and makes
// another.
#[inline(always)]
fn told_edit(done: Edited, out: &mut [u8; OUT]) -> Told
    ensures { (result.bench ≡ done.bench) × Said out.old out.new result.len (edit_text done.edit) }
{
    let len = say_edit(out, done.edit);
    Told {
        bench: done.bench,
        len,
    }
}

// `gate K KIND A B`.
pub(crate) fn tell_gate(b: Bench, e: GateEdit, out: &mut [u8; OUT]) -> Told
    ensures { Answers b (ask_gate e.k e.kind e.a e.b) out.old out.new result }
{
    told_edit(replace_gate(b, e.k, e.kind, e.a, e.b), out)
}

// `output J LINE`.
pub(crate) fn tell_output(b: Bench, e: OutputEdit, out: &mut [u8; OUT]) -> Told
    ensures { Answers b (ask_output e.j e.line) out.old out.new result }
{
    told_edit(point_output(b, e.j, e.line), out)
}

// `entry I VALUE` or `entry I VALUE CONSTANT`.
pub(crate) fn tell_entry(b: Bench, e: EntryEdit, out: &mut [u8; OUT]) -> Told
    ensures { Answers b (ask_entry e.i e.value e.constant) out.old out.new result }
{
    told_edit(change_entry(b, e.i, e.value, e.constant), out)
}

// `limits G D A`.
pub(crate) fn tell_limits(b: Bench, e: LimitsEdit, out: &mut [u8; OUT]) -> Told
    ensures { Answers b (ask_limits e.gates e.depth e.ands) out.old out.new result }
{
    told_edit(set_limits(b, e.gates, e.depth, e.ands), out)
}

// `sweep`.
pub(crate) fn tell_sweep(b: Bench, out: &mut [u8; OUT]) -> Told
    ensures { Answers b ask_sweep out.old out.new result }
{
    told_edit(sweep(b), out)
}

// `append KIND A B`.
pub(crate) fn tell_append(b: Bench, e: AppendEdit, out: &mut [u8; OUT]) -> Told
    ensures { Answers b (ask_append e.kind e.a e.b) out.old out.new result }
{
    told_edit(append_gate(b, e.kind, e.a, e.b), out)
}

// What is stored stands first in the room: a longer one than any stored form needs is lent no longer than that.
fn store_in(b: Bench, size: usize, room: &mut [u8; STORED]) -> Result<usize, Refusal>
    ensures { StoresFirst b size result room.new }
{
    let lent = size.min(STORED);
    store(b, &mut room[..lent])
}

// `store ROOM`. This, `build`, `late` and `equations` share lines: one function of them would take a closure over the room, whose contract is
// longer than those.
pub(crate) fn tell_store(b: Bench, size: usize, out: &mut [u8; OUT]) -> Told
    ensures { Answers b (ask_store size) out.old out.new result }
{
    let mut room = [0u8; STORED];
    let writing = store_in(b, size, &mut room);
    let len = say_written(out, b"stored ", writing, &room);
    Told { bench: b, len }
}

// What is built stands first in the room, lent as it is for a store.
fn build_in(line: &[u8], q: BuildCall, room: &mut [u8; STORED]) -> Result<usize, Refusal>
    requires { HexPart line.now q.rows }
    ensures { WrittenFirst (build_answer q.n (bytes_of line.now q.rows) q.d q.room) (stored (built q.n (bytes_of line.now q.rows) q.d)) result room.new }
{
    let mut bytes = [0u8; HEX];
    let (rows, _) = lay(line, q.rows, &mut bytes);
    let lent = q.room.min(STORED);
    build(q.n, rows, q.d, &mut room[..lent])
}

// `build N ROWSHEX D ROOM`.
pub(crate) fn tell_build(b: Bench, line: &[u8], q: BuildCall, out: &mut [u8; OUT]) -> Told
    requires { HexPart line.now q.rows }
    ensures { Answers b (ask_build q.n (bytes_of line.now q.rows) q.d q.room) out.old out.new result }
{
    let mut room = [0u8; STORED];
    let writing = build_in(line, q, &mut room);
    let len = say_written(out, b"built ", writing, &room);
    Told { bench: b, len }
}

// What is built for late signals stands first in the room, lent as it is for a store.
fn late_in(line: &[u8], q: LateCall, room: &mut [u8; STORED]) -> Result<usize, Refusal>
    requires { HexThree line.now q.arrivals q.rows q.limits }
    ensures { WrittenFirst (late_answer q.n (bytes_of line.now q.arrivals) (bytes_of line.now q.rows) (bytes_of line.now q.limits) q.room) (stored (late_built q.n (bytes_of line.now q.arrivals) (bytes_of line.now q.rows) (bytes_of line.now q.limits))) result room.new }
{
    let mut bytes = [0u8; HEX];
    let (arrivals, rest) = lay(line, q.arrivals, &mut bytes);
    let (rows, more) = lay(line, q.rows, rest);
    let (limits, _) = lay(line, q.limits, more);
    let lent = q.room.min(STORED);
    build_late(q.n, arrivals, rows, limits, &mut room[..lent])
}

// `late N ARRIVALSHEX ROWSHEX LIMITSHEX ROOM`.
pub(crate) fn tell_late(b: Bench, line: &[u8], q: LateCall, out: &mut [u8; OUT]) -> Told
    requires { HexThree line.now q.arrivals q.rows q.limits }
    ensures { Answers b (ask_late q.n (bytes_of line.now q.arrivals) (bytes_of line.now q.rows) (bytes_of line.now q.limits) q.room) out.old out.new result }
{
    let mut room = [0u8; STORED];
    let writing = late_in(line, q, &mut room);
    let len = say_written(out, b"built ", writing, &room);
    Told { bench: b, len }
}

// `held`.
pub(crate) fn tell_held(b: Bench, out: &mut [u8; OUT]) -> Told
    ensures { Answers b ask_held out.old out.new result }
{
    let len = say_held(out, &b);
    Told { bench: b, len }
}

// `show`: lines and verdict of one and the same bench.
pub(crate) fn tell_show(b: Bench, out: &mut [u8; OUT]) -> Told
    ensures { Answers b ask_show out.old out.new result }
{
    let len = say_show(out, circuit_of(b), report(b));
    Told { bench: b, len }
}

// `hint J D`.
pub(crate) fn tell_hint(b: Bench, q: HintCall, out: &mut [u8; OUT]) -> Told
    ensures { Answers b (ask_hint q.row q.d) out.old out.new result }
{
    let len = say_hint(out, hint(b, q.row, q.d));
    Told { bench: b, len }
}

// `distance N MASKSHEX DEPTHSHEX T D`.
pub(crate) fn tell_distance(b: Bench, line: &[u8], q: DistanceCall, out: &mut [u8; OUT]) -> Told
    requires { HexParts line.now q.masks q.depths }
    ensures { Answers b (ask_distance q.n (bytes_of line.now q.masks) (bytes_of line.now q.depths) q.target q.d) out.old out.new result }
{
    let mut room = [0u8; HEX];
    let (masks, rest) = lay(line, q.masks, &mut room);
    let (depths, _) = lay(line, q.depths, rest);
    let len = say_found(out, distance(q.n, masks, depths, q.target, q.d));
    Told { bench: b, len }
}

// What is read of a file stands first in the room, lent as it is for a store.
fn draw_in(
    line: &[u8],
    q: EquationsCall,
    room: &mut [u8; STORED],
) -> Result<usize, drawing::Refusal>
    requires { HexPart line.now q.file }
    ensures { DrawsFirst (bytes_of line.now q.file) q.room result room.new }
{
    let mut bytes = [0u8; HEX];
    let (file, _) = lay(line, q.file, &mut bytes);
    let lent = q.room.min(STORED);
    drawing::equations(file, &mut room[..lent])
}

// `equations HEX ROOM`.
pub(crate) fn tell_equations(b: Bench, line: &[u8], q: EquationsCall, out: &mut [u8; OUT]) -> Told
    requires { HexPart line.now q.file }
    ensures { Answers b (ask_equations (bytes_of line.now q.file) q.room) out.old out.new result }
{
    let mut room = [0u8; STORED];
    let drawn = draw_in(line, q, &mut room);
    let len = say_drawn(out, drawn, &room);
    Told { bench: b, len }
}
