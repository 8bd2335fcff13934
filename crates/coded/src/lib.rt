// The calls by value with numbers for answers, as other languages take them: 0 or the refusal's number, and the counts.
#![tactic(auto)]

ghost use Rattle.std.specs.Prelude.{◌≡◌, true, false};
ghost use Rattle.circuit.specs.Rules.{answer_no};
ghost use Rattle.targets.specs.Target.{brought};
ghost use Rattle.bench.specs.State.{limits};
ghost use Rattle.coded.specs.Coded.{open_coded, edit_coded, edit_code, verdict_code, report_code, refused_code, drawn_code, OpenCode, GateCode, OutputCode, EntryCode, LimitsCode, SweepCode, AppendCode, ReportCodePromise, StoreCode, EquationsCode};

use bench::{Bench, Edit, NO_LINES, Report, Verdict, appending, edits, opening, sweeping};
use circuit::{LINES, Refusal, refusal_no};
use drawing::{BAD_NAME, BAD_TEXT, NO_OUTPUTS};

// The bench after an open, and 0 or why it was refused.
// Not one generic struct with those of `bench`: `OpenCode` and `OpenPromise` name their fields.
#[derive(Clone, Copy)]
pub struct Opened {
    pub bench: Bench,
    pub refusal: usize,
}

// What an edit answers: 0 or why it was refused, how many lines it reworked, and which, in ascending order.
#[repr(C)]
#[derive(Clone, Copy)]
pub struct EditNumbers {
    pub refusal: usize,
    pub count: usize,
    pub lines: [u16; LINES],
}

#[derive(Clone, Copy)]
pub struct Edited {
    pub bench: Bench,
    pub edit: EditNumbers,
}

// What a report answers: 0 or why it was refused; the counts and depths; the verdict, 0 pass, 1 wrong, 2 over the gate
// limit, 3 over the depth limit, 4 over the AND depth limit; and where it is wrong.
#[repr(C)]
#[derive(Clone, Copy)]
pub struct ReportNumbers {
    pub refusal: usize,
    pub gates: usize,
    pub xors: usize,
    pub nonlinear: usize,
    pub nots: usize,
    pub depth: usize,
    pub ands: usize,
    pub verdict: usize,
    pub input: usize,
    pub output: usize,
}

// 0, or the number of why.
fn answer_no<T: Copy>(answer: Result<T, Refusal>) -> usize
    ensures { result ≡ answer_no answer }
{
    match answer {
        Ok(_) => 0,
        Err(why) => refusal_no(why),
    }
}

// An open's answer in numbers.
fn open_numbers(done: bench::Opened) -> Opened
    ensures { result ≡ open_coded done }
{
    Opened {
        bench: done.bench,
        refusal: answer_no(done.answer),
    }
}

// An edit's answer in numbers.
fn told(edit: Edit) -> EditNumbers
    ensures { result ≡ edit_code edit }
{
    let refusal = answer_no(edit);
    let told = edit.unwrap_or(NO_LINES);
    let lines = told.lines;
    EditNumbers {
        refusal,
        count: told.count,
        lines,
    }
}

// The same by a call of its own: laid into an append, each of the answer's two ways would copy the bench twice more.
#[inline(never)]
fn told_apart(edit: Edit) -> EditNumbers
    ensures { result ≡ edit_code edit }
{
    told(edit)
}

// The bench after an edit, and its answer in numbers.
#[tactic(auto, unfolding(crate::specs::Coded::edit_coded))]
fn edit_numbers(done: bench::Edited) -> Edited
    ensures { result ≡ edit_coded done }
{
    Edited {
        bench: done.bench,
        edit: told(done.edit),
    }
}

// Opens a circuit with a matrix for its target: in `rows` the masks, then the constants.
pub fn open_matrix(
    bench: Bench,
    bytes: &[u8],
    rows: &[u8],
    gates: u8,
    depth: u8,
    ands: u8,
) -> Opened
    ensures { OpenCode bench bytes.now (brought true rows.now) (limits gates depth ands) result.refusal result.bench }
{
    open_numbers(opening::open_matrix(bench, bytes, rows, gates, depth, ands))
}

// Opens a circuit with a table for its target.
pub fn open_table(
    bench: Bench,
    bytes: &[u8],
    entries: &[u8],
    gates: u8,
    depth: u8,
    ands: u8,
) -> Opened
    ensures { OpenCode bench bytes.now (brought false entries.now) (limits gates depth ands) result.refusal result.bench }
{
    open_numbers(opening::open_table(bench, bytes, entries, gates, depth, ands))
}

// Replaces gate k.
pub fn replace_gate(bench: Bench, k: usize, kind: usize, a: usize, b: usize) -> Edited
    ensures { GateCode bench k kind a b result.edit result.bench }
{
    edit_numbers(edits::replace_gate(bench, k, kind, a, b))
}

// Points output j at a line.
pub fn point_output(bench: Bench, j: usize, line: usize) -> Edited
    ensures { OutputCode bench j line result.edit result.bench }
{
    edit_numbers(edits::point_output(bench, j, line))
}

// Changes row i of a matrix, mask and constant together, or the entry of input value i of a table, beside which the constant is 0.
pub fn change_entry(bench: Bench, i: usize, value: usize, constant: usize) -> Edited
    ensures { EntryCode bench i value constant result.edit result.bench }
{
    edit_numbers(edits::change_entry(bench, i, value, constant))
}

// Sets the three limits.
pub fn set_limits(bench: Bench, gates: u8, depth: u8, ands: u8) -> Edited
    ensures { LimitsCode bench (limits gates depth ands) result.edit result.bench }
{
    edit_numbers(edits::set_limits(bench, gates, depth, ands))
}

// Drops the gates that no output reaches, and merges those that are the same.
pub fn sweep(bench: Bench) -> Edited
    ensures { SweepCode bench result.edit result.bench }
{
    edit_numbers(sweeping::sweep(bench))
}

// Appends a gate after the last one.
pub fn append_gate(bench: Bench, kind: usize, a: usize, b: usize) -> Edited
    ensures { AppendCode bench kind a b result.edit result.bench }
{
    let done = appending::append_gate(bench, kind, a, b);
    Edited {
        bench: done.bench,
        edit: told_apart(done.edit),
    }
}

// A verdict in three numbers.
// The three fields of `ReportNumbers` that say a verdict to C.
#[derive(Clone, Copy)]
struct VerdictNumbers {
    verdict: usize,
    input: usize,
    output: usize,
}

fn verdict_numbers(verdict: Verdict) -> VerdictNumbers
    ensures { result ≡ verdict_code verdict }
{
    match verdict {
        Verdict::Wrong(place) => VerdictNumbers {
            verdict: 1,
            input: place.input,
            output: place.output,
        },
        Verdict::OverGates => VerdictNumbers {
            verdict: 2,
            input: 0,
            output: 0,
        },
        Verdict::OverDepth => VerdictNumbers {
            verdict: 3,
            input: 0,
            output: 0,
        },
        Verdict::OverAndDepth => VerdictNumbers {
            verdict: 4,
            input: 0,
            output: 0,
        },
        Verdict::Pass => VerdictNumbers {
            verdict: 0,
            input: 0,
            output: 0,
        },
    }
}

fn report_numbers(report: Report) -> ReportNumbers
    ensures { result ≡ report_code report }
{
    let counts = report.counts;
    let v = verdict_numbers(report.verdict);
    ReportNumbers {
        refusal: 0,
        gates: report.gates,
        xors: counts.xors,
        nonlinear: counts.nonlinear,
        nots: counts.nots,
        depth: usize::from(report.depth),
        ands: usize::from(report.and_depth),
        verdict: v.verdict,
        input: v.input,
        output: v.output,
    }
}

// No report.
fn refused_numbers(refusal: usize) -> ReportNumbers
    ensures { result ≡ refused_code refusal }
{
    ReportNumbers {
        refusal,
        gates: 0,
        xors: 0,
        nonlinear: 0,
        nots: 0,
        depth: 0,
        ands: 0,
        verdict: 0,
        input: 0,
        output: 0,
    }
}

// The report of what stands on the bench.
pub fn report(bench: Bench) -> ReportNumbers
    ensures { ReportCodePromise bench result }
{
    match report::report(bench) {
        Ok(report) => report_numbers(report),
        Err(why) => refused_numbers(refusal_no(why)),
    }
}

// The stored bytes first in the room, and how many; or 65,536 times the refusal's number.
pub fn store(bench: Bench, room: &mut [u8]) -> usize
    ensures { StoreCode bench room.old result room.new }
{
    let written = bench::storing::store(bench, room);
    stored::restore::writing_code(written)
}

// What reading an equation file answers: 0 or why it was refused, how many bytes stand first in the room, and where the text or
// a name is bad, as the number of bytes before that place.
#[repr(C)]
#[derive(Clone, Copy)]
pub struct ReadingNumbers {
    pub refusal: usize,
    pub count: usize,
    pub place: usize,
}

// A reading's answer in numbers.
fn drawn_numbers(drawn: Result<usize, drawing::Refusal>) -> ReadingNumbers
    ensures { result ≡ drawn_code drawn }
{
    match drawn {
        Ok(count) => ReadingNumbers {
            refusal: 0,
            count,
            place: 0,
        },
        Err(drawing::Refusal::BadText(place)) => ReadingNumbers {
            refusal: BAD_TEXT,
            count: 0,
            place,
        },
        Err(drawing::Refusal::BadName(place)) => ReadingNumbers {
            refusal: BAD_NAME,
            count: 0,
            place,
        },
        Err(drawing::Refusal::NoOutputs) => ReadingNumbers {
            refusal: NO_OUTPUTS,
            count: 0,
            place: 0,
        },
        Err(drawing::Refusal::NotStored(why)) => ReadingNumbers {
            refusal: refusal_no(why),
            count: 0,
            place: 0,
        },
    }
}

// The stored circuit of an equation file first in the room.
pub fn equations(text: &[u8], room: &mut [u8]) -> ReadingNumbers
    ensures { EquationsCode text.now room.old result room.new }
{
    drawn_numbers(drawing::equations(text, room))
}
