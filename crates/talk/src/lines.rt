// The answers of one line: each is put first in the room.
ghost use Rattle.std.specs.Prelude.{Err, [], ◌+◌, ◌≤◌, min, length, take, ◌++◌};
ghost use Rattle.circuit.specs.Sizes.{most_lines};
ghost use Rattle.text.specs.Numbers.{labelled};
ghost use Rattle.text.specs.Putting.{Put};
ghost use Rattle.listing.specs.Printed.{new_line, refused_text, placed_text};
ghost use Rattle.talk.specs.Texts.{verdict_text, tally_text, report_text, reported_text, open_text, listed_text, reworked_text, edit_text, hex_line, drawn_text, gates_text, gap_text, found_text, hinted_text};
ghost use Rattle.talk.specs.Saying.{Said, stored_most, written_in, drawn_in};

use crate::{OUT, STORED};
use bench::{Edit, Report, Reworked, Verdict};
use circuit::{INPUTS, LINES, Refusal, Tally};
use distance::Found;
use drawing::{BAD_NAME, BAD_TEXT, NO_OUTPUTS};
use text::put_labelled;

// A fixed line.
// The bound on a name stands in five contracts: a struct for it would have that one field.
pub(crate) fn say(out: &mut [u8; OUT], line: &[u8]) -> usize
    requires { length line.now ≤ 64 }
    ensures { Said out.old out.new result line.now }
{
    text::put(out, 0, line)
}

// `refused N`.
pub(crate) fn say_refused(out: &mut [u8; OUT], why: Refusal) -> usize
    ensures { Said out.old out.new result (refused_text why) }
{
    listing::put_refused(out, why)
}

// A verdict.
pub(crate) fn put_verdict(room: &mut [u8], at: usize, verdict: Verdict) -> usize
    requires { at + 64 ≤ length room.old }
    ensures put { Put room.old at (verdict_text verdict) room.new result }
    ensures upper_bound { result ≤ at + 64 }
{
    match verdict {
        Verdict::Wrong(place) => {
            let input = put_labelled(room, at, b"wrong ", place.input);
            put_labelled(room, input, b" ", place.output)
        }
        Verdict::OverGates => text::put(room, at, b"over-gates"),
        Verdict::OverDepth => text::put(room, at, b"over-depth"),
        Verdict::OverAndDepth => text::put(room, at, b"over-anddepth"),
        Verdict::Pass => text::put(room, at, b"pass"),
    }
}

// The counts of a report.
fn put_tally(room: &mut [u8], gates: usize, counts: Tally) -> usize
    requires { 128 ≤ length room.old }
    ensures put { Put room.old 0 (tally_text gates counts) room.new result }
    ensures upper_bound { result ≤ 128 }
{
    let end = put_labelled(room, 0, b"report gates ", gates);
    let xors = put_labelled(room, end, b" xor ", counts.xors);
    let nonlinear = put_labelled(room, xors, b" nonlinear ", counts.nonlinear);
    put_labelled(room, nonlinear, b" not ", counts.nots)
}

// The report.
pub(crate) fn say_report(out: &mut [u8; OUT], r: Report) -> usize
    ensures { Said out.old out.new result (report_text r) }
{
    let counted = put_tally(out, r.gates, r.counts);
    let depth = put_labelled(out, counted, b" depth ", usize::from(r.depth));
    let ands = put_labelled(out, depth, b" anddepth ", usize::from(r.and_depth));
    let space = text::put(out, ands, b" ");
    let judged = put_verdict(out, space, r.verdict);
    text::put(out, judged, b"\n")
}

// What a report answers.
// The two cases are written out here and below: a function of them would take what is said of `Ok` as a closure over the room.
pub(crate) fn say_reported(out: &mut [u8; OUT], r: Result<Report, Refusal>) -> usize
    ensures { Said out.old out.new result (reported_text r) }
{
    match r {
        Ok(report) => say_report(out, report),
        Err(why) => say_refused(out, why),
    }
}

// What an open answers.
pub(crate) fn say_opened(out: &mut [u8; OUT], answer: Result<(), Refusal>) -> usize
    ensures { Said out.old out.new result (open_text answer) }
{
    match answer {
        Ok(()) => say(out, b"opened\n"),
        Err(why) => say_refused(out, why),
    }
}

// A name and a number, and lines after it.
fn say_listed(out: &mut [u8; OUT], name: &[u8], x: usize, lines: &[u16]) -> usize
    requires { (length name.now ≤ 64) × (length lines.now ≤ most_lines) }
    ensures { Said out.old out.new result (listed_text name.now x lines.now) }
{
    let named = put_labelled(out, 0, name, x);
    let listed = text::put_numbers(out, named, lines);
    text::put(out, listed, b"\n")
}

// `reworked COUNT LINE LINE ..`. No edit reworks more lines than there may be; the test keeps to the array on a bench that no calls yield.
fn say_reworked(out: &mut [u8; OUT], r: Reworked) -> usize
    ensures { Said out.old out.new result (reworked_text r.count r.lines) }
{
    let shown = r.count.min(LINES);
    say_listed(out, b"reworked ", r.count, &r.lines[..shown])
}

// What an edit answers.
pub(crate) fn say_edit(out: &mut [u8; OUT], e: Edit) -> usize
    ensures { Said out.old out.new result (edit_text e) }
{
    match e {
        Ok(reworked) => say_reworked(out, reworked),
        Err(why) => say_refused(out, why),
    }
}

// `stored COUNT HEX`, `built COUNT HEX` or `read COUNT HEX`, of what stands first in a room. No stored form has more than 1,341 bytes; the
// test keeps to the answer's room on a bench that no calls yield.
// Count and room and no slice: the count is said as it is.
fn say_bytes(out: &mut [u8; OUT], name: &[u8], count: usize, room: &[u8; STORED]) -> usize
    requires { length name.now ≤ 64 }
    ensures { Said out.old out.new result (hex_line name.now count (take (min count stored_most) room.now)) }
{
    let shown = count.min(STORED);
    let counted = put_labelled(out, 0, name, count);
    let start = text::put(out, counted, b" ");
    let end = text::put_hex(out, start, &room[..shown]);
    text::put(out, end, b"\n")
}

// What was written first in a room, or why nothing was.
pub(crate) fn say_written(
    out: &mut [u8; OUT],
    name: &[u8],
    writing: Result<usize, Refusal>,
    room: &[u8; STORED],
) -> usize
    requires { length name.now ≤ 64 }
    ensures { Said out.old out.new result (written_in name.now writing room.now) }
{
    match writing {
        Ok(count) => say_bytes(out, name, count, room),
        Err(why) => say_refused(out, why),
    }
}

// A name and a number.
fn say_number(out: &mut [u8; OUT], name: &[u8], x: usize) -> usize
    requires { length name.now ≤ 64 }
    ensures { Said out.old out.new result (labelled name.now x ++ new_line) }
{
    let end = put_labelled(out, 0, name, x);
    text::put(out, end, b"\n")
}

// `refused N PLACE`.
fn say_placed(out: &mut [u8; OUT], number: usize, place: usize) -> usize
    ensures { Said out.old out.new result (placed_text number place ++ new_line) }
{
    let end = listing::put_placed(out, number, place);
    text::put(out, end, b"\n")
}

// Why nothing was read of a file.
fn say_unread(out: &mut [u8; OUT], why: drawing::Refusal) -> usize
    ensures { Said out.old out.new result (drawn_text (Err why) []) }
{
    match why {
        drawing::Refusal::BadText(place) => say_placed(out, BAD_TEXT, place),
        drawing::Refusal::BadName(place) => say_placed(out, BAD_NAME, place),
        drawing::Refusal::NoOutputs => say_number(out, b"refused ", NO_OUTPUTS),
        drawing::Refusal::NotStored(why) => say_refused(out, why),
    }
}

// What was read of a file and stands first in a room, or why nothing was.
pub(crate) fn say_drawn(
    out: &mut [u8; OUT],
    drawn: Result<usize, drawing::Refusal>,
    room: &[u8; STORED],
) -> usize
    ensures { Said out.old out.new result (drawn_in drawn room.now) }
{
    match drawn {
        Ok(count) => say_bytes(out, b"read ", count, room),
        Err(why) => say_unread(out, why),
    }
}

// `distance X LINE LINE ..`. No distance has more lines than there may be inputs; the test keeps to the array on a bench that no calls yield.
fn say_gates(out: &mut [u8; OUT], found: Found) -> usize
    ensures { Said out.old out.new result (gates_text found.gates (take found.count found.lines)) }
{
    let shown = found.count.min(INPUTS);
    say_listed(
        out,
        b"distance ",
        usize::from(found.gates),
        &found.lines[..shown],
    )
}

// A distance, or that there is none.
fn say_gap(out: &mut [u8; OUT], gap: Option<Found>) -> usize
    ensures { Said out.old out.new result (gap_text gap) }
{
    match gap {
        Some(found) => say_gates(out, found),
        None => say(out, b"distance none\n"),
    }
}

// What a distance query answers.
pub(crate) fn say_found(
    out: &mut [u8; OUT],
    found: Result<Option<Found>, distance::Refusal>,
) -> usize
    ensures { Said out.old out.new result (found_text found) }
{
    match found {
        Ok(gap) => say_gap(out, gap),
        Err(why) => say_number(out, b"refused ", usize::from(distance::refusal_no(why))),
    }
}

// What a hint answers.
pub(crate) fn say_hint(out: &mut [u8; OUT], hinted: Result<Option<Found>, Refusal>) -> usize
    ensures { Said out.old out.new result (hinted_text hinted) }
{
    match hinted {
        Ok(gap) => say_gap(out, gap),
        Err(why) => say_refused(out, why),
    }
}
