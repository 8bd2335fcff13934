// Reads an equation file from standard input, and writes the stored circuit in hexadecimal digits, or the refusal.
#![tactic(auto)]

ghost use Rattle.std.specs.Prelude.{◌≡◌, Err, [], ◌++◌, ◌≤◌, min, length, take};
ghost use Rattle.io.specs.Counts.{IsPrefixLen};
ghost use Rattle.text.specs.Numbers.{hex_text, labelled};
ghost use Rattle.text.specs.Putting.{Put};
ghost use Rattle.listing.specs.Printed.{new_line, refused_name};
ghost use Rattle.equations.specs.Answered.{line_of, column_of, found_text, stored_most, drawn_line, line_in, answer_text};

use drawing::{BAD_NAME, BAD_TEXT, NO_OUTPUTS, Refusal};
use intake::read_full;
use std::io::Write;
use text::put_labelled;

// A file of more bytes than this is unreadable.
const LONGEST: usize = 65535;

// That many bytes, and one more: a room that is full holds too long a file.
const INPUT: usize = 65536;

// More than any stored form has: 5 + 5 * GATES + 3 * OUTPUTS bytes. As `STORED` of `talk`, on which this program does not rest.
const STORED: usize = 2048;

// Longer than any answer: two digits for each byte of a stored form, and the end of the line.
const ROOM: usize = 8192;

// Where a person finds a place: in which line and which column, both from 1.
#[derive(Clone, Copy)]
struct Spot {
    line: usize,
    column: usize,
}

// The line and the column of a place in a file; past the file's end, those of its end.
fn find_place(file: &[u8], place: usize) -> Spot
    ensures { (result.line ≡ line_of file.now place) × (result.column ≡ column_of file.now place) }
{
    let end = place.min(file.len());
    let mut ended: usize = 0; // lines before this one
    let mut passed: usize = 0; // bytes of this line before the place
    for &byte in &file[..end] {
        if byte == text::LF {
            ended += 1;
            passed = 0;
        } else {
            passed += 1;
        }
    }
    Spot {
        line: ended + 1,
        column: passed + 1,
    }
}

// What every answer here promises, `put` in the words of `text` and `prefix_len` in the library's, stands in two clauses: one
// record of both would have to be taken apart at each call.
// `refused N PLACE line L column C`.
fn put_found(out: &mut [u8; ROOM], number: usize, place: usize, spot: Spot) -> usize
    ensures put { Put out.old 0 (found_text number place spot.line spot.column) out.new result }
    ensures prefix_len { IsPrefixLen result out.new }
{
    let placed = listing::put_placed(out, number, place);
    let line = put_labelled(out, placed, b" line ", spot.line);
    let column = put_labelled(out, line, b" column ", spot.column);
    text::put(out, column, b"\n")
}

// `refused N`.
// As `say_number` and `say_bytes` of `talk`, over another room: this program does not rest on `talk`.
fn put_number(out: &mut [u8; ROOM], number: usize) -> usize
    ensures put { Put out.old 0 (labelled refused_name number ++ new_line) out.new result }
    ensures prefix_len { IsPrefixLen result out.new }
{
    let next = put_labelled(out, 0, b"refused ", number);
    text::put(out, next, b"\n")
}

// The bytes that stand first in a room, in digits. No stored form has more than 1,341 bytes.
fn put_bytes(out: &mut [u8; ROOM], count: usize, room: &[u8]) -> usize
    requires { stored_most ≤ length room.now }
    ensures put { Put out.old 0 (hex_text (take (min count stored_most) room.now) ++ new_line) out.new result }
    ensures prefix_len { IsPrefixLen result out.new }
{
    let shown = count.min(STORED);
    let end = text::put_hex(out, 0, &room[..shown]);
    text::put(out, end, b"\n")
}

// Why nothing was read of a file.
fn put_refusal(out: &mut [u8; ROOM], file: &[u8], why: Refusal) -> usize
    ensures put { Put out.old 0 (drawn_line file.now (Err why) []) out.new result }
    ensures prefix_len { IsPrefixLen result out.new }
{
    match why {
        Refusal::BadText(place) => put_found(out, BAD_TEXT, place, find_place(file, place)),
        Refusal::BadName(place) => put_found(out, BAD_NAME, place, find_place(file, place)),
        Refusal::NoOutputs => put_number(out, NO_OUTPUTS),
        Refusal::NotStored(why) => listing::put_refused(out, why),
    }
}

// What was read of a file and stands first in a room, or the refusal.
fn put_drawn(out: &mut [u8; ROOM], file: &[u8], drawn: Result<usize, Refusal>, room: &[u8]) -> usize
    requires { stored_most ≤ length room.now }
    ensures put { Put out.old 0 (line_in file.now drawn room.now) out.new result }
    ensures prefix_len { IsPrefixLen result out.new }
{
    match drawn {
        Ok(count) => put_bytes(out, count, room),
        Err(why) => put_refusal(out, file, why),
    }
}

// The answer to a file.
fn answer(file: &[u8], out: &mut [u8; ROOM]) -> usize
    ensures put { Put out.old 0 (answer_text file.now) out.new result }
    ensures prefix_len { IsPrefixLen result out.new }
{
    if LONGEST < file.len() {
        return text::put(out, 0, b"unreadable\n");
    }
    let mut room = [0u8; STORED];
    let drawn = drawing::equations(file, &mut room);
    put_drawn(out, file, drawn, &room)
}

fn main(rt: HostRuntime) {
    let mut input = [0u8; INPUT];
    let count = read_full(&mut rt.stdin(), &mut input);
    let mut out = [0u8; ROOM];
    let size = answer(&input[..count], &mut out);
    let _ = rt.stdout().write_all(&out[..size]);
}
