// What is held for each line: its depth, its AND depth, its values.
ghost use Rattle.std.specs.Prelude.{◌+◌, ◌*◌, ◌<◌, ◌≤◌, length};
ghost use Rattle.circuit.specs.Sizes.{most_inputs, most_gates, most_lines};
ghost use Rattle.circuit.specs.Gate.{value_in};
ghost use Rattle.text.specs.Putting.{Put};
ghost use Rattle.listing.specs.Printed.{lines_to};
ghost use Rattle.talk.specs.Texts.{values_text};
ghost use Rattle.talk.specs.Saying.{Said, group_in, lines_held_in, held_in};

use crate::OUT;
use crate::lines::say_refused;
use crate::values::{byte_count, value_bytes};
use bench::Bench;
use circuit::{Refusal, Words};
use text::{put_labelled, put_numbered};

// A line's values in hex.
fn put_values(room: &mut [u8], at: usize, w: Words, n: usize) -> usize
    requires { (at + 64 ≤ length room.old) × (n ≤ most_inputs) }
    ensures put { Put room.old at (values_text (value_in w) n) room.new result }
    ensures upper_bound { result ≤ at + 64 }
{
    let bytes = value_bytes(w, n);
    let count = byte_count(n);
    text::put_hex(room, at, &bytes[..count])
}

// ` LINE:DEPTH:ANDDEPTH:VALUES`, of line i.
fn put_group(room: &mut [u8], at: usize, b: &Bench, i: usize) -> usize
    requires { (at + 80 ≤ length room.old) × (i < most_lines) × (b.now.n ≤ most_inputs) }
    ensures put { Put room.old at (group_in b.now i) room.new result }
    ensures upper_bound { result ≤ at + 80 }
{
    let named = put_numbered(room, at, b' ', i as u8);
    let deep = put_numbered(room, named, b':', b.depths[i]);
    let anded = put_numbered(room, deep, b':', b.and_depths[i]);
    let start = text::put(room, anded, b":");
    put_values(room, start, b.values[i], b.n)
}

// A group for each line.
fn put_groups(room: &mut [u8], at: usize, b: &Bench) -> usize
    requires { (at + 80 * (b.now.n + b.now.g) ≤ length room.old) × (b.now.n ≤ most_inputs) × (b.now.g ≤ most_gates) }
    ensures put { Put room.old at (lines_to (group_in b.now) (b.now.n + b.now.g)) room.new result }
    ensures upper_bound { result ≤ at + 80 * (b.now.n + b.now.g) }
{
    let mut next = at;
    for i in 0..b.n + b.g {
        next = put_group(room, next, b, i);
    }
    next
}

// `held COUNT LINE:DEPTH:ANDDEPTH:VALUES ..`.
fn say_lines(out: &mut [u8; OUT], b: &Bench) -> usize
    requires { (b.now.n ≤ most_inputs) × (b.now.g ≤ most_gates) }
    ensures { Said out.old out.new result (lines_held_in b.now) }
{
    let counted = put_labelled(out, 0, b"held ", b.n + b.g);
    let end = put_groups(out, counted, b);
    text::put(out, end, b"\n")
}

// What `held` answers.
pub(crate) fn say_held(out: &mut [u8; OUT], b: &Bench) -> usize
    ensures { Said out.old out.new result (held_in b.now) }
{
    if !b.is_standing() {
        return say_refused(out, Refusal::NothingOpen);
    }
    say_lines(out, b)
}
