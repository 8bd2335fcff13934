// A circuit as text in a lent room, as the build program and the bench's `show` write it.
#![tactic(auto)]

ghost use Rattle.std.specs.Prelude.{ℕ, ◌+◌, ◌*◌, ◌<◌, ◌≤◌, length};
ghost use Rattle.circuit.specs.Sizes.{most_outputs, most_gates, most_lines};
ghost use Rattle.circuit.specs.Gate.{kind_of};
ghost use Rattle.circuit.specs.Lines.{gate};
ghost use Rattle.circuit.specs.Structs.{gate_of, out_of};
ghost use Rattle.text.specs.Putting.{Put, PutFree};
ghost use Rattle.listing.specs.Printed.{line_name, joined, turned, negated, formula, gate_line, output_line, lines_to, counts_text, refused_text, placed_text, counts_size, lines_size, refused_size, placed_size, lines_in};

use circuit::rules::is_shape;
use circuit::{Circuit, Refusal, line_index, refusal_no};
use text::{is_free, put_labelled, put_numbered};

// The lines that a gate reads, in a circuit with n inputs.
#[derive(Clone, Copy)]
struct Operands {
    n: usize,
    left: usize,
    right: usize,
    ghost left_is_line: { left < most_lines },
    ghost right_is_line: { right < most_lines },
}

// The name of a line of a circuit with n inputs.
// (Here and below `room` and `at` go side by side. Tried: a struct that holds both with methods that put. The method is proved, but its caller
// knows nothing of the room that it lent: what a `&mut` field leaves behind is not tied to what the last method left in it.)
// The bound of one line stands in three contracts: a struct for it would have that one field.
fn put_name(room: &mut [u8], at: usize, n: usize, line: usize) -> usize
    requires { (at + 4 ≤ length room.old) × (line < most_lines) }
    ensures put { Put room.old at (line_name n line) room.new result }
    ensures upper_bound { result ≤ at + 4 }
{
    if line < n {
        put_numbered(room, at, b'x', line as u8)
    } else {
        put_numbered(room, at, b't', (line - n) as u8)
    }
}

// Two operands with a sign between them.
fn put_joined(room: &mut [u8], at: usize, q: Operands, sign: u8) -> usize
    requires { at + 11 ≤ length room.old }
    ensures put { Put room.old at (joined (line_name q.n q.left) sign (line_name q.n q.right)) room.new result }
    ensures upper_bound { result ≤ at + 11 }
{
    let first = put_name(room, at, q.n, q.left);
    let second = text::put(room, first, &[b' ', sign, b' ']);
    put_name(room, second, q.n, q.right)
}

// The same turned over.
fn put_turned(room: &mut [u8], at: usize, q: Operands, sign: u8) -> usize
    requires { at + 14 ≤ length room.old }
    ensures put { Put room.old at (turned (line_name q.n q.left) sign (line_name q.n q.right)) room.new result }
    ensures upper_bound { result ≤ at + 14 }
{
    let inner = text::put(room, at, b"~(");
    let end = put_joined(room, inner, q, sign);
    text::put(room, end, b")")
}

// NOT of one operand.
fn put_not(room: &mut [u8], at: usize, n: usize, line: usize) -> usize
    requires { (at + 5 ≤ length room.old) × (line < most_lines) }
    ensures put { Put room.old at (negated (line_name n line)) room.new result }
    ensures upper_bound { result ≤ at + 5 }
{
    let next = text::put(room, at, b"~");
    put_name(room, next, n, line)
}

// The formula of a gate by its kind.
fn put_formula(room: &mut [u8], at: usize, kind: u8, q: Operands) -> usize
    requires { at + 14 ≤ length room.old }
    ensures put { Put room.old at (formula (kind_of kind) (line_name q.n q.left) (line_name q.n q.right)) room.new result }
    ensures upper_bound { result ≤ at + 14 }
{
    match kind {
        0 => put_joined(room, at, q, b'^'), // XOR
        1 => put_turned(room, at, q, b'^'), // XNOR
        2 => put_joined(room, at, q, b'&'), // AND
        3 => put_turned(room, at, q, b'&'), // NAND
        4 => put_joined(room, at, q, b'|'), // OR
        5 => put_turned(room, at, q, b'|'), // NOR
        6..=255 => put_not(room, at, q.n, q.left), // NOT
    }
}

// The line of gate k.
// One function for this and `put_output` would take what stands between ` = ` and the line's end as a closure over the room.
fn put_gate(room: &mut [u8], at: usize, k: usize, kind: u8, q: Operands) -> usize
    requires { (at + 22 ≤ length room.old) × (k < most_gates) }
    ensures put { Put room.old at (gate_line q.n k (gate kind q.left q.right)) room.new result }
    ensures upper_bound { result ≤ at + 22 }
{
    let named = put_numbered(room, at, b't', k as u8);
    let start = text::put(room, named, b" = ");
    let end = put_formula(room, start, kind, q);
    text::put(room, end, b"\n")
}

// The line of output j.
fn put_output(room: &mut [u8], at: usize, n: usize, j: usize, line: usize) -> usize
    requires { (at + 12 ≤ length room.old) × (j < most_outputs) × (line < most_lines) }
    ensures put { Put room.old at (output_line n j line) room.new result }
    ensures upper_bound { result ≤ at + 12 }
{
    let named = put_numbered(room, at, b'y', j as u8);
    let start = text::put(room, named, b" = ");
    let end = put_name(room, start, n, line);
    text::put(room, end, b"\n")
}

// The lines of the gates.
fn put_gates(room: &mut [u8], at: usize, c: &Circuit) -> usize
    requires { (at + 22 * c.now.g ≤ length room.old) × (c.now.g ≤ most_gates) }
    ensures put { Put room.old at (lines_to (λ (k : ℕ). gate_line c.now.n k (gate_of c.now k)) c.now.g) room.new result }
    ensures upper_bound { result ≤ at + 22 * c.now.g }
{
    let mut next = at;
    for k in 0..c.g {
        let q = Operands {
            n: c.n,
            left: line_index(c.left[k]),
            right: line_index(c.right[k]),
        };
        next = put_gate(room, next, k, c.kinds[k], q);
    }
    next
}

// The lines of the outputs.
fn put_outputs(room: &mut [u8], at: usize, c: &Circuit) -> usize
    requires { (at + 12 * c.now.m ≤ length room.old) × (c.now.m ≤ most_outputs) }
    ensures put { Put room.old at (lines_to (λ (j : ℕ). output_line c.now.n j (out_of c.now j)) c.now.m) room.new result }
    ensures upper_bound { result ≤ at + 12 * c.now.m }
{
    let mut next = at;
    for j in 0..c.m {
        next = put_output(room, next, c.n, j, line_index(c.outputs[j]));
    }
    next
}

// The counts that begin a listing, with no end of line, since `show` has more to say there.
fn put_four(room: &mut [u8], n: usize, m: usize, g: usize, depth: u8) -> usize
    requires { counts_size ≤ length room.old }
    ensures put { Put room.old 0 (counts_text n m g depth) room.new result }
    ensures upper_bound { result ≤ counts_size }
{
    let inputs = put_labelled(room, 0, b"inputs ", n);
    let outputs = put_labelled(room, inputs, b" outputs ", m);
    let gates = put_labelled(room, outputs, b" gates ", g);
    put_labelled(room, gates, b" depth ", usize::from(depth))
}

// The counts at the start of the room, or nothing where it is shorter than 128 bytes.
pub fn put_counts(room: &mut [u8], n: usize, m: usize, g: usize, depth: u8) -> usize
    ensures { PutFree room.old 0 counts_size (counts_text n m g depth) room.new result }
{
    if !is_free(room.len(), 0, 128) {
        return 0;
    }
    put_four(room, n, m, g, depth)
}

// The lines of the gates, then of the outputs, from `at` on, or nothing where fewer than 6,000 bytes are free.
pub fn put_lines(room: &mut [u8], at: usize, c: Circuit) -> usize
    ensures { PutFree room.old at lines_size (lines_in c) room.new result }
{
    if !is_free(room.len(), at, 6000) {
        return at;
    }
    if !is_shape(c.n, c.m, c.g) {
        return at;
    }
    let next = put_gates(room, at, &c);
    put_outputs(room, next, &c)
}

// `refused` and the number at the start of the room, or nothing where it is shorter than 32 bytes.
pub fn put_refused(room: &mut [u8], why: Refusal) -> usize
    ensures { PutFree room.old 0 refused_size (refused_text why) room.new result }
{
    if !is_free(room.len(), 0, 32) {
        return 0;
    }
    let next = put_labelled(room, 0, b"refused ", refusal_no(why));
    text::put(room, next, b"\n")
}

// `refused`, the number of a refusal and its place at the start of the room, or nothing where it is shorter than 64 bytes. The line is
// not ended, since the program that reads a file has more to say there.
pub fn put_placed(room: &mut [u8], number: usize, place: usize) -> usize
    ensures { PutFree room.old 0 placed_size (placed_text number place) room.new result }
{
    if !is_free(room.len(), 0, 64) {
        return 0;
    }
    let next = put_labelled(room, 0, b"refused ", number);
    put_labelled(room, next, b" ", place)
}
