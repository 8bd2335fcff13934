// Outputs: names that are y and a decimal number. Each name's number is found once; a search compares numbers.
// A number stands as one more than it is, and 0 for none: `output_no`, of which `output_in` and `sets_output` speak, says it so.
ghost use Rattle.std.specs.Prelude.{◌≡◌, ◌+◌, ◌-◌, ◌≤◌, eqb};
ghost use Rattle.drawing.specs.Outputs.{digits_from, zero_first, output_no, numbers_of, out_line, top_of, all_from, whole_of};

use formula::text::{byte_at, scan, sees, span};
use formula::{Class, LONGEST, NAMES, Names};
use sheet::Book;

// One more than the number that the digits from `from` to e write; 0 where there is anything else.
fn digits(s: &[u8], from: usize, e: usize) -> usize
    requires { e - from ≤ 15 }
    ensures { result ≡ digits_from s.now (e - from) from 0 }
{
    let mut v: usize = 0;
    // By number: a place past the end counts too, as a byte 0.
    for i in from..e {
        let b = byte_at(s, i);
        if !b.is_ascii_digit() {
            return 0;
        }
        v = v * 10 + usize::from(b - b'0');
    }
    v + 1
}

// Whether a zero stands first among the digits from p to e, and not alone.
#[tactic(auto, unfolding(crate::specs::Outputs::zero_first))]
fn zero_first(s: &[u8], p: usize, e: usize) -> bool
    ensures { result ≡ zero_first s.now p e }
{
    1 < span(p, e) && sees(s, p, b'0')
}

// One more than the number of the output that the name at p is; 0 for any other name.
pub fn output_no(s: &[u8], p: usize) -> usize
    ensures { result ≡ output_no s.now p }
{
    if !sees(s, p, b'y') {
        return 0;
    }
    let e = scan(s, p, Class::Letter);
    if e - p <= 1 || LONGEST < e - p || zero_first(s, p + 1, e) {
        return 0;
    }
    digits(s, p + 1, e)
}

// The numbers of a book's names; 0 past them.
pub fn numbers(s: &[u8], book: &Book) -> [usize; NAMES]
    ensures { result ≡ numbers_of s.now book.now.starts book.now.names.n }
{
    let mut r = [0usize; NAMES];
    // By number: what is read and what is written have the same place.
    for i in 0..book.names.len() {
        r[i] = output_no(s, book.starts[i]);
    }
    r
}

// Whether x is one more than j.
// Not `x == j + 1`: nothing bounds j here.
fn is_after(x: usize, j: usize) -> bool
    ensures { result ≡ eqb x (j + 1) }
{
    0 < x && x - 1 == j
}

// The line of output j.
// Each name's number in an array beside the book: the book's type is of `sheet`, and this is found once.
pub fn out_line(numbers: &[usize; NAMES], names: &Names, j: usize) -> Option<u8>
    ensures { result ≡ out_line numbers.now names.now.lines names.now.n j }
{
    // By number: the number and the line of a name have the same place in two arrays.
    for i in 0..names.len() {
        if is_after(numbers[i], j) {
            return Some(names.lines[i]);
        }
    }
    None
}

// One more than the highest output; 0 where there is none.
pub fn top(numbers: &[usize; NAMES], names: &Names) -> usize
    ensures { result ≡ top_of numbers.now names.now.n }
{
    let mut t: usize = 0;
    for &x in &numbers[..names.len()] {
        t = t.max(x);
    }
    t
}

// Whether each output below t is set.
fn all_set(numbers: &[usize; NAMES], names: &Names, t: usize) -> bool
    ensures { result ≡ all_from numbers.now names.now.lines names.now.n t 0 }
{
    // `(0..t).all(..)` was tried: `search` finds no way from its run to `all_from`.
    for j in 0..t {
        if out_line(numbers, names, j).is_none() {
            return false;
        }
    }
    true
}

// Whether an input is read, an output is set, and each output below one that is set.
pub fn is_whole(numbers: &[usize; NAMES], book: &Book) -> bool
    ensures { result ≡ whole_of numbers.now book.now.names.lines book.now.names.n book.now.gates.high }
{
    if book.gates.high == 0 {
        return false;
    }
    let t = top(numbers, &book.names);
    t != 0 && all_set(numbers, &book.names, t)
}
