// The hint: how far a row of the open matrix is from the lines of the open circuit, and which of them make it, but for a constant.
#![tactic(auto)]

ghost use Rattle.std.specs.Prelude.{◌≡◌, ◌≤◌};
ghost use Rattle.circuit.specs.Sizes.{most_inputs, most_gates, most_lines};
ghost use Rattle.circuit.specs.Lines.{padded};
ghost use Rattle.circuit.specs.Rows.{input_masks};
ghost use Rattle.hint.specs.Hint.{hint_refusal, HintPromise, HintCode};
ghost use Rattle.hint.specs.Parts.{read_sum, masks_on, gathered, numbered, hint_on, is_row};

use bench::Bench;
use circuit::{LINES, Refusal, line_index, low16, refusal_no};
use distance::{Found, FoundNumbers, Lines, bare_number, distance};

// The lines that a hint counts from: what each sums, its depth and its number in the circuit. Zeros past the last. No heap: the
// count stands beside fixed arrays.
#[derive(Clone, Copy)]
struct Base {
    masks: [u8; LINES],
    depths: [u8; LINES],
    lines: [u16; LINES],
    count: usize,
}

// The masks of n inputs, on their lines.
fn input_masks(n: usize) -> [u8; LINES]
    requires { n ≤ most_inputs }
    ensures { result ≡ padded most_lines 0 (input_masks n) }
{
    let mut masks = [0u8; LINES];
    for i in 0..n {
        masks[i] = 1u8 << i;
    }
    masks
}

// The sum of what a gate reads, where its operands have the masks a and b: NOT reads one.
fn read_sum(kind: u8, a: u8, b: u8) -> u8
    ensures { result ≡ read_sum kind a b }
{
    match kind {
        0..=5 => a ^ b,
        _ => a,
    }
}

// The mask of each line of what stands on the bench.
fn masks_of(b: &Bench) -> [u8; LINES]
    requires { (b.now.n ≤ most_inputs) × (b.now.g ≤ most_gates) }
    ensures { result ≡ masks_on b.now }
{
    let mut masks = input_masks(b.n);
    for k in 0..b.g {
        let first = line_index(b.left[k]);
        let second = line_index(b.right[k]);
        masks[b.n + k] = read_sum(b.kinds[k], masks[first], masks[second]);
    }
    masks
}

// The lines that are at most 15 deep, of the first `count`: no deeper one is in the base of a query.
fn gather(masks: &[u8; LINES], depths: &[u8; LINES], count: usize) -> Base
    requires { count ≤ most_lines }
    ensures { result ≡ gathered masks.now depths.now count }
{
    let mut base_masks = [0u8; LINES];
    let mut base_depths = [0u8; LINES];
    let mut lines = [0u16; LINES];
    let mut taken: usize = 0;
    for i in 0..count {
        if depths[i] <= 15 {
            base_masks[taken] = masks[i];
            base_depths[taken] = depths[i];
            lines[taken] = low16(i);
            taken += 1;
        }
    }
    Base {
        masks: base_masks,
        depths: base_depths,
        lines,
        count: taken,
    }
}

// The lines of an answer by their numbers in the circuit: a query gives their places in its base.
fn numbers_of(lines: &[u16; LINES], places: &Lines, count: usize) -> Lines
    requires { count ≤ 8 }
    ensures { result ≡ numbered lines.now places.now count }
{
    let mut numbers = [0u16; 8];
    // By number: what is read and what is written have the same place.
    for k in 0..count {
        numbers[k] = lines[line_index(places[k])];
    }
    numbers
}

// A query's refusal as the bench's with the same number. Neither type is of this crate, so that it is no `From`.
fn refusal_of(why: distance::Refusal) -> Refusal
    ensures { result ≡ hint_refusal why }
{
    match why {
        distance::Refusal::Inputs => Refusal::Shape,
        distance::Refusal::Lists => Refusal::Length,
        distance::Refusal::Mask => Refusal::Target,
        distance::Refusal::Depth => Refusal::TooDeep,
    }
}

// The query from the lines on the bench that are at most 15 deep to the mask t.
fn ask(b: &Bench, t: usize, d: usize) -> Result<Option<Found>, Refusal>
    requires { (b.now.n ≤ most_inputs) × (b.now.g ≤ most_gates) }
    ensures { result ≡ hint_on b.now t d }
{
    let masks = masks_of(b);
    let base = gather(&masks, &b.depths, b.n + b.g);
    let count = base.count;
    match distance(b.n, &base.masks[..count], &base.depths[..count], t, d) {
        Ok(Some(found)) => {
            let lines = numbers_of(&base.lines, &found.lines, found.count);
            Ok(Some(Found { lines, ..found }))
        }
        Ok(None) => Ok(None),
        Err(why) => Err(refusal_of(why)),
    }
}

// Whether row j is one of a matrix of m rows.
fn is_row(only: bool, j: usize, m: usize) -> bool
    ensures { result ≡ is_row only j m }
{
    only && j < m
}

// How far row j of the open matrix is from the lines of the open circuit, within depth d, and from which of them, by their numbers in
// the circuit, ascending: by its mask alone. None where there is no distance.
pub fn hint(bench: Bench, j: usize, d: usize) -> Result<Option<Found>, Refusal>
    ensures { HintPromise bench j d result }
{
    if !bench.is_standing() {
        return Err(Refusal::NothingOpen);
    }
    if !is_row(bench.is_matrix, j, bench.m) {
        return Err(Refusal::NotThere);
    }
    ask(&bench, usize::from(bench.target[j]), d)
}

// The same in numbers, as C takes it.
pub fn hint_no(bench: Bench, j: usize, d: usize) -> FoundNumbers
    ensures { HintCode bench j d result }
{
    match hint(bench, j, d) {
        Ok(Some(found)) => {
            let lines = found.lines;
            FoundNumbers {
                code: u64::from(found.gates),
                count: found.count,
                lines,
            }
        }
        Ok(None) => bare_number(99),
        // (`as u64`: there is no `u64::from` of a usize.)
        Err(why) => bare_number(100 + refusal_no(why) as u64),
    }
}
