// Names: x0 to x7, and the table of the names that were set. A name's key is its bytes as two numbers of 64 bits, so that
// a search compares words and no text.
ghost use Rattle.std.specs.Prelude.{◌≡◌, false, ◌&&◌, ◌+◌, ◌-◌, ◌≤◌, eqb};
ghost use Rattle.formula.specs.Sizes.{most_names};
ghost use Rattle.formula.specs.Names.{appended, part_of, middle, low_key, high_key, no_names, few_names, find_from, block, Passed, NoKey, in_block, input_of, look_up};

use crate::text::{byte_at, sees, span};
use crate::{NAMES, Names};

// How many places of the table a search looks at together.
const BLOCK: usize = 8;

// A number with one byte more at its end, in 64 bits.
#[tactic(auto, unfolding(crate::specs::Names::appended))]
fn append(v: u64, b: u8) -> u64
    ensures { result ≡ appended v b }
{
    (v % 0x0100_0000_0000_0000) * 256 + u64::from(b)
}

// The bytes from `from` to `to` as one number; where there are more than eight, the last eight.
fn part(s: &[u8], from: usize, to: usize) -> u64
    ensures { result ≡ part_of s.now (to - from) from 0 }
{
    let mut v: u64 = 0;
    // By number: a place past the end counts too, as a byte 0.
    for i in from..to {
        v = append(v, byte_at(s, i));
    }
    v
}

// Where the second half of the name from p to e begins: after eight bytes, or at its end.
fn half(p: usize, e: usize) -> usize
    ensures { result ≡ middle p e }
{
    if 8 < span(p, e) { p + 8 } else { e }
}

// The first half of a name's key.
// A name goes by its text and its two ends: the clauses of the definitions name all three.
pub fn low_key(s: &[u8], p: usize, e: usize) -> u64
    ensures { result ≡ low_key s.now p e }
{
    part(s, p, half(p, e))
}

// The second half of a name's key.
pub fn high_key(s: &[u8], p: usize, e: usize) -> u64
    ensures { result ≡ high_key s.now p e }
{
    part(s, half(p, e), e)
}

// Whether x, y is the key a, b.
fn is_key(x: u64, y: u64, a: u64, b: u64) -> bool
    ensures { result ≡ eqb x a && eqb y b }
{
    x == a && y == b
}

// Whether one of the four places from i on has the half a. All four are looked at, with no choice between them.
// As `in_four` of `sweep`, over another length: their promises are of two definitions, `Passed` and `Misses`.
fn near_four(halves: &[u64; NAMES], i: usize, a: u64) -> bool
    requires { i + 4 ≤ most_names }
    ensures { result ≡ false → Passed halves.now a i (i + 4) }
{
    let w = halves[i] == a;
    let x = halves[i + 1] == a;
    let y = halves[i + 2] == a;
    let z = halves[i + 3] == a;
    w | x | y | z
}

// Whether one of the block of places from i on has the half a.
// The bound of a block stands in three contracts: a type for it would be longer.
fn near(halves: &[u64; NAMES], i: usize, a: u64) -> bool
    requires { i + block ≤ most_names }
    ensures { result ≡ false → Passed halves.now a i (i + block) }
{
    let first = near_four(halves, i, a);
    let second = near_four(halves, i + 4, a);
    first | second
}

// Where the block of places from i on ends, of `count` places.
fn block_end(i: usize, count: usize) -> usize
    ensures { result - i ≡ in_block (count - i) }
{
    if span(i, count) < BLOCK {
        count
    } else {
        i + BLOCK
    }
}

// The input that the name from p to e is.
fn input_of(s: &[u8], p: usize, e: usize) -> Option<u8>
    ensures { result ≡ input_of s.now p e }
{
    if span(p, e) != 2 || !sees(s, p, b'x') {
        return None;
    }
    match byte_at(s, p + 1) {
        d @ b'0'..=b'7' => Some(d - b'0'),
        _ => None,
    }
}

impl Names {
    // A table with no names.
    #[tactic(auto, unfolding(crate::specs::Names::no_names))]
    pub fn none() -> Names
        ensures { result ≡ no_names }
    {
        Names {
            low: [0; NAMES],
            high: [0; NAMES],
            lines: [0; NAMES],
            n: 0,
        }
    }

    // How many names the table has, of n that are said to be there.
    #[tactic(auto, unfolding(crate::specs::Names::few_names))]
    pub fn len(&self) -> usize
        ensures is { result ≡ few_names self.now.n }
        ensures most { result ≤ most_names }
    {
        self.n.min(NAMES)
    }

    // The line of the name with this key among the places from `from` to `to`.
    fn find_among(&self, from: usize, to: usize, a: u64, b: u64) -> Option<u8>
        requires { to ≤ most_names }
        ensures { result ≡ find_from self.now.low self.now.high self.now.lines a b (to - from) from }
    {
        for i in from..to {
            if is_key(self.low[i], self.high[i], a, b) {
                return Some(self.lines[i]);
            }
        }
        None
    }

    // Whether the block of places from i on may have the key a, b. A short name is all in the first half of its key; longer
    // names that are alike mostly differ in the second.
    fn near_key(&self, i: usize, a: u64, b: u64) -> bool
        requires { i + block ≤ most_names }
        ensures { result ≡ false → NoKey self.now.low self.now.high a b block i }
    {
        if b == 0 {
            near(&self.low, i, a)
        } else {
            near(&self.high, i, b)
        }
    }

    // The line of the name with this key in the block of places from i on, of `count` places.
    fn find_block(&self, i: usize, count: usize, a: u64, b: u64) -> Option<u8>
        requires within { i + block ≤ most_names }
        requires most { count ≤ most_names }
        ensures { result ≡ find_from self.now.low self.now.high self.now.lines a b (in_block (count - i)) i }
    {
        if self.near_key(i, a, b) {
            self.find_among(i, block_end(i, count), a, b)
        } else {
            None
        }
    }

    // The line of the name with this key.
    fn find(&self, a: u64, b: u64) -> Option<u8>
        ensures { result ≡ find_from self.now.low self.now.high self.now.lines a b (few_names self.now.n) 0 }
    {
        let count = self.len();
        for k in 0..count.div_ceil(BLOCK) {
            if let Some(v) = self.find_block(k * BLOCK, count, a, b) {
                return Some(v);
            }
        }
        None
    }

    // The line of the name from p to e: an input, or a name of the table.
    pub fn look_up(&self, s: &[u8], p: usize, e: usize) -> Option<u8>
        ensures { result ≡ look_up s.now self.now.low self.now.high self.now.lines self.now.n p e }
    {
        match input_of(s, p, e) {
            Some(v) => Some(v),
            None => self.find(low_key(s, p, e), high_key(s, p, e)),
        }
    }
}
