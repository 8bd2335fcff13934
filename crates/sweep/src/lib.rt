// The sweep: gates that no output reaches are dropped, gates that are the same are merged, and the numbers closed up.
#![tactic(auto)]

ghost use Rattle.std.specs.Prelude.{◌≡◌, false, ℕ, ◌≤◌, ◌+◌, get_or};
ghost use Rattle.circuit.specs.Gate.{kind_of};
ghost use Rattle.circuit.specs.Lines.{gate, upto, padded};
ghost use Rattle.circuit.specs.Sizes.{most_inputs, most_outputs, most_gates, most_lines};
ghost use Rattle.circuit.specs.Structs.{line_in, out_of, listed};
ghost use Rattle.sweep.specs.Sweep.{back, swept_in};
ghost use Rattle.sweep.specs.Parts.{second_kept, marked, keyed, key_of, first_at, Misses, merging, sweep_in};

use circuit::gate::second_read;
use circuit::rules::is_shape;
use circuit::{Circuit, GATES, LINES, OUTPUTS, line_index, low16};

// The gates kept, and the new line of each line.
// Columns as a circuit has them, in fixed arrays beside their count: no heap.
#[derive(Clone, Copy)]
pub struct Merging {
    pub count: usize,
    pub kinds: [u8; GATES],
    pub left: [u16; GATES],
    pub right: [u16; GATES],
    pub new: [u16; LINES],
}

// The lines that outputs name.
fn named(c: Circuit) -> [bool; LINES]
    requires { c.m ≤ most_outputs }
    ensures { result ≡ marked (upto (out_of c) c.m) }
{
    let mut marks = [false; LINES];
    for &line in &c.outputs[..c.m] {
        marks[line_index(line)] = true;
    }
    marks
}

// The lines that outputs reach, from the last gate back. What a gate reads is marked at every gate: where its own line is not
// reached, the two stores change nothing.
fn used_lines(c: Circuit) -> [bool; LINES]
    requires { (c.n ≤ most_inputs) × (c.m ≤ most_outputs) × (c.g ≤ most_gates) }
    ensures { result ≡ marked (back c.n (listed c).gates (listed c).outs) }
{
    let mut marks = named(c);
    for k in (0..c.g).rev() {
        let on = marks[c.n + k];
        let first = c.left[k];
        let x = line_index(first);
        let y = line_index(second_read(c.kinds[k], first, c.right[k]));
        marks[x] |= on;
        marks[y] |= on;
    }
    marks
}

// A kind and two operands as one number.
fn digits(kind: u8, low: u16, high: u16) -> u64
    ensures { result ≡ keyed kind low high }
{
    (u64::from(kind) * 65536 + u64::from(low)) * 65536 + u64::from(high)
}

// The key of a gate, the lesser operand before the greater: gates are the same exactly where their keys are.
fn key_of(kind: u8, a: u16, b: u16) -> u64
    ensures { result ≡ key_of (gate kind a b) }
{
    let second = second_read(kind, a, b);
    digits(kind, a.min(second), a.max(second))
}

// Whether one of the four keys from i on is this one. All are looked at, with no choice between them, so that several are
// compared at once.
// As `near_four` of `formula`, over another length: their promises are of two definitions, `Misses` and `Passed`.
fn in_four(keys: &[u64; GATES], i: usize, key: u64) -> bool
    requires { i + 4 ≤ most_gates }
    ensures { result ≡ false → Misses key (λ (j : ℕ). get_or keys.now j 0) i 4 }
{
    let w = keys[i] == key;
    let x = keys[i + 1] == key;
    let y = keys[i + 2] == key;
    let z = keys[i + 3] == key;
    w | x | y | z
}

// The same of eight.
fn in_eight(keys: &[u64; GATES], i: usize, key: u64) -> bool
    requires { i + 8 ≤ most_gates }
    ensures { result ≡ false → Misses key (λ (j : ℕ). get_or keys.now j 0) i 8 }
{
    let first = in_four(keys, i, key);
    let second = in_four(keys, i + 4, key);
    first | second
}

// How many keys from the first on, by eights, are passed over since none of them is this one.
// The whole array and a count: four places of a fixed array are read with one bound.
fn pass_over(keys: &[u64; GATES], count: usize, key: u64) -> usize
    requires { count ≤ most_gates }
    ensures { (result ≤ count) × Misses key (λ (j : ℕ). get_or keys.now j 0) 0 result }
{
    let mut i: usize = 0;
    // A `while`: of `for k in 0..count / 8` the body would say 8 * k twice, and the end of the eights once more after the loop.
    while i + 8 <= count {
        if in_eight(keys, i, key) {
            return i;
        }
        i += 8;
    }
    i
}

// The first of `count` keys that is this one. Where none is, it is `count`: the place of a new gate.
fn find_key(keys: &[u64; GATES], count: usize, key: u64) -> usize
    requires { count ≤ most_gates }
    ensures { (result ≡ first_at key (upto (λ (i : ℕ). get_or keys.now i 0) count)) × (result ≤ count) }
{
    let passed = pass_over(keys, count, key);
    for i in passed..count {
        if key == keys[i] {
            return i;
        }
    }
    count
}

// The second operand of a renamed gate: 0 where the kind reads one line.
fn second_line(kind: u8, b: u16) -> u16
    ensures { result ≡ second_kept (kind_of kind) b }
{
    match kind {
        0..=5 => b,
        _ => 0,
    }
}

// The new lines of n inputs: their own.
fn first_lines(n: usize) -> [u16; LINES]
    requires { n ≤ most_inputs }
    ensures { result ≡ padded most_lines 0 (upto (λ (i : ℕ). i) n) }
{
    let mut new = [0u16; LINES];
    for i in 0..n {
        new[i] = low16(i);
    }
    new
}

// Gate by gate: dropped, merged or kept. A gate that is dropped stores nothing: its new line is 0, as the array has it.
// One that is merged stores its new line alone, and leaves the operands of the gate that it is merged into in their order.
fn merge(c: Circuit, live: [bool; LINES]) -> Merging
    requires { (1 ≤ c.n) × (c.n ≤ most_inputs) × (c.g ≤ most_gates) }
    ensures { result ≡ merging (sweep_in c live c.g) }
{
    let mut keys = [0u64; GATES];
    let mut kinds = [0u8; GATES];
    let mut left = [0u16; GATES];
    let mut right = [0u16; GATES];
    let mut new = first_lines(c.n);
    let mut count: usize = 0;
    for k in 0..c.g {
        let line = c.n + k;
        if live[line] {
            let kind = c.kinds[k];
            let a = new[line_index(c.left[k])];
            let b = second_line(kind, new[line_index(c.right[k])]);
            let key = key_of(kind, a, b);
            let at = find_key(&keys, count, key);
            if at == count {
                keys[at] = key;
                kinds[at] = kind;
                left[at] = a;
                right[at] = b;
                count += 1;
            }
            new[line] = low16(c.n + at);
        }
    }
    Merging {
        count,
        kinds,
        left,
        right,
        new,
    }
}

// The outputs with their new lines.
// As `numbers_of` of `hint`, over another length: one for both would have a contract longer than its loop.
fn point_outs(old: [u16; OUTPUTS], m: usize, new: [u16; LINES]) -> [u16; OUTPUTS]
    requires { m ≤ most_outputs }
    ensures { result ≡ padded most_outputs 0 (upto (λ (i : ℕ). get_or new (line_in (get_or old i 0)) 0) m) }
{
    let mut outs = [0u16; OUTPUTS];
    // By number: what is read and what is written have the same place.
    for i in 0..m {
        outs[i] = new[line_index(old[i])];
    }
    outs
}

// The circuit without the gates that no output reaches, and with those that are the same merged. A struct out of range stays as it is.
pub fn sweep(c: Circuit) -> Circuit
    ensures { result ≡ swept_in c }
{
    if !is_shape(c.n, c.m, c.g) {
        return c;
    }
    let Merging {
        count,
        kinds,
        left,
        right,
        new,
    } = merge(c, used_lines(c));
    let outputs = point_outs(c.outputs, c.m, new);
    Circuit {
        n: c.n,
        m: c.m,
        g: count,
        kinds,
        left,
        right,
        outputs,
    }
}
