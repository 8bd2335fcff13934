// The reader of stored bytes: it looks at everything first, then fills a circuit with nothing left to refuse.
ghost use Rattle.std.specs.Prelude.{◌≡◌, ◌++◌, ◌+◌, ◌*◌, ◌-◌, ◌≤◌, length, drop, replicate};
ghost use Rattle.circuit.specs.Sizes.{most_inputs, most_outputs, most_gates};
ghost use Rattle.circuit.specs.Structs.{held};
ghost use Rattle.stored.specs.Stored.{records, out_in, listing_in};
ghost use Rattle.stored.specs.Reading.{gate_here, out_here, answers, reading_answer, body_answer, Whole, reading_of};

use crate::{GT, OP, SH};
use circuit::rules::{check_gate, check_output, is_shape};
use circuit::{Circuit, GATES, OUTPUTS, Refusal};

// A gate's record of five bytes, on its line.
fn gate_record(only: bool, line: usize, part: &[u8]) -> Result<(), Refusal>
    requires { 5 ≤ length part.now }
    ensures { result ≡ gate_here only line part.now }
{
    if !part.starts_with(&GT) {
        return Err(Refusal::Mark);
    }
    check_gate(
        only,
        line,
        usize::from(part[2]),
        usize::from(part[3]),
        usize::from(part[4]),
    )
}

// An output's record of three bytes, in a circuit of so many lines.
fn out_record(lines: usize, part: &[u8]) -> Result<(), Refusal>
    requires { 3 ≤ length part.now }
    ensures { result ≡ out_here lines 0 part.now }
{
    if !part.starts_with(&OP) {
        return Err(Refusal::Mark);
    }
    check_output(lines, usize::from(part[2]))
}

// The gates' records, one after the other.
fn check_gates(bytes: &[u8], only: bool, n: usize, g: usize) -> Result<(), Refusal>
    requires { (n ≤ most_inputs) × (g ≤ most_gates) × (5 + 5 * g ≤ length bytes.now) }
    ensures { result ≡ answers (gate_here only) 5 n g (drop 5 bytes.now) }
{
    for j in 0..g {
        gate_record(only, n + j, &bytes[5 + 5 * j..])?;
    }
    Ok(())
}

// The outputs' records, one after the other. A loop for both kinds of record would need a closure, and a contract for it that
// says more than these two lines.
// The two bounds stand in three contracts: two are of bytes and one of a room, so that no one struct has them.
fn check_outputs(bytes: &[u8], lines: usize, from: usize, m: usize) -> Result<(), Refusal>
    requires { (m ≤ most_outputs) × (from + 3 * m ≤ length bytes.now) }
    ensures { result ≡ answers (out_here lines) 3 0 m (drop from bytes.now) }
{
    // By number and not by chunks: `answers` gives each record the bytes from its first on.
    for j in 0..m {
        out_record(lines, &bytes[from + 3 * j..])?;
    }
    Ok(())
}

// Whether the bytes are a circuit's stored form, or the first reason why not.
fn check(bytes: &[u8], only: bool) -> Result<(), Refusal>
    ensures { result ≡ reading_answer only bytes.now }
{
    if bytes.len() < 5 {
        return Err(Refusal::Length);
    }
    if !bytes.starts_with(&SH) {
        return Err(Refusal::Mark);
    }
    check_body(
        bytes,
        only,
        usize::from(bytes[2]),
        usize::from(bytes[3]),
        usize::from(bytes[4]),
    )
}

// What comes after the mark of the shape.
fn check_body(bytes: &[u8], only: bool, n: usize, m: usize, g: usize) -> Result<(), Refusal>
    ensures { result ≡ body_answer only bytes.now n m g }
{
    if !is_shape(n, m, g) {
        return Err(Refusal::Shape);
    }
    if bytes.len() != 5 + 5 * g + 3 * m {
        return Err(Refusal::Length);
    }
    check_gates(bytes, only, n, g)?;
    check_outputs(bytes, n + g, 5 + 5 * g, m)
}

// The lines that the outputs' records name.
fn out_lines(bytes: &[u8], from: usize, m: usize) -> [u16; OUTPUTS]
    requires { (m ≤ most_outputs) × (from + 3 * m ≤ length bytes.now) }
    ensures { result ≡ records out_in 3 m (drop from bytes.now) ++ replicate (most_outputs - m) 0 }
{
    let mut out = [0u16; OUTPUTS];
    for j in 0..m {
        out[j] = u16::from(bytes[from + 3 * j + 2]);
    }
    out
}

// The circuit in bytes that were found whole.
fn fill(bytes: &[u8]) -> Circuit
    requires { Whole bytes.now }
    ensures { result ≡ held (listing_in bytes.now) }
{
    let n = usize::from(bytes[2]);
    let m = usize::from(bytes[3]);
    let g = usize::from(bytes[4]);
    let mut kinds = [0u8; GATES];
    let mut left = [0u16; GATES];
    let mut right = [0u16; GATES];
    for j in 0..g {
        let at = 5 + 5 * j;
        kinds[j] = bytes[at + 2];
        left[j] = u16::from(bytes[at + 3]);
        right[j] = u16::from(bytes[at + 4]);
    }
    let outputs = out_lines(bytes, 5 + 5 * g, m);
    Circuit {
        n,
        m,
        g,
        kinds,
        left,
        right,
        outputs,
    }
}

// Reads a circuit from its stored form. `only`: no gate but a linear one is allowed.
pub fn read(bytes: &[u8], only: bool) -> Result<Circuit, Refusal>
    ensures { result ≡ reading_of only bytes.now }
{
    check(bytes, only)?;
    Ok(fill(bytes))
}
