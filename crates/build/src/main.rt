// Reads n, m, D and m row bytes from standard input, and writes the XOR program that is built, or the refusal.
#![tactic(auto)]

ghost use Rattle.std.specs.Prelude.{◌≡◌, true};
ghost use Rattle.io.specs.Counts.{IsPrefixLen};
ghost use Rattle.circuit.specs.Rules.{shaped};
ghost use Rattle.circuit.specs.Structs.{listed};
ghost use Rattle.text.specs.Putting.{Put};
ghost use Rattle.listing.specs.Printed.{listing_text};
ghost use Rattle.build.specs.Answered.{planned_text, answer_text, Fits};

use circuit::{Circuit, Refusal};
use intake::read_full;
use std::io::Write;

// Longer than any input that is answered otherwise than by its length: 3 bytes and 255 rows.
const INPUT: usize = 512;

// Longer than any answer.
const ROOM: usize = 8192;

// A circuit: its counts and depth, its gates, its outputs. (Two clauses in each contract here: see `put_found` of `equations`.)
fn put_circuit(out: &mut [u8; ROOM], c: Circuit) -> usize
    requires { shaped c.n c.m c.g ≡ true }
    ensures put { Put out.old 0 (listing_text (listed c)) out.new result }
    ensures prefix_len { IsPrefixLen result out.new }
{
    let depth = circuit::depth::depth_of(c);
    let counted = listing::put_counts(out, c.n, c.m, c.g, depth);
    let start = text::put(out, counted, b"\n");
    listing::put_lines(out, start, c)
}

// The circuit, or the refusal.
fn put_planned(out: &mut [u8; ROOM], plan: Result<Circuit, Refusal>) -> usize
    requires { Fits plan }
    ensures put { Put out.old 0 (planned_text plan) out.new result }
    ensures prefix_len { IsPrefixLen result out.new }
{
    match plan {
        Ok(circuit) => put_circuit(out, circuit),
        Err(why) => listing::put_refused(out, why),
    }
}

// The answer to an input.
fn answer(input: &[u8], out: &mut [u8; ROOM]) -> usize
    ensures put { Put out.old 0 (answer_text input.now) out.new result }
    ensures prefix_len { IsPrefixLen result out.new }
{
    if input.len() < 3 {
        return listing::put_refused(out, Refusal::Length);
    }
    if input.len() == 3 + usize::from(input[1]) {
        let n = usize::from(input[0]);
        let depth = usize::from(input[2]);
        put_planned(out, builder::plan(n, &input[3..], depth))
    } else {
        listing::put_refused(out, Refusal::Length)
    }
}

// As `main` of `equations`, with rooms of its own.
fn main(rt: HostRuntime) {
    let mut input = [0u8; INPUT];
    let count = read_full(&mut rt.stdin(), &mut input);
    let mut out = [0u8; ROOM];
    let size = answer(&input[..count], &mut out);
    let _ = rt.stdout().write_all(&out[..size]);
}
