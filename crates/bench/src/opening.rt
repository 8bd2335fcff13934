// An empty bench, and opening: the bytes are read and the target is looked at before anything is put on the bench.
ghost use Rattle.std.specs.Prelude.{◌≡◌, true, false, ◌≤◌, length};
ghost use Rattle.circuit.specs.Sizes.{most_inputs, most_outputs, most_gates, most_values};
ghost use Rattle.circuit.specs.Lines.{padded};
ghost use Rattle.targets.specs.Target.{brought};
ghost use Rattle.bench.specs.Held.{empty_bench};
ghost use Rattle.bench.specs.Calls.{OpenPromise};
ghost use Rattle.bench.specs.State.{limits};
ghost use Rattle.bench.specs.Parts.{placed_of, accepted_of};

use crate::examine::examine;
use crate::{Bench, Opened};
use circuit::{Circuit, GATES, LINES, NO_WORDS, OUTPUTS, Refusal, VALUES};
use stored::reader::read;
use targets::rules::target_fits;
use targets::wanted::wanted_words;

// The most gates, the most depth and the most AND depth that a call allows.
#[derive(Clone, Copy)]
struct Limits {
    gates: u8,
    depth: u8,
    ands: u8,
}

// A bench with nothing open.
pub fn empty() -> Bench
    ensures { result ≡ empty_bench }
{
    Bench {
        is_open: false,
        is_matrix: false,
        n: 0,
        m: 0,
        g: 0,
        max_gates: 0,
        max_depth: 0,
        max_and_depth: 0,
        kinds: [0; GATES],
        left: [0; GATES],
        right: [0; GATES],
        outputs: [0; OUTPUTS],
        target: [0; VALUES],
        wanted: [NO_WORDS; OUTPUTS],
        depths: [0; LINES],
        and_depths: [0; LINES],
        values: [NO_WORDS; LINES],
    }
}

// The target's bytes, and zeros past the last.
// As `first_depths` of `builder`, over another length: one for both would stand in a third crate for three lines.
fn target_bytes(bytes: &[u8]) -> [u8; VALUES]
    requires { length bytes.now ≤ most_values }
    ensures { result ≡ padded most_values 0 bytes.now }
{
    let mut target = [0u8; VALUES];
    target[..bytes.len()].copy_from_slice(bytes);
    target
}

// A circuit with its target and limits, every line examined.
fn placed(c: Circuit, only: bool, bytes: &[u8], most: Limits) -> Bench
    requires { (c.n ≤ most_inputs) × (c.m ≤ most_outputs) × (c.g ≤ most_gates) × (length bytes.now ≤ most_values) }
    ensures { result ≡ placed_of c only bytes.now (limits most.gates most.depth most.ands) }
{
    let kinds = c.kinds;
    let left = c.left;
    let right = c.right;
    let outputs = c.outputs;
    let target = target_bytes(bytes);
    let wanted = wanted_words(only, &target, c.m);
    examine(Bench {
        is_open: true,
        is_matrix: only,
        n: c.n,
        m: c.m,
        g: c.g,
        max_gates: u16::from(most.gates),
        max_depth: u16::from(most.depth),
        max_and_depth: u16::from(most.ands),
        kinds,
        left,
        right,
        outputs,
        target,
        wanted,
        depths: [0; LINES],
        and_depths: [0; LINES],
        values: [NO_WORDS; LINES],
    })
}

// The circuit that some bytes hold, where it and the target keep every rule.
fn accepted(bytes: &[u8], only: bool, target: &[u8]) -> Result<Circuit, Refusal>
    ensures { result ≡ accepted_of bytes.now (brought only target.now) }
{
    let c = read(bytes, only)?;
    if !target_fits(only, c.n, c.m, target) {
        return Err(Refusal::Target);
    }
    Ok(c)
}

// An open with a target of either kind. One that is refused keeps the earlier bench.
fn open_with(bench: Bench, bytes: &[u8], only: bool, target: &[u8], most: Limits) -> Opened
    ensures { OpenPromise bench bytes.now (brought only target.now) (limits most.gates most.depth most.ands) result.answer result.bench }
{
    match accepted(bytes, only, target) {
        Err(why) => Opened {
            bench,
            answer: Err(why),
        },
        Ok(c) => {
            let next = placed(c, only, target, most);
            Opened {
                bench: next,
                answer: Ok(()),
            }
        }
    }
}

// Opens a circuit with a matrix for its target. `rows` is the masks of the inputs summed into each output, and then the
// constants that are added, a byte each.
// Two calls that differ in a word, here and below: C and Rust callers name both.
pub fn open_matrix(
    bench: Bench,
    bytes: &[u8],
    rows: &[u8],
    gates: u8,
    depth: u8,
    ands: u8,
) -> Opened
    ensures { OpenPromise bench bytes.now (brought true rows.now) (limits gates depth ands) result.answer result.bench }
{
    open_with(bench, bytes, true, rows, Limits { gates, depth, ands })
}

// Opens a circuit with a table for its target: `entries[x]` is the output value on input value x.
pub fn open_table(
    bench: Bench,
    bytes: &[u8],
    entries: &[u8],
    gates: u8,
    depth: u8,
    ands: u8,
) -> Opened
    ensures { OpenPromise bench bytes.now (brought false entries.now) (limits gates depth ands) result.answer result.bench }
{
    open_with(bench, bytes, false, entries, Limits { gates, depth, ands })
}
