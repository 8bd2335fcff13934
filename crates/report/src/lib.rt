// The report: counts, depths and the verdict, from what is held. Words are compared, 64 inputs at a time; a single input
// is looked at only where a word differs.
#![tactic(auto)]

ghost use Rattle.std.specs.Prelude.{◌≡◌, ◌<◌, ◌≤◌, eqb};
ghost use Rattle.circuit.specs.Gate.{bit, value_in};
ghost use Rattle.circuit.specs.Sizes.{most_inputs, most_outputs, most_values};
ghost use Rattle.bench.specs.State.{least};
ghost use Rattle.bench.specs.Calls.{ReportPromise};
ghost use Rattle.report.specs.Judged.{differences, differs_in, judged};

use bench::{Bench, Place, Report, Verdict};
use circuit::depth::overall_of;
use circuit::{NO_WORDS, Refusal, Words, gate, line_index};

// Which inputs have a differing output, in words.
fn differing(b: &Bench) -> Words
    requires { b.now.m ≤ most_outputs }
    ensures { result ≡ differences b.now.values b.now.outputs b.now.wanted b.now.m }
{
    let mut found = NO_WORDS;
    for j in 0..b.m {
        let line = line_index(b.outputs[j]);
        found = gate::eval_gate(4, found, gate::eval_gate(0, b.values[line], b.wanted[j]));
    }
    found
}

// The lowest bit that is set in a word; or 64, as of `trailing_zeros`, so that one comparison tells.
fn lowest_bit(word: u64) -> usize
    ensures { result ≡ least (λ i. eqb (bit i word) 1) 64 0 }
{
    // (`as usize`: there is no `usize::from` of a u32.)
    word.trailing_zeros() as usize
}

// The smallest input value that is set in four words; or one past the last, which is past those of any circuit too.
fn lowest_input(w: Words) -> usize
    ensures { result ≡ least (λ x. eqb (value_in w x) 1) most_values 0 }
{
    let a = lowest_bit(w.w0);
    if a < 64 {
        return a;
    }
    let b = lowest_bit(w.w1);
    if b < 64 {
        return 64 + b;
    }
    let c = lowest_bit(w.w2);
    if c < 64 {
        return 128 + c;
    }
    192 + lowest_bit(w.w3)
}

// The bit of input value x in four words.
fn value_in(w: Words, x: usize) -> u64
    requires { x < most_values }
    ensures { result ≡ value_in w x }
{
    let words = [w.w0, w.w1, w.w2, w.w3];
    (words[x / 64] >> (x % 64)) % 2
}

// The smallest output that differs on input value x; or m, though it is asked only where one does.
fn lowest_output(b: &Bench, x: usize) -> usize
    requires { (x < most_values) × (b.now.m ≤ most_outputs) }
    ensures { result ≡ least (differs_in b.now.values b.now.outputs b.now.wanted x) b.now.m 0 }
{
    for j in 0..b.m {
        let line = line_index(b.outputs[j]);
        if value_in(b.values[line], x) != value_in(b.wanted[j], x) {
            return j;
        }
    }
    b.m
}

// The first verdict that applies.
fn judge(b: &Bench, depth: u8, ands: u8) -> Verdict
    requires { (b.now.n ≤ most_inputs) × (b.now.m ≤ most_outputs) }
    ensures { result ≡ judged b.now depth ands }
{
    let x = lowest_input(differing(b));
    let inputs = 1usize << b.n;
    if x < inputs {
        return Verdict::Wrong(Place {
            input: x,
            output: lowest_output(b, x),
        });
    }
    if usize::from(b.max_gates) < b.g {
        return Verdict::OverGates;
    }
    if b.max_depth < u16::from(depth) {
        return Verdict::OverDepth;
    }
    if b.max_and_depth < u16::from(ands) {
        return Verdict::OverAndDepth;
    }
    Verdict::Pass
}

// The report of what stands on the bench.
pub fn report(bench: Bench) -> Result<Report, Refusal>
    ensures { ReportPromise bench result }
{
    if !bench.is_standing() {
        return Err(Refusal::NothingOpen);
    }
    let counts = gate::tally(&bench.kinds[..bench.g]);
    let depth = overall_of(&bench.depths, &bench.outputs[..bench.m]);
    let and_depth = overall_of(&bench.and_depths, &bench.outputs[..bench.m]);
    let verdict = judge(&bench, depth, and_depth);
    Ok(Report {
        gates: bench.g,
        counts,
        depth,
        and_depth,
        verdict,
    })
}
