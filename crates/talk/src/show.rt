// The circuit on the screen, with its verdict.
ghost use Rattle.talk.specs.Saying.{Said, shown_with, shown_in};

use crate::OUT;
use crate::lines::{put_verdict, say_refused};
use bench::Report;
use circuit::{Circuit, Refusal};
use text::put_labelled;

// The counts and both depths, the lines of gates and outputs, the verdict.
fn say_circuit(out: &mut [u8; OUT], c: Circuit, r: Report) -> usize
    ensures { Said out.old out.new result (shown_with c r) }
{
    let counted = listing::put_counts(out, c.n, c.m, c.g, r.depth);
    let ands = put_labelled(out, counted, b" anddepth ", usize::from(r.and_depth));
    let start = text::put(out, ands, b"\n");
    let listed = listing::put_lines(out, start, c);
    let judged = put_verdict(out, listed, r.verdict);
    text::put(out, judged, b"\n")
}

// What `show` answers: a circuit with the report of the bench that it stands on.
pub(crate) fn say_show(out: &mut [u8; OUT], c: Circuit, r: Result<Report, Refusal>) -> usize
    ensures { Said out.old out.new result (shown_in c r) }
{
    match r {
        Ok(report) => say_circuit(out, c, report),
        Err(why) => say_refused(out, why),
    }
}
