// A line of the call language on a bench: the bench after it, and the answer's bytes first in a lent room.
#![tactic(auto)]

ghost use Rattle.script.specs.Reading.{order_in};
ghost use Rattle.talk.specs.Talk.{Answers};

use bench::Bench;
use script::{Call, call_in};

mod lines; // lines.rt: the answers of one line
mod values; // values.rt: a line's values as bytes
mod held; // held.rt: what is held for each line
mod show; // show.rt: the circuit on the screen
mod calls; // calls.rt: a function for each call

// The bench after a line, and how many bytes of the room are the answer.
#[derive(Clone, Copy)]
pub struct Told {
    pub bench: Bench,
    pub len: usize,
}

// The room that an answer is put in: longer than any answer, the longest being `held` of all the lines there may be.
pub const OUT: usize = 32768;

// As many bytes as the words of one line can say in hexadecimal digits.
pub(crate) const HEX: usize = 32768;

// More than any stored form has: 5 + 5 * GATES + 3 * OUTPUTS bytes.
pub(crate) const STORED: usize = 2048;

// The answer to a line of the call language: the bench after it, and the answer's bytes first in `out`, which is past them as
// it was.
pub fn answer_line(b: Bench, line: &[u8], out: &mut [u8; OUT]) -> Told
    ensures { Answers b (order_in line.now) out.old out.new result }
{
    let call = call_in(line);
    match call {
        Call::Silent => Told { bench: b, len: 0 },
        Call::Unreadable => calls::tell_unreadable(b, out),
        Call::New => calls::tell_new(b, out),
        Call::OpenMatrix(o) => calls::tell_open(b, line, true, o, out),
        Call::OpenTable(o) => calls::tell_open(b, line, false, o, out),
        Call::Report => calls::tell_report(b, out),
        Call::Gate(e) => calls::tell_gate(b, e, out),
        Call::Output(e) => calls::tell_output(b, e, out),
        Call::Entry(e) => calls::tell_entry(b, e, out),
        Call::Limits(e) => calls::tell_limits(b, e, out),
        Call::Sweep => calls::tell_sweep(b, out),
        Call::Append(e) => calls::tell_append(b, e, out),
        Call::Store(size) => calls::tell_store(b, size, out),
        Call::Held => calls::tell_held(b, out),
        Call::Show => calls::tell_show(b, out),
        Call::Hint(q) => calls::tell_hint(b, q, out),
        Call::Build(q) => calls::tell_build(b, line, q, out),
        Call::Late(q) => calls::tell_late(b, line, q, out),
        Call::Distance(q) => calls::tell_distance(b, line, q, out),
        Call::Equations(q) => calls::tell_equations(b, line, q, out),
    }
}
