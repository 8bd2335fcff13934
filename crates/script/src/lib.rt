// The call language: what a line of text calls for. The words that say bytes are given by their places in the line.
#![tactic(auto)]

ghost use Rattle.script.specs.Reading.{by_word, calls, edit_calls, bytes_calls, order_in};
ghost use Rattle.script.specs.Placed.{Means};
ghost use Rattle.script.specs.Taking.{Second, Reads};

use crate::words::Words;

mod words; // words.rt: one word of a line, as a number, a limit, bytes or the kind of a target
mod calls; // calls.rt: a function for each call, over the words after the first

// A word of hexadecimal digits stands from `from` to `to`; an empty part where the word is `-`.
// Not `text::Word`, which is never empty.
#[derive(Clone, Copy)]
pub struct Part {
    pub from: usize,
    pub to: usize,
}

// `open HEX matrix HEX G D A` and `open HEX table HEX G D A`.
#[derive(Clone, Copy)]
pub struct Opening {
    pub bytes: Part,
    pub target: Part,
    pub gates: u8,
    pub depth: u8,
    pub ands: u8,
}

// `gate K KIND A B`.
#[derive(Clone, Copy)]
pub struct GateEdit {
    pub k: usize,
    pub kind: usize,
    pub a: usize,
    pub b: usize,
}

// `output J LINE`.
#[derive(Clone, Copy)]
pub struct OutputEdit {
    pub j: usize,
    pub line: usize,
}

// `entry I VALUE` or `entry I VALUE CONSTANT`; a constant left out is 0.
#[derive(Clone, Copy)]
pub struct EntryEdit {
    pub i: usize,
    pub value: usize,
    pub constant: usize,
}

// `limits G D A`.
#[derive(Clone, Copy)]
pub struct LimitsEdit {
    pub gates: u8,
    pub depth: u8,
    pub ands: u8,
}

// `append KIND A B`.
#[derive(Clone, Copy)]
pub struct AppendEdit {
    pub kind: usize,
    pub a: usize,
    pub b: usize,
}

// `build N ROWSHEX D ROOM`.
#[derive(Clone, Copy)]
pub struct BuildCall {
    pub n: usize,
    pub rows: Part,
    pub d: usize,
    pub room: usize,
}

// `late N ARRIVALSHEX ROWSHEX LIMITSHEX ROOM`.
#[derive(Clone, Copy)]
pub struct LateCall {
    pub n: usize,
    pub arrivals: Part,
    pub rows: Part,
    pub limits: Part,
    pub room: usize,
}

// `distance N MASKSHEX DEPTHSHEX T D`.
#[derive(Clone, Copy)]
pub struct DistanceCall {
    pub n: usize,
    pub masks: Part,
    pub depths: Part,
    pub target: usize,
    pub d: usize,
}

// `hint J D`: the row of the open matrix, and the depth.
#[derive(Clone, Copy)]
pub struct HintCall {
    pub row: usize,
    pub d: usize,
}

// `equations HEX ROOM`.
#[derive(Clone, Copy)]
pub struct EquationsCall {
    pub file: Part,
    pub room: usize,
}

// What a line calls for. A blank line or a note is Silent, a line that is no call Unreadable.
#[derive(Clone, Copy)]
pub enum Call {
    Silent,
    Unreadable,
    New,
    OpenMatrix(Opening),
    OpenTable(Opening),
    Report,
    Gate(GateEdit),
    Output(OutputEdit),
    Entry(EntryEdit),
    Limits(LimitsEdit),
    Sweep,
    Append(AppendEdit),
    Store(usize),
    Held,
    Show,
    Hint(HintCall),
    Build(BuildCall),
    Late(LateCall),
    Distance(DistanceCall),
    Equations(EquationsCall),
}

// A line of more bytes than this is unreadable.
pub const LONGEST: usize = 65535;

// By its first word, a call that brings or takes bytes. (Tried: a `match` on byte strings leaves a goal for each byte at which two words part, 36
// for these six words, and the search leaves sixteen of them open.)
#[tactic(auto, unfolding(crate::specs::Reading::by_word))]
fn bytes_call(word: &[u8], words: Words) -> Option<Call>
    requires { Second words }
    ensures { Reads words.entry (by_word bytes_calls word.now) result }
{
    if text::same(word, b"open") {
        calls::read_open(words)
    } else if text::same(word, b"store") {
        calls::read_store(words)
    } else if text::same(word, b"build") {
        calls::read_build(words)
    } else if text::same(word, b"late") {
        calls::read_late(words)
    } else if text::same(word, b"distance") {
        calls::read_distance(words)
    } else if text::same(word, b"equations") {
        calls::read_equations(words)
    } else {
        None
    }
}

// An edit, or a call that brings or takes bytes.
// By tests one after another, as in `bytes_call`.
#[tactic(auto, unfolding(crate::specs::Reading::by_word))]
fn edit_call(word: &[u8], words: Words) -> Option<Call>
    requires { Second words }
    ensures { Reads words.entry (by_word edit_calls word.now) result }
{
    if text::same(word, b"gate") {
        calls::read_gate(words)
    } else if text::same(word, b"output") {
        calls::read_output(words)
    } else if text::same(word, b"entry") {
        calls::read_entry(words)
    } else if text::same(word, b"limits") {
        calls::read_limits(words)
    } else if text::same(word, b"append") {
        calls::read_append(words)
    } else {
        bytes_call(word, words)
    }
}

// Any call, by its first word.
#[tactic(auto, unfolding(crate::specs::Reading::by_word))]
fn any_call(word: &[u8], words: Words) -> Option<Call>
    requires { Second words }
    ensures { Reads words.entry (by_word calls word.now) result }
{
    if text::same(word, b"new") {
        words.finish(Call::New)
    } else if text::same(word, b"report") {
        words.finish(Call::Report)
    } else if text::same(word, b"held") {
        words.finish(Call::Held)
    } else if text::same(word, b"show") {
        words.finish(Call::Show)
    } else if text::same(word, b"sweep") {
        words.finish(Call::Sweep)
    } else if text::same(word, b"hint") {
        calls::read_hint(words)
    } else {
        edit_call(word, words)
    }
}

// The call that a line is. The line is given without its LF, and without the CR before it.
pub fn call_in(line: &[u8]) -> Call
    ensures { Means line.now result (order_in line.now) }
{
    if LONGEST < line.len() {
        return Call::Unreadable;
    }
    let Some(first) = text::next_word(line, 0) else {
        return Call::Silent;
    };
    if line[0] == b'#' {
        return Call::Silent;
    }
    let words = Words::after(line, first.to);
    any_call(&line[first.from..first.to], words).unwrap_or(Call::Unreadable)
}
