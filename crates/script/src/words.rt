// The words of a line one after the other: a number, a limit, bytes or the kind of a target.
ghost use Rattle.std.specs.Prelude.{◌≡◌, ◌≤◌, length};
ghost use Rattle.script.specs.Reading.{is_pairs};

use crate::{Call, Part};
use text::Word;

// The words of a line that are not read yet: those from `at` on.
#[derive(Clone, Copy)]
pub(crate) struct Words<'a> {
    line: &'a [u8],
    at: usize,
    ghost inside: { at ≤ length line.now },
    ghost short: { length line.now ≤ 65535 },
}

impl<'a> Words<'a> {
    ghost use Rattle.script.specs.Reading.{number, limit, kind, no_more};
    ghost use Rattle.script.specs.Order.{order_of};
    ghost use Rattle.script.specs.Placed.{Placed, Follows};
    ghost use Rattle.script.specs.Taking.{Passed, Took, TookOrZero, TookHex, Ends, Reads};

    // The words of a line after its first, which ends at `at`.
    pub(crate) fn after(line: &'a [u8], at: usize) -> Words<'a>
        requires inside { at ≤ length line.now }
        requires short { length line.now ≤ 65535 }
        ensures line_kept { result.line ≡ line.entry }
        ensures at_kept { result.at ≡ at }
    {
        Words { line, at }
    }

    // The place of the next word, if one is left.
    fn word(&mut self) -> Option<Word>
        ensures { Passed self.old result self.new }
    {
        let word = text::next_word(self.line, self.at)?;
        self.at = word.to;
        Some(word)
    }

    // A number, 0 to 2^64 - 1.
    pub(crate) fn number(&mut self) -> Option<usize>
        ensures { Took number self.old result self.new }
    {
        let word = self.word()?;
        let value = text::read_number(&self.line[word.from..word.to])?;
        // (`as usize`: there is no `usize::from` of a u64.)
        Some(value as usize)
    }

    // A number that may be left out at the end of a line, and is 0 then.
    pub(crate) fn number_or_zero(&mut self) -> Option<usize>
        ensures { TookOrZero self.old result self.new }
    {
        if self.is_end() {
            Some(0)
        } else {
            self.number()
        }
    }

    // A number that a limit holds, 0 to 255.
    pub(crate) fn limit(&mut self) -> Option<u8>
        ensures { Took limit self.old result self.new }
    {
        let value = self.number()?;
        u8::try_from(value).ok()
    }

    // Bytes as pairs of hexadecimal digits, or `-` for none.
    pub(crate) fn hex(&mut self) -> Option<Part>
        ensures { TookHex self.old result self.new }
    {
        let Word { from, to } = self.word()?;
        let word = &self.line[from..to];
        if text::same(word, b"-") {
            Some(Part { from: to, to })
        } else if is_pairs(word) {
            Some(Part { from, to })
        } else {
            None
        }
    }

    // The kind of a target: whether it is `matrix`, and not `table`.
    pub(crate) fn is_matrix(&mut self) -> Option<bool>
        ensures { Took kind self.old result self.new }
    {
        let word = self.word()?;
        let word = &self.line[word.from..word.to];
        if text::same(word, b"matrix") {
            Some(true)
        } else if text::same(word, b"table") {
            Some(false)
        } else {
            None
        }
    }

    // Whether no word is left.
    fn is_end(&self) -> bool
        ensures { Ends self.now result }
    {
        text::next_word(self.line, self.at).is_none()
    }

    // The call whose words were all read, unless a word is left.
    pub(crate) fn finish(&self, call: Call) -> Option<Call>
        requires { Placed self.now.line.now call × Follows self.now.line.now call }
        ensures { Reads self.now (no_more (order_of self.now.line.now call)) result }
    {
        if self.is_end() { Some(call) } else { None }
    }
}

// Whether a word is pairs of hexadecimal digits, one pair or more.
#[tactic(auto, unfolding(crate::specs::Reading::is_pairs))]
fn is_pairs(word: &[u8]) -> bool
    ensures { result ≡ is_pairs word.now }
{
    !word.is_empty() && word.len() % 2 == 0 && text::all_hex(word)
}
