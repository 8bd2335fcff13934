// Bytes at places of a text. Every function answers for every place, past the end too.
ghost use Rattle.std.specs.Prelude.{◌≡◌, ◌-◌, get_or};
ghost use Rattle.formula.specs.Text.{Seen, is_letter, in_class, past};

use crate::Class;

// The byte at p, or 0 past the end.
pub fn byte_at(s: &[u8], p: usize) -> u8
    ensures { result ≡ get_or s.now p 0 }
{
    s.get(p).copied().unwrap_or(0)
}

// Whether byte b stands at p.
pub fn sees(s: &[u8], p: usize, b: u8) -> bool
    ensures { Seen s.now p b result }
{
    p < s.len() && s[p] == b
}

// How many places there are from p to e.
// A name for what the definitions write as e - p.
pub fn span(p: usize, e: usize) -> usize
    ensures { result ≡ e - p }
{
    e.saturating_sub(p)
}

// A letter or a digit.
// Written out, as the definition `is_letter` has the three ranges.
#[tactic(auto, unfolding(crate::specs::Text::is_letter))]
fn is_letter(b: u8) -> bool
    ensures { result ≡ is_letter b }
{
    matches!(b, b'0'..=b'9' | b'A'..=b'Z' | b'a'..=b'z')
}

// Whether a byte is in a class.
#[tactic(auto, unfolding(crate::specs::Text::in_class))]
fn in_class(c: Class, b: u8) -> bool
    ensures { result ≡ in_class c b }
{
    match c {
        Class::Blank => b == b' ',
        Class::Tilde => b == b' ' || b == b'~',
        Class::Letter => is_letter(b),
    }
}

// The first place from `at` on whose byte is not in a class.
// As `place_past` of `text`, on which this crate does not rest.
pub fn scan(s: &[u8], at: usize, c: Class) -> usize
    ensures { result ≡ past (in_class c) s.now at }
{
    // The place where the loop stops is the answer: with a `for` the end of the text would be a second one.
    let mut p = at;
    while p < s.len() && in_class(c, s[p]) {
        p += 1;
    }
    p
}
