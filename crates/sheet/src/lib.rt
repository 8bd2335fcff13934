// An equation file, read into a table of names and the gates of their formulas; or the place where it cannot be.
#![tactic(auto)]

ghost use Rattle.std.specs.Prelude.{◌≡◌, ◌<◌};
ghost use Rattle.formula.specs.Sizes.{most_names};
ghost use Rattle.formula.specs.Emit.{read_at};
ghost use Rattle.grammar.specs.File.{line_ends};
ghost use Rattle.sheet.specs.Sheet.{name_set, no_book, assigning, book_of};

use formula::keys::{high_key, low_key};
use formula::levels::read_or;
use formula::text::{scan, sees};
use formula::{Class, Gates, LONGEST, NAMES, NESTING, Names, Why};

// The names that were set, and where each stands in the text; and the gates.
// `starts` goes with the columns of `names`: formulas have no use for it.
#[derive(Clone, Copy)]
pub struct Book {
    pub names: Names,
    pub starts: [usize; NAMES],
    pub gates: Gates,
}

// No names and no gates.
#[tactic(auto, unfolding(crate::specs::Sheet::no_book))]
fn no_book() -> Book
    ensures { result ≡ no_book }
{
    Book {
        names: Names::none(),
        starts: [0; NAMES],
        gates: Gates::none(),
    }
}

// Whether a line ends at z: with LF, or with the text.
#[tactic(auto, unfolding(grammar::specs::File::line_ends))]
fn line_ends(s: &[u8], z: usize) -> bool
    ensures { result ≡ line_ends s.now z }
{
    z >= s.len() || s[z] == b'\n'
}

// One assignment, whose first byte stands at p, over the names that were set before it: where the text goes on, and the line of
// its name.
fn assign(s: &[u8], names: &Names, p: usize, gates: &mut Gates) -> Result<(usize, u8), Why>
    ensures { read_at gates.new result ≡ assigning s.now names.now p gates.old }
{
    if NAMES <= names.n {
        return Err(gates.fail(Why::Text(p)));
    }
    // A name's end is tested as in `name` of `formula`: each has a promise of its own for it (`assigning`, `name_in`).
    let e = scan(s, p, Class::Letter);
    if e <= p {
        return Err(gates.fail(Why::Text(p)));
    }
    if LONGEST < e - p {
        return Err(gates.fail(Why::Text(p + LONGEST)));
    }
    if names.look_up(s, p, e).is_some() {
        return Err(gates.fail(Why::Name(e - 1)));
    }
    let q = scan(s, e, Class::Blank);
    if !sees(s, q, b'=') {
        return Err(gates.fail(Why::Text(q)));
    }
    let (z, v) = read_or(s, names, q + 1, NESTING, gates)?;
    if !line_ends(s, z) {
        return Err(gates.fail(Why::Text(z)));
    }
    Ok((z, v))
}

// One name more: the one at p, which has the line v.
fn set_name(names: &mut Names, s: &[u8], p: usize, v: u8)
    requires { names.old.n < most_names }
    ensures { names.new ≡ name_set s.now names.old p v }
{
    let e = scan(s, p, Class::Letter);
    names.low[names.n] = low_key(s, p, e);
    names.high[names.n] = high_key(s, p, e);
    names.lines[names.n] = v;
    names.n += 1;
}

// The whole file, blank lines and assignments to its end: its names and gates, and where it ends.
pub fn read_file(s: &[u8]) -> Result<(Book, usize), Why>
    ensures { result ≡ book_of s.now }
{
    let mut book = no_book();
    let mut p: usize = 0;
    loop {
        let q = scan(s, p, Class::Blank);
        if s.len() <= q {
            return Ok((book, q));
        }
        if s[q] == b'\n' {
            p = q + 1;
        } else {
            let (z, v) = assign(s, &book.names, q, &mut book.gates)?;
            book.starts[book.names.n] = q;
            set_name(&mut book.names, s, q, v);
            p = z;
        }
    }
}
