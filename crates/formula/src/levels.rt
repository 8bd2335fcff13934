// The five levels of a formula, loosest first: or, xor, and, not, and what is bracketed or a name. A level begins anywhere
// and ends past the spaces after it: it gives where the text goes on, and the formula's line. Brackets call the loosest level
// again; what falls is the nesting that is left, and the bytes left in each loop. A refusal clears the gates where it is made.
// Three levels are alike: the five stay functions of one cycle, in which a closure gets no proof.
ghost use Rattle.std.specs.Prelude.{◌≡◌, ◌-◌};
ghost use Rattle.formula.specs.Text.{wrap_with};
ghost use Rattle.formula.specs.Names.{name_in};
ghost use Rattle.formula.specs.Emit.{read_at, inverted_once, worked_at, emitted};
ghost use Rattle.formula.specs.Levels.{paren_of, not_of, and_of, xor_of, or_of};

use crate::text::{scan, sees};
use crate::{Class, Gates, LONGEST, Names, Why};

// A NOT of line v for each ~ from `at` to `to`, and the last one's line.
fn wrap(s: &[u8], at: usize, to: usize, gates: &mut Gates, v: u8) -> u8
    ensures { worked_at gates.new result ≡ wrap_with inverted_once s.now (to - at) at (worked_at gates.old v) }
{
    let mut line = v;
    for i in at..to {
        if sees(s, i, b'~') {
            line = gates.add_not(line);
        }
    }
    line
}

// A name, and the spaces after it.
// Text, names and gates go one by one: of a struct with lent gates in it a caller would not know what became of them.
fn name(s: &[u8], names: &Names, p: usize, gates: &mut Gates) -> Result<(usize, u8), Why>
    ensures { read_at gates.new result ≡ emitted gates.old (name_in s.now names.now p) }
{
    let e = scan(s, p, Class::Letter);
    if e <= p {
        return Err(gates.fail(Why::Text(p)));
    }
    if LONGEST < e - p {
        return Err(gates.fail(Why::Text(p + LONGEST)));
    }
    let Some(v) = names.look_up(s, p, e) else {
        return Err(gates.fail(Why::Name(e - 1)));
    };
    gates.use_line(v);
    Ok((scan(s, e, Class::Blank), v))
}

// A bracketed formula, while there is nesting left, or a name.
#[cycle(read)]
fn read_paren(
    s: &[u8],
    names: &Names,
    at: usize,
    left: usize,
    gates: &mut Gates,
) -> Result<(usize, u8), Why>
    ensures { read_at gates.new result ≡ emitted gates.old (paren_of s.now (name_in s.now names.now) left at) }
{
    let p = scan(s, at, Class::Blank);
    if !sees(s, p, b'(') {
        return name(s, names, p, gates);
    }
    if left == 0 {
        return Err(gates.fail(Why::Text(p)));
    }
    let (q, v) = read_or(s, names, p + 1, left - 1, gates)?;
    if !sees(s, q, b')') {
        return Err(gates.fail(Why::Text(q)));
    }
    Ok((scan(s, q + 1, Class::Blank), v))
}

// Any number of ~ before one of those.
#[cycle(read)]
fn read_not(
    s: &[u8],
    names: &Names,
    at: usize,
    left: usize,
    gates: &mut Gates,
) -> Result<(usize, u8), Why>
    ensures { read_at gates.new result ≡ emitted gates.old (not_of s.now (name_in s.now names.now) left at) }
{
    let p = scan(s, at, Class::Tilde);
    let (q, v) = read_paren(s, names, p, left, gates)?;
    Ok((q, wrap(s, at, p, gates, v)))
}

// Operands of & from the left.
#[cycle(read)]
fn read_and(
    s: &[u8],
    names: &Names,
    at: usize,
    left: usize,
    gates: &mut Gates,
) -> Result<(usize, u8), Why>
    ensures { read_at gates.new result ≡ emitted gates.old (and_of s.now (name_in s.now names.now) left at) }
{
    let (mut p, mut v) = read_not(s, names, at, left, gates)?;
    while sees(s, p, b'&') {
        let (q, w) = read_not(s, names, p + 1, left, gates)?;
        v = gates.add_gate(2, v, w);
        p = q;
    }
    Ok((p, v))
}

// Operands of ^ from the left.
#[cycle(read)]
fn read_xor(
    s: &[u8],
    names: &Names,
    at: usize,
    left: usize,
    gates: &mut Gates,
) -> Result<(usize, u8), Why>
    ensures { read_at gates.new result ≡ emitted gates.old (xor_of s.now (name_in s.now names.now) left at) }
{
    let (mut p, mut v) = read_and(s, names, at, left, gates)?;
    while sees(s, p, b'^') {
        let (q, w) = read_and(s, names, p + 1, left, gates)?;
        v = gates.add_gate(0, v, w);
        p = q;
    }
    Ok((p, v))
}

// Operands of | from the left: a whole formula, over the names of the table, with so many levels of brackets left. Its gates
// go after those that are there.
#[cycle(read)]
pub fn read_or(
    s: &[u8],
    names: &Names,
    at: usize,
    left: usize,
    gates: &mut Gates,
) -> Result<(usize, u8), Why>
    ensures { read_at gates.new result ≡ emitted gates.old (or_of s.now (name_in s.now names.now) left at) }
{
    let (mut p, mut v) = read_xor(s, names, at, left, gates)?;
    while sees(s, p, b'|') {
        let (q, w) = read_xor(s, names, p + 1, left, gates)?;
        v = gates.add_gate(4, v, w);
        p = q;
    }
    Ok((p, v))
}
