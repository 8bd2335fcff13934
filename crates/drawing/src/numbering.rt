// Lines are read as if there were 8 inputs; here they get the numbers that they have with as many as there are.
ghost use Rattle.std.specs.Prelude.{◌≡◌, ℕ, get_or};
ghost use Rattle.circuit.specs.Sizes.{most_outputs, most_gates};
ghost use Rattle.circuit.specs.Lines.{upto};
ghost use Rattle.drawing.specs.Outputs.{out_line, line_or0};
ghost use Rattle.drawing.specs.Numbering.{shift_of, few_outputs, circuit_of};

use crate::outputs::{out_line, top};
use circuit::{Circuit, GATES, OUTPUTS};
use formula::{NAMES, Names};
use sheet::Book;

// The count of outputs where there are more than a circuit may have.
// One too many is enough: storing refuses the circuit for its shape.
const TOO_MANY_OUTPUTS: usize = OUTPUTS + 1;

// A line as if there were 8 inputs, where there are n.
#[tactic(auto, unfolding(crate::specs::Numbering::shift_of))]
fn shift(n: u8, v: u8) -> u16
    ensures { result ≡ shift_of n v }
{
    if v < 8 || 8 <= n {
        return u16::from(v);
    }
    u16::from(v - (8 - n))
}

// A column of operands, with n inputs.
fn shift_all(n: u8, operands: &[u8; GATES]) -> [u16; GATES]
    ensures { result ≡ upto (λ (k : ℕ). shift_of n (get_or operands.now k 0)) most_gates }
{
    let mut r = [0u16; GATES];
    // By number: what is read and what is written have the same place.
    for k in 0..GATES {
        r[k] = shift(n, operands[k]);
    }
    r
}

// The outputs' lines, with n inputs; 0 for one that is not set.
fn out_lines(numbers: &[usize; NAMES], names: &Names, n: u8) -> [u16; OUTPUTS]
    ensures { result ≡ upto (λ (j : ℕ). shift_of n (line_or0 (out_line numbers.now names.now.lines names.now.n j))) most_outputs }
{
    let mut r = [0u16; OUTPUTS];
    for j in 0..OUTPUTS {
        r[j] = shift(n, out_line(numbers, names, j).unwrap_or(0));
    }
    r
}

// How many outputs there are; one more than a circuit may have stands for any number above that.
#[tactic(auto, unfolding(crate::specs::Numbering::few_outputs))]
fn few_outputs(t: usize) -> usize
    ensures { result ≡ few_outputs t }
{
    t.min(TOO_MANY_OUTPUTS)
}

// The circuit of a file that is whole.
pub fn circuit_of(numbers: &[usize; NAMES], book: &Book) -> Circuit
    ensures { result ≡ circuit_of numbers.now book.now }
{
    let high = book.gates.high;
    let left = shift_all(high, &book.gates.left);
    let right = shift_all(high, &book.gates.right);
    Circuit {
        n: usize::from(high),
        m: few_outputs(top(numbers, &book.names)),
        g: book.gates.count,
        kinds: book.gates.kinds,
        left,
        right,
        outputs: out_lines(numbers, &book.names, high),
    }
}
