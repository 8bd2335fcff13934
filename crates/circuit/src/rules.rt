// The rules of a circuit: its shape, one gate, one output. Reader and edits ask them alike.
ghost use Rattle.std.specs.Prelude.{◌≡◌};
ghost use Rattle.circuit.specs.Gate.{kind_of, allowed};
ghost use Rattle.circuit.specs.Lines.{gate};
ghost use Rattle.circuit.specs.Rules.{shaped, operands_fit, gate_answer, out_answer};

use crate::{GATES, INPUTS, OUTPUTS, Refusal};

// The numbers are in the ranges of a circuit.
// Three numbers and no struct: the reader and the builder ask before there is a circuit.
#[tactic(auto, unfolding(crate::specs::Rules::shaped))]
pub fn is_shape(n: usize, m: usize, g: usize) -> bool
    ensures { result ≡ shaped n m g }
{
    1 <= n && n <= INPUTS && 1 <= m && m <= OUTPUTS && g <= GATES
}

// The operands of a gate on a line: below it; the second of NOT, which is not read, is 0.
fn operands_fit(line: usize, kind: usize, a: usize, b: usize) -> bool
    ensures { result ≡ operands_fit line (gate kind a b) }
{
    a < line
        && match kind {
            0..=5 => b < line,
            _ => b == 0,
        }
}

// Whether a kind may stand: any but the nonlinear ones where `only` says so.
fn is_allowed(only: bool, kind: usize) -> bool
    ensures { result ≡ allowed only (kind_of kind) }
{
    match kind {
        0..=1 => true,
        2..=5 => !only,
        _ => true,
    }
}

// One gate: kind, operands, and what is allowed. Edits ask it too.
#[tactic(auto, unfolding(crate::specs::Rules::gate_answer))]
pub fn check_gate(only: bool, line: usize, kind: usize, a: usize, b: usize) -> Result<(), Refusal>
    ensures { result ≡ gate_answer only line (gate kind a b) }
{
    if 6 < kind {
        return Err(Refusal::UnknownKind);
    }
    if !operands_fit(line, kind, a, b) {
        return Err(Refusal::Operand);
    }
    if !is_allowed(only, kind) {
        return Err(Refusal::NotLinear);
    }
    Ok(())
}

// One output: the line that it names is there. Edits ask it too.
#[tactic(auto, unfolding(crate::specs::Rules::out_answer))]
pub fn check_output(lines: usize, line: usize) -> Result<(), Refusal>
    ensures { result ≡ out_answer lines line }
{
    if line < lines {
        Ok(())
    } else {
        Err(Refusal::NoLine)
    }
}
