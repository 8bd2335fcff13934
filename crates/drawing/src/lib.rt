// The circuit of an equation file: its outputs, its lines with as many inputs as it has, and its stored bytes.
#![tactic(auto)]

ghost use Rattle.std.specs.Prelude.{◌≡◌};
ghost use Rattle.drawing.specs.declared.Refusal.TheVariants.{NotStored};
ghost use Rattle.drawing.specs.Drawing.{refused_for, sketch_of, EquationsPromise};

use crate::numbering::circuit_of;
use crate::outputs::{is_whole, numbers};
use circuit::Circuit;
use formula::Why;
use sheet::read_file;
use stored::writer::write;

mod outputs; // outputs.rt: which names are outputs, and their lines
mod numbering; // numbering.rt: lines from 8 inputs to as many as there are, and the circuit

// The numbers of the refusals that only an equation file has: bad text,
pub const BAD_TEXT: usize = 15;

// a name that is unknown, set already or an input,
pub const BAD_NAME: usize = 16;

// no input, no output, or an output with none below it.
pub const NO_OUTPUTS: usize = 17;

// Why no circuit of a file is stored: where the text or a name is bad; no outputs; or why the circuit was not stored.
#[derive(Clone, Copy)]
pub enum Refusal {
    BadText(usize),
    BadName(usize),
    NoOutputs,
    NotStored(circuit::Refusal),
}

impl From<Why> for Refusal {
    ghost from_gives = { λ why r. r ≡ refused_for why };

    fn from(why: Why) -> Refusal {
        match why {
            Why::Text(q) => Refusal::BadText(q),
            Why::Name(q) => Refusal::BadName(q),
        }
    }
}

impl From<circuit::Refusal> for Refusal {
    ghost from_gives = { λ why r. r ≡ NotStored why };

    fn from(why: circuit::Refusal) -> Refusal {
        Refusal::NotStored(why)
    }
}

// The circuit of a file, or why it has none.
fn draw(text: &[u8]) -> Result<Circuit, Refusal>
    ensures { result ≡ sketch_of text.now }
{
    let (book, _) = read_file(text)?;
    let numbers = numbers(text, &book);
    if !is_whole(&numbers, &book) {
        return Err(Refusal::NoOutputs);
    }
    Ok(circuit_of(&numbers, &book))
}

// The stored circuit of a file first in the room, the rest of the room as it was; or why there is none, and the room as it was.
pub fn equations(text: &[u8], room: &mut [u8]) -> Result<usize, Refusal>
    ensures { EquationsPromise text.now room.old result room.new }
{
    let circuit = draw(text)?;
    Ok(write(circuit, room)?)
}
