// Storing what stands on the bench.
ghost use Rattle.std.specs.Prelude.{◌≡◌};
ghost use Rattle.bench.specs.Calls.{StorePromise};
ghost use Rattle.bench.specs.Held.{circuit_of};

use crate::Bench;
use circuit::{Circuit, Refusal};
use stored::writer::write;

// The circuit that stands on the bench.
pub fn circuit_of(b: Bench) -> Circuit
    ensures { result ≡ circuit_of b }
{
    // Each array has a name first, here and elsewhere: put straight from or into a struct of C's layout it gets no proof.
    let kinds = b.kinds;
    let left = b.left;
    let right = b.right;
    let outputs = b.outputs;
    Circuit {
        n: b.n,
        m: b.m,
        g: b.g,
        kinds,
        left,
        right,
        outputs,
    }
}

// The stored bytes first in the room, and how many; the rest of the room stays.
pub fn store(bench: Bench, room: &mut [u8]) -> Result<usize, Refusal>
    ensures { StorePromise bench room.old result room.new }
{
    if !bench.is_standing() {
        return Err(Refusal::NothingOpen);
    }
    write(circuit_of(bench), room)
}
