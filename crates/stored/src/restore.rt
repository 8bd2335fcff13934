// Reading a stored circuit and storing it again, in one call with one number for its answer.
ghost use Rattle.std.specs.Prelude.{◌≡◌, length};
ghost use Rattle.stored.specs.Writing.{room_after, restore_answer, writing_code, Restored};

use crate::reader::read;
use crate::writer::write;
use circuit::{Refusal, refusal_no};

// An answer as one number: how many bytes were written, or 65,536 times the refusal's number.
// One number: `allpawasi_restore`, `allpawasi_store` and `allpawasi_build` give it to C.
pub fn writing_code(w: Result<usize, Refusal>) -> usize
    ensures { result ≡ writing_code w }
{
    match w {
        Ok(count) => count,
        Err(why) => 65536 * refusal_no(why),
    }
}

// Reads a circuit and stores it again. `only`: no gate but a linear one is allowed.
pub fn restored(bytes: &[u8], only: bool, room: &mut [u8]) -> usize
    ensures { Restored only bytes.now room.old result room.new }
{
    writing_code(restore(bytes, only, room))
}

// The same with the refusal for an answer.
fn restore(bytes: &[u8], only: bool, room: &mut [u8]) -> Result<usize, Refusal>
    ensures answer { result ≡ restore_answer only bytes.now (length room.old) }
    ensures bytes { room.new ≡ room_after result bytes.now room.old }
{
    let c = read(bytes, only)?;
    write(c, room)
}
