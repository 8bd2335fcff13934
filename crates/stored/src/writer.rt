// The writer of stored bytes: marks and fields into a lent room, or a refusal that leaves the room as it was.
ghost use Rattle.std.specs.Prelude.{◌≡◌, ◌++◌, ◌+◌, ◌*◌, ◌≤◌, length};
ghost use Rattle.circuit.specs.Sizes.{most_outputs, most_gates};
ghost use Rattle.circuit.specs.Lines.{upto};
ghost use Rattle.circuit.specs.Structs.{gate_of, out_of};
ghost use Rattle.stored.specs.Stored.{gate_bytes, out_bytes};
ghost use Rattle.stored.specs.Writing.{over, Wrote};

use crate::{GT, OP, SH};
use circuit::rules::is_shape;
use circuit::{Circuit, Refusal, line_index, low_byte};

// A record: its mark and its fields.
fn put_record(room: &mut [u8], at: usize, mark: [u8; 2], fields: &[u8])
    requires { at + 2 + length fields.now ≤ length room.old }
    ensures { room.new ≡ over room.old at (mark ++ fields.now) }
{
    let front = at + mark.len();
    let end = front + fields.len();
    room[at..front].copy_from_slice(&mark);
    room[front..end].copy_from_slice(fields);
}

// A record for each gate, after the shape.
fn put_gates(c: Circuit, room: &mut [u8])
    requires { (c.g ≤ most_gates) × (5 + 5 * c.g ≤ length room.old) }
    ensures { room.new ≡ over room.old 5 (gate_bytes (upto (gate_of c) c.g)) }
{
    for j in 0..c.g {
        let fields = [
            c.kinds[j],
            low_byte(line_index(c.left[j])),
            low_byte(line_index(c.right[j])),
        ];
        put_record(room, 5 + 5 * j, GT, &fields);
    }
}

// A record for each output.
fn put_outs(c: Circuit, room: &mut [u8], from: usize)
    requires { (c.m ≤ most_outputs) × (from + 3 * c.m ≤ length room.old) }
    ensures { room.new ≡ over room.old from (out_bytes (upto (out_of c) c.m)) }
{
    for j in 0..c.m {
        put_record(
            room,
            from + 3 * j,
            OP,
            &[low_byte(line_index(c.outputs[j]))],
        );
    }
}

// Stores a circuit: its bytes first in the room, the rest of the room as it was.
pub fn write(c: Circuit, room: &mut [u8]) -> Result<usize, Refusal>
    ensures { Wrote c room.old result room.new }
{
    if !is_shape(c.n, c.m, c.g) {
        return Err(Refusal::Shape);
    }
    let size = 5 + 5 * c.g + 3 * c.m;
    if room.len() < size {
        return Err(Refusal::NoRoom);
    }
    put_record(room, 0, SH, &[low_byte(c.n), low_byte(c.m), low_byte(c.g)]);
    put_gates(c, room);
    put_outs(c, room, 5 + 5 * c.g);
    Ok(size)
}
