// What programs read: a stream into a room that is lent.
#![tactic(auto)]

ghost use Rattle.io.specs.Counts.{IsPrefixLen};

use std::io::Read;

// Reads until the room is full, the input ends or a read fails: how many bytes stand first in the room.
pub fn read_full(input: &mut impl Read, room: &mut [u8]) -> usize
    ensures { IsPrefixLen result room.new }
{
    let mut count = 0;
    // A `while`: each turn goes on by as many bytes as were read.
    while count < room.len() {
        let got = input.read(&mut room[count..]).unwrap_or(0);
        if got == 0 {
            return count;
        }
        count += got;
    }
    count
}
