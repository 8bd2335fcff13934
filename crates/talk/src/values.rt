// A line's values on the inputs 0, 1, 2, .., packed low bit first into bytes.
ghost use Rattle.std.specs.Prelude.{◌≡◌, ◌<◌, ◌≤◌, ◌^◌};
ghost use Rattle.circuit.specs.Sizes.{most_inputs};
ghost use Rattle.circuit.specs.Gate.{value_in};
ghost use Rattle.circuit.specs.Lines.{upto, padded};
ghost use Rattle.talk.specs.Texts.{value_bytes, value_bits, byte_of};
ghost use Rattle.talk.specs.Saying.{packed_most};

use circuit::{VALUES, Words};

// How many bytes hold a value for each input value there may be.
const PACKED: usize = VALUES / 8;

// One more than the greatest byte that the values on 2^n inputs can make.
fn byte_end(n: usize) -> u64
    requires { n ≤ most_inputs }
    ensures { (result ≡ 2 ^ value_bits n) × (result ≤ 256) }
{
    let bits = 8usize.min(1usize << n);
    1u64 << bits
}

// How many bytes there are: one where there are fewer than 8 values.
pub(crate) fn byte_count(n: usize) -> usize
    requires { n ≤ most_inputs }
    ensures { (result ≡ value_bytes n) × (result ≤ packed_most) }
{
    ((1usize << n) + 7) / 8
}

// The values on inputs 8 j to 8 j + 7, as far as there are so many.
fn value_byte(w: Words, n: usize, j: usize) -> u8
    requires { (n ≤ most_inputs) × (j < packed_most) }
    ensures { result ≡ byte_of (value_in w) n j }
{
    let end = byte_end(n);
    let words = [w.w0, w.w1, w.w2, w.w3];
    ((words[j / 8] >> (8 * (j % 8))) % end) as u8
}

// All the bytes, and zeros past the last.
pub(crate) fn value_bytes(w: Words, n: usize) -> [u8; PACKED]
    requires { n ≤ most_inputs }
    ensures { result ≡ padded packed_most 0 (upto (byte_of (value_in w) n) (value_bytes n)) }
{
    let mut bytes = [0u8; PACKED];
    for j in 0..byte_count(n) {
        bytes[j] = value_byte(w, n, j);
    }
    bytes
}
