// The stored form of a circuit: records with two-byte marks, read and written.
#![tactic(auto)]

pub mod reader; // reader.rt: stored bytes to a circuit
pub mod writer; // writer.rt: a circuit to stored bytes in a lent room
pub mod restore; // restore.rt: both in one call

// The two bytes that a stored record begins with: the mark of the shape,
pub(crate) const SH: [u8; 2] = [b'S', b'H'];

// of a gate,
pub(crate) const GT: [u8; 2] = [b'G', b'T'];

// and of an output.
pub(crate) const OP: [u8; 2] = [b'O', b'P'];
