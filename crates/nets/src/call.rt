//! Calls on a net as data, and what they answer.

use crate::fault::{NetFault, ReadFault};

/// A call on a net, by its arguments. The column is brought to it when it is played.
// Starts and kinds are bytes, as in the calls themselves: every byte is answered or refused.
#[derive(Clone, Copy)]
pub enum Call<'a> {
    /// Places an input.
    PlaceInput { start: u8, changes: u8 },
    /// Places a gate.
    PlaceGate { kind: u8, pins: &'a [u16] },
    /// Reads records.
    Read(&'a [u8]),
}

/// What a call answers: for each kind of call, what the call itself answers.
#[derive(Clone, Copy)]
pub enum Answer {
    /// The number of the wire placed.
    Placed(Result<usize, NetFault>),
    /// How many records were read.
    Read(Result<usize, ReadFault>),
}
