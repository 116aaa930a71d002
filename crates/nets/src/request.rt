//! What is asked to be placed.

// A wire that is asked for, by its numbers: an input by its start and changes, a gate by its kind and pins. A call lends the pins, and a
// record the bytes that they are in. Starts and kinds are bytes: every byte is answered or refused.
#[derive(Clone, Copy)]
pub(crate) enum Request<P> {
    Input { start: u8, changes: u8 },
    Gate { kind: u8, pins: P },
}
