//! The wires of a net: inputs with drives, and outputs of gates.

ghost use Rattle.std.specs.Prelude.{◌≤◌};

use algebras::kind::Kind;

pub mod slots;

/// The drive of an input: its start, and how often it changes.
#[derive(Clone, Copy)]
pub struct Drive {
    pub start: bool,
    pub changes: u8,
}

/// At most `N` pins: the numbers of the wires that stand on them, from the first pin on.
// An array and a count, since placing wants no memory, and wires are copied.
#[derive(Clone, Copy)]
pub struct Pins<const N: usize> {
    wires: [u16; N],
    count: usize,
    ghost few: { «count» ≤ N },
}

/// A gate: its kind and its pins.
#[derive(Clone, Copy)]
pub struct Gate {
    pub kind: Kind,
    pub pins: Pins<8>,
}

/// A wire is an input or the output of a gate.
#[derive(Clone, Copy)]
pub enum Wire {
    Input(Drive),
    Output(Gate),
}
