//! Net A: an input, an inverter, and an AND, an OR, a NAND and an XOR gate of two pins each.

use crate::simulator::Function;
use crate::simulator::Part::{self, Gate, Input};

/// Its wires, in the order of placing.
pub const PARTS: [Part; 6] = [
    Input(false, 1),
    Gate(Function::Inverter, &[0]),
    Gate(Function::And, &[0, 1]),
    Gate(Function::Or, &[0, 2]),
    Gate(Function::Nand, &[1, 2]),
    Gate(Function::Xor, &[3, 4]),
];

/// Its records, as they are read and written.
pub const RECORDS: &[u8] =
    b"\x01\0\x01\x21\0\0\x32\0\0\x01\0\x42\0\0\x02\0\x62\x01\0\x02\0\x52\x03\0\x04\0";
