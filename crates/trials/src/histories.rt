//! Every wire of a net has the longest history that the machine of arrivals gives it.

use crate::graded::Graded;
use crate::simulator::Part::{Gate, Input};
use crate::simulator::{Function, History, Part, play};
use crate::standing::Standing;
use algebras::counted::Counted;
use algebras::eight::Eight;
use algebras::five::Five;
use algebras::telling::Telling;
use std::alloc::Global;
use std::process::Abort;
use std::test::*;

// The entries of each column, which are more than the wires of any net here.
const ENTRIES: usize = 8;

// The kinds of gate that take several pins.
const OF_SEVERAL: [Function; 6] = [
    Function::And,
    Function::Or,
    Function::Xor,
    Function::Nand,
    Function::Nor,
    Function::Xnor,
];

// The inputs of at most three changes, of which those without a change are the constants.
const INPUTS: [Part; 8] = [
    Input(false, 0),
    Input(true, 0),
    Input(false, 1),
    Input(true, 1),
    Input(false, 2),
    Input(true, 2),
    Input(false, 3),
    Input(true, 3),
];

// Some inputs for a third pin.
const THIRD: [Part; 3] = [Input(false, 1), Input(true, 0), Input(true, 2)];

// Nets of several gates, most with wires that part and meet again.
const NETS: [&[Part]; 7] = [
    // A chain of two gates.
    &[
        Input(false, 3),
        Input(true, 2),
        Gate(Function::And, &[0, 1]),
        Input(false, 1),
        Gate(Function::Or, &[2, 3]),
    ],
    &[
        Input(false, 3),
        Input(true, 2),
        Gate(Function::Nor, &[0, 1]),
        Gate(Function::Xnor, &[2, 0]),
    ],
    &[
        Input(true, 3),
        Gate(Function::Buffer, &[0]),
        Gate(Function::Inverter, &[1]),
        Gate(Function::And, &[1, 2]),
    ],
    // One wire on both pins.
    &[
        Input(false, 1),
        Gate(Function::Xor, &[0, 0]),
        Gate(Function::Or, &[1, 0]),
        Gate(Function::Nand, &[1, 2]),
    ],
    &[
        Input(true, 2),
        Input(false, 1),
        Gate(Function::Nor, &[0, 1]),
        Gate(Function::Inverter, &[2]),
        Gate(Function::Xnor, &[3, 0, 1]),
    ],
    // A choice between two inputs that stay, by one that changes twice.
    &[
        Input(true, 0),
        Input(true, 0),
        Input(false, 2),
        Gate(Function::Inverter, &[2]),
        Gate(Function::And, &[0, 2]),
        Gate(Function::And, &[1, 3]),
        Gate(Function::Or, &[4, 5]),
    ],
    // The exclusive sum, by four NAND gates.
    &[
        Input(false, 1),
        Input(true, 1),
        Gate(Function::Nand, &[0, 1]),
        Gate(Function::Nand, &[0, 2]),
        Gate(Function::Nand, &[1, 2]),
        Gate(Function::Nand, &[3, 4]),
    ],
];

// The records of a net.
pub(crate) fn records(heap: Global, parts: &[Part]) -> Result<Vec<u8>, Fail> {
    let mut bytes = Vec::new(heap);
    for part in parts {
        match part {
            Input(start, changes) => {
                bytes.extend_from_slice(&[0x01, u8::from(*start), *changes])?;
            }
            Gate(function, pins) => {
                bytes.push((u8::from(*function) << 4) | u8::try_from(pins.len())?)?;
                for pin in pins.iter() {
                    bytes.extend_from_slice(&pin.to_le_bytes())?;
                }
            }
        }
    }
    Ok(bytes)
}

// Checks the grades of all wires of a net that is placed.
fn try_placed<L: Graded + Copy>(
    rt: &(impl Abort + AllocGlobal),
    algebra: L,
    parts: &[Part],
    histories: &[History],
) -> Result<(), Fail> {
    let mut standing = Standing::open(rt.alloc(), algebra, ENTRIES)?;
    standing.place(parts)?;
    standing.check_grades(rt, &algebra, histories)
}

// Checks what is told of all wires of a net that is read.
fn try_read<L: Telling + Copy>(
    rt: &(impl Abort + AllocGlobal),
    algebra: L,
    bytes: &[u8],
    histories: &[History],
) -> Result<(), Fail> {
    let mut standing = Standing::open(rt.alloc(), algebra, ENTRIES)?;
    standing.read(bytes)?;
    standing.check_told(rt, histories)
}

/// Plays a net, holds it to what is played under every algebra, and answers what is played.
pub(crate) fn try_net(
    rt: &(impl Abort + AllocGlobal),
    parts: &[Part],
) -> Result<Vec<History>, Fail> {
    let histories = play(rt.alloc(), parts)?;
    let bytes = records(rt.alloc(), parts)?;
    for cap in [2, 4, 1000] {
        let counted = Counted::new(cap)?;
        try_placed(rt, counted, parts, &histories)?;
        try_read(rt, counted, &bytes, &histories)?;
    }
    try_placed(rt, Eight, parts, &histories)?;
    try_read(rt, Eight, &bytes, &histories)?;
    try_placed(rt, Five, parts, &histories)?;
    Ok(histories)
}

#[test]
fn gates_of_one_pin(rt: HostRuntime) -> Result<(), Fail> {
    for first in INPUTS {
        let net = [
            first,
            Gate(Function::Buffer, &[0]),
            Gate(Function::Inverter, &[0]),
        ];
        try_net(&rt, &net)?;
    }
    Ok(())
}

#[test]
fn gates_of_several_pins(rt: HostRuntime) -> Result<(), Fail> {
    for function in OF_SEVERAL {
        for first in INPUTS {
            for second in INPUTS {
                try_net(&rt, &[first, second, Gate(function, &[0, 1])])?;
                try_net(&rt, &[first, second, Gate(function, &[0, 1, 0])])?;
                for third in THIRD {
                    let gate = Gate(function, &[0, 1, 2]);
                    try_net(&rt, &[first, second, third, gate])?;
                }
            }
        }
    }
    Ok(())
}

#[test]
fn several_gates(rt: HostRuntime) -> Result<(), Fail> {
    for net in NETS {
        try_net(&rt, net)?;
    }
    Ok(())
}
