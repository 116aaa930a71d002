//! Single calls: what they answer, and what they leave.

use self::Wanted::{Gate, Input};
use crate::standing::{Standing, same_entries};
use algebras::counted::Counted;
use algebras::counted::grade::CapFault;
use nets::fault::NetFault;
use std::process::Abort;
use std::test::*;

// A wire that is to be placed. Its fields, other than those of a `Call`, have no names, so that each call of the table is one line.
#[derive(Clone, Copy, Debug)]
enum Wanted {
    // An input, with its start and its changes.
    Input(u8, u8),
    // A gate, with its kind and its pins.
    Gate(u8, &'static [u16]),
}

// Inputs that stand, entries of the column, a call that places, and what it answers: side by side, as a row of a table.
#[derive(Clone, Copy, Debug)]
struct Placement {
    inputs: usize,
    entries: usize,
    call: Wanted,
    answer: Result<usize, NetFault>,
}

const PLACING: [Placement; 34] = [
    Placement {
        inputs: 3,
        entries: 9,
        call: Input(0, 0),
        answer: Ok(3),
    },
    Placement {
        inputs: 3,
        entries: 9,
        call: Input(1, 255),
        answer: Ok(3),
    },
    Placement {
        inputs: 3,
        entries: 9,
        call: Input(2, 1),
        answer: Err(NetFault::BadStart),
    },
    Placement {
        inputs: 3,
        entries: 9,
        call: Input(255, 0),
        answer: Err(NetFault::BadStart),
    },
    Placement {
        inputs: 3,
        entries: 9,
        call: Gate(0, &[0, 1]),
        answer: Err(NetFault::BadKind),
    },
    Placement {
        inputs: 3,
        entries: 9,
        call: Gate(9, &[0, 1]),
        answer: Err(NetFault::BadKind),
    },
    Placement {
        inputs: 3,
        entries: 9,
        call: Gate(1, &[0]),
        answer: Ok(3),
    },
    Placement {
        inputs: 3,
        entries: 9,
        call: Gate(1, &[]),
        answer: Err(NetFault::BadPinCount),
    },
    Placement {
        inputs: 3,
        entries: 9,
        call: Gate(1, &[0, 1]),
        answer: Err(NetFault::BadPinCount),
    },
    Placement {
        inputs: 3,
        entries: 9,
        call: Gate(2, &[0, 1]),
        answer: Err(NetFault::BadPinCount),
    },
    Placement {
        inputs: 3,
        entries: 9,
        call: Gate(3, &[0]),
        answer: Err(NetFault::BadPinCount),
    },
    Placement {
        inputs: 3,
        entries: 9,
        call: Gate(3, &[0, 1]),
        answer: Ok(3),
    },
    Placement {
        inputs: 3,
        entries: 9,
        call: Gate(3, &[0, 1, 2, 0, 1, 2, 0, 1]),
        answer: Ok(3),
    },
    Placement {
        inputs: 3,
        entries: 9,
        call: Gate(3, &[0, 1, 2, 0, 1, 2, 0, 1, 2]),
        answer: Err(NetFault::BadPinCount),
    },
    Placement {
        inputs: 3,
        entries: 9,
        call: Gate(8, &[0, 1, 2, 0, 1, 2, 0, 1]),
        answer: Ok(3),
    },
    Placement {
        inputs: 3,
        entries: 9,
        call: Gate(8, &[0, 1, 2, 0, 1, 2, 0, 1, 2]),
        answer: Err(NetFault::BadPinCount),
    },
    Placement {
        inputs: 3,
        entries: 9,
        call: Gate(3, &[0, 2]),
        answer: Ok(3),
    },
    Placement {
        inputs: 3,
        entries: 9,
        call: Gate(3, &[0, 3]),
        answer: Err(NetFault::HighPin),
    },
    Placement {
        inputs: 3,
        entries: 9,
        call: Gate(3, &[65535, 0]),
        answer: Err(NetFault::HighPin),
    },
    Placement {
        inputs: 0,
        entries: 9,
        call: Gate(1, &[0]),
        answer: Err(NetFault::HighPin),
    },
    // The column has to be longer than the wires that stand.
    Placement {
        inputs: 3,
        entries: 4,
        call: Input(0, 1),
        answer: Ok(3),
    },
    Placement {
        inputs: 3,
        entries: 3,
        call: Input(0, 1),
        answer: Err(NetFault::ShortColumn),
    },
    Placement {
        inputs: 3,
        entries: 4,
        call: Gate(3, &[0, 1]),
        answer: Ok(3),
    },
    Placement {
        inputs: 3,
        entries: 3,
        call: Gate(3, &[0, 1]),
        answer: Err(NetFault::ShortColumn),
    },
    Placement {
        inputs: 3,
        entries: 0,
        call: Gate(3, &[0, 1]),
        answer: Err(NetFault::ShortColumn),
    },
    // At most 512 wires stand.
    Placement {
        inputs: 511,
        entries: 512,
        call: Gate(3, &[0, 510]),
        answer: Ok(511),
    },
    Placement {
        inputs: 512,
        entries: 513,
        call: Gate(3, &[0, 510]),
        answer: Err(NetFault::Full),
    },
    Placement {
        inputs: 512,
        entries: 513,
        call: Input(0, 1),
        answer: Err(NetFault::Full),
    },
    // Of several faults the first is named: a full net, a short column, then a start; or a kind, a number of pins and a high pin.
    Placement {
        inputs: 512,
        entries: 512,
        call: Input(2, 1),
        answer: Err(NetFault::Full),
    },
    Placement {
        inputs: 512,
        entries: 512,
        call: Gate(0, &[]),
        answer: Err(NetFault::Full),
    },
    Placement {
        inputs: 3,
        entries: 3,
        call: Input(2, 1),
        answer: Err(NetFault::ShortColumn),
    },
    Placement {
        inputs: 3,
        entries: 3,
        call: Gate(0, &[]),
        answer: Err(NetFault::ShortColumn),
    },
    Placement {
        inputs: 3,
        entries: 9,
        call: Gate(9, &[9]),
        answer: Err(NetFault::BadKind),
    },
    Placement {
        inputs: 3,
        entries: 9,
        call: Gate(3, &[9]),
        answer: Err(NetFault::BadPinCount),
    },
];

// Inputs that stand, entries of the column, the wire that is asked for, and why it is refused, if it is.
#[derive(Clone, Copy, Debug)]
struct Question {
    inputs: usize,
    entries: usize,
    wire: usize,
    refusal: Option<NetFault>,
}

const ASKING: [Question; 9] = [
    Question {
        inputs: 3,
        entries: 9,
        wire: 0,
        refusal: None,
    },
    Question {
        inputs: 3,
        entries: 9,
        wire: 2,
        refusal: None,
    },
    Question {
        inputs: 3,
        entries: 9,
        wire: 3,
        refusal: Some(NetFault::NoSuchWire),
    },
    Question {
        inputs: 3,
        entries: 3,
        wire: 2,
        refusal: None,
    },
    Question {
        inputs: 3,
        entries: 2,
        wire: 0,
        refusal: Some(NetFault::ShortColumn),
    },
    Question {
        inputs: 3,
        entries: 2,
        wire: 3,
        refusal: Some(NetFault::NoSuchWire),
    },
    Question {
        inputs: 0,
        entries: 0,
        wire: 0,
        refusal: Some(NetFault::NoSuchWire),
    },
    Question {
        inputs: 512,
        entries: 512,
        wire: 511,
        refusal: None,
    },
    Question {
        inputs: 512,
        entries: 512,
        wire: 512,
        refusal: Some(NetFault::NoSuchWire),
    },
];

impl Placement {
    // Makes the call, and checks what it answers, and that a refusal changes nothing.
    fn check(&self, rt: &(impl Abort + AllocGlobal)) -> Result<(), Fail> {
        let Standing {
            mut net,
            mut column,
        } = Standing::with_inputs(rt.alloc(), self.inputs, self.entries)?;
        let before = column.clone()?;
        let answer = match self.call {
            Input(start, changes) => net.place_input(&mut column, start, changes),
            Gate(kind, pins) => net.place_gate(&mut column, kind, pins),
        };
        let wires = self
            .answer
            .map_or(self.inputs, |wire| wire.saturating_add(1));
        assert_eq!(rt; (answer, net.wires()), (self.answer, wires), "at {self:?}");
        assert!(rt;
            same_entries(&before, &column, self.inputs..wires),
            "at {self:?}"
        );
        Ok(())
    }
}

impl Question {
    // Looks the wire up and has it told, and checks whether both are refused.
    fn check(&self, rt: &(impl Abort + AllocGlobal)) -> Result<(), Fail> {
        let Standing { net, column } = Standing::with_inputs(
            rt.alloc(),
            self.inputs,
            self.entries,
        )?;
        assert_eq!(rt;
            net.look_up(&column, self.wire).err(),
            self.refusal,
            "at {self:?}"
        );
        assert_eq!(rt;
            net.tell(&column, self.wire).err(),
            self.refusal,
            "at {self:?}"
        );
        Ok(())
    }
}

#[test]
fn placing(rt: HostRuntime) -> Result<(), Fail> {
    for placement in PLACING {
        placement.check(&rt)?;
    }
    Ok(())
}

#[test]
fn asking(rt: HostRuntime) -> Result<(), Fail> {
    for question in ASKING {
        question.check(&rt)?;
    }
    Ok(())
}

#[test]
fn caps(rt: HostRuntime) -> Result<(), Fail> {
    for (cap, answer) in [
        (0, Err(CapFault::TooSmall)),
        (1, Err(CapFault::TooSmall)),
        (2, Ok(2)),
        (65535, Ok(65535)),
    ] {
        assert_eq!(rt;
            Counted::new(cap).map(|counted| counted.cap()),
            answer,
            "at {cap}"
        );
    }
    Ok(())
}
