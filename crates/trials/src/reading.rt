//! Records that are read, and records that are refused at their place.

use crate::histories::records;
use crate::net_a;
use crate::standing::{Standing, same_entries};
use nets::fault::{Layer, NetFault, ReadFault, Reason};
use std::ops::Range;
use std::process::Abort;
use std::test::*;

// Where each record of net A begins and ends.
const RECORDS_OF_A: [Range<usize>; 6] = [0..3, 3..6, 6..11, 11..16, 16..21, 21..26];

// Inputs that stand, entries of the column, bytes that are read, and how many records they are.
#[derive(Clone, Copy, Debug)]
struct Read<'a> {
    inputs: usize,
    entries: usize,
    bytes: &'a [u8],
    records: usize,
}

const READ: [Read<'static>; 6] = [
    Read {
        inputs: 0,
        entries: 0,
        bytes: &[],
        records: 0,
    },
    Read {
        inputs: 0,
        entries: 9,
        bytes: &[],
        records: 0,
    },
    Read {
        inputs: 3,
        entries: 0,
        bytes: &[],
        records: 0,
    },
    Read {
        inputs: 0,
        entries: 1,
        bytes: &[0x01, 1, 255],
        records: 1,
    },
    Read {
        inputs: 2,
        entries: 3,
        bytes: &[0x32, 0, 0, 1, 0],
        records: 1,
    },
    Read {
        inputs: 2,
        entries: 9,
        bytes: &[0x43, 0, 0, 1, 0, 0, 0, 0x11, 2, 0],
        records: 2,
    },
];

// Inputs that stand, entries of the column, bytes that are not all read, and the refusal.
#[derive(Clone, Copy, Debug)]
struct Refused<'a> {
    inputs: usize,
    entries: usize,
    bytes: &'a [u8],
    fault: ReadFault,
}

const REFUSED: [Refused<'static>; 29] = [
    // A byte that begins no record.
    Refused {
        inputs: 0,
        entries: 9,
        bytes: &[0x00],
        fault: ReadFault {
            reason: Reason::UnknownKind,
            offset: 0,
            wire: 0,
            pin: 0,
        },
    },
    Refused {
        inputs: 2,
        entries: 9,
        bytes: &[0x01, 0, 1, 0x02, 0, 1],
        fault: ReadFault {
            reason: Reason::UnknownKind,
            offset: 3,
            wire: 3,
            pin: 0,
        },
    },
    Refused {
        inputs: 2,
        entries: 9,
        bytes: &[0x01, 0, 1, 0x21, 2, 0, 0x90],
        fault: ReadFault {
            reason: Reason::UnknownKind,
            offset: 6,
            wire: 4,
            pin: 0,
        },
    },
    // A start that is neither 0 nor 1.
    Refused {
        inputs: 0,
        entries: 9,
        bytes: &[0x01, 2, 0],
        fault: ReadFault {
            reason: Reason::Refused(NetFault::BadStart),
            offset: 0,
            wire: 0,
            pin: 0,
        },
    },
    Refused {
        inputs: 1,
        entries: 9,
        bytes: &[0x01, 1, 0, 0x01, 255, 0],
        fault: ReadFault {
            reason: Reason::Refused(NetFault::BadStart),
            offset: 3,
            wire: 2,
            pin: 0,
        },
    },
    // A number of pins that the kind does not allow.
    Refused {
        inputs: 2,
        entries: 9,
        bytes: &[0x31, 0, 0],
        fault: ReadFault {
            reason: Reason::Refused(NetFault::BadPinCount),
            offset: 0,
            wire: 2,
            pin: 0,
        },
    },
    Refused {
        inputs: 2,
        entries: 9,
        bytes: &[0x31, 5, 0],
        fault: ReadFault {
            reason: Reason::Refused(NetFault::BadPinCount),
            offset: 0,
            wire: 2,
            pin: 0,
        },
    },
    Refused {
        inputs: 2,
        entries: 9,
        bytes: &[0x22, 0, 0, 1, 0],
        fault: ReadFault {
            reason: Reason::Refused(NetFault::BadPinCount),
            offset: 0,
            wire: 2,
            pin: 0,
        },
    },
    Refused {
        inputs: 2,
        entries: 9,
        bytes: b"\x39\0\0\0\0\0\0\0\0\0\0\0\0\0\0\0\0\0\0",
        fault: ReadFault {
            reason: Reason::Refused(NetFault::BadPinCount),
            offset: 0,
            wire: 2,
            pin: 0,
        },
    },
    // A pin that names its own wire or a higher one; the first is named.
    Refused {
        inputs: 0,
        entries: 9,
        bytes: &[0x11, 0, 0],
        fault: ReadFault {
            reason: Reason::Refused(NetFault::HighPin),
            offset: 0,
            wire: 0,
            pin: 0,
        },
    },
    Refused {
        inputs: 2,
        entries: 9,
        bytes: &[0x32, 2, 0, 0, 0],
        fault: ReadFault {
            reason: Reason::Refused(NetFault::HighPin),
            offset: 0,
            wire: 2,
            pin: 0,
        },
    },
    Refused {
        inputs: 2,
        entries: 9,
        bytes: &[0x32, 0, 0, 0, 1],
        fault: ReadFault {
            reason: Reason::Refused(NetFault::HighPin),
            offset: 0,
            wire: 2,
            pin: 1,
        },
    },
    Refused {
        inputs: 2,
        entries: 9,
        bytes: &[0x53, 0, 0, 1, 0, 2, 0],
        fault: ReadFault {
            reason: Reason::Refused(NetFault::HighPin),
            offset: 0,
            wire: 2,
            pin: 2,
        },
    },
    Refused {
        inputs: 0,
        entries: 9,
        bytes: &[0x01, 0, 1, 0x01, 1, 1, 0x43, 0, 0, 5, 0, 7, 0],
        fault: ReadFault {
            reason: Reason::Refused(NetFault::HighPin),
            offset: 6,
            wire: 2,
            pin: 1,
        },
    },
    Refused {
        inputs: 2,
        entries: 9,
        bytes: &[0x32, 0, 0, 1, 0, 0x33, 0, 0, 2, 0, 3, 0],
        fault: ReadFault {
            reason: Reason::Refused(NetFault::HighPin),
            offset: 5,
            wire: 3,
            pin: 2,
        },
    },
    // A column that is too short.
    Refused {
        inputs: 0,
        entries: 0,
        bytes: &[0x01, 0, 1],
        fault: ReadFault {
            reason: Reason::Refused(NetFault::ShortColumn),
            offset: 0,
            wire: 0,
            pin: 0,
        },
    },
    Refused {
        inputs: 2,
        entries: 2,
        bytes: &[0x01, 0, 1],
        fault: ReadFault {
            reason: Reason::Refused(NetFault::ShortColumn),
            offset: 0,
            wire: 2,
            pin: 0,
        },
    },
    Refused {
        inputs: 2,
        entries: 3,
        bytes: &[0x01, 0, 1, 0x32, 0, 0, 1, 0],
        fault: ReadFault {
            reason: Reason::Refused(NetFault::ShortColumn),
            offset: 3,
            wire: 3,
            pin: 0,
        },
    },
    // A net of 512 wires.
    Refused {
        inputs: 512,
        entries: 513,
        bytes: &[0x01, 0, 1],
        fault: ReadFault {
            reason: Reason::Refused(NetFault::Full),
            offset: 0,
            wire: 512,
            pin: 0,
        },
    },
    Refused {
        inputs: 511,
        entries: 513,
        bytes: &[0x01, 0, 1, 0x32, 0, 0, 1, 0],
        fault: ReadFault {
            reason: Reason::Refused(NetFault::Full),
            offset: 3,
            wire: 512,
            pin: 0,
        },
    },
    // Of several faults the first is named: an unknown kind, a cut body, a full net, a short column, then the others.
    Refused {
        inputs: 512,
        entries: 512,
        bytes: &[0x90, 0],
        fault: ReadFault {
            reason: Reason::UnknownKind,
            offset: 0,
            wire: 512,
            pin: 0,
        },
    },
    Refused {
        inputs: 512,
        entries: 512,
        bytes: &[0x01, 2],
        fault: ReadFault {
            reason: Reason::CutShort,
            offset: 0,
            wire: 512,
            pin: 0,
        },
    },
    Refused {
        inputs: 512,
        entries: 512,
        bytes: &[0x01, 2, 0],
        fault: ReadFault {
            reason: Reason::Refused(NetFault::Full),
            offset: 0,
            wire: 512,
            pin: 0,
        },
    },
    Refused {
        inputs: 512,
        entries: 512,
        bytes: &[0x32, 0, 2, 0, 2],
        fault: ReadFault {
            reason: Reason::Refused(NetFault::Full),
            offset: 0,
            wire: 512,
            pin: 0,
        },
    },
    Refused {
        inputs: 2,
        entries: 2,
        bytes: &[0x90, 0],
        fault: ReadFault {
            reason: Reason::UnknownKind,
            offset: 0,
            wire: 2,
            pin: 0,
        },
    },
    Refused {
        inputs: 2,
        entries: 2,
        bytes: &[0x32, 9, 0, 9],
        fault: ReadFault {
            reason: Reason::CutShort,
            offset: 0,
            wire: 2,
            pin: 0,
        },
    },
    Refused {
        inputs: 2,
        entries: 2,
        bytes: &[0x01, 2, 0],
        fault: ReadFault {
            reason: Reason::Refused(NetFault::ShortColumn),
            offset: 0,
            wire: 2,
            pin: 0,
        },
    },
    Refused {
        inputs: 2,
        entries: 2,
        bytes: &[0x31, 9, 0],
        fault: ReadFault {
            reason: Reason::Refused(NetFault::ShortColumn),
            offset: 0,
            wire: 2,
            pin: 0,
        },
    },
    Refused {
        inputs: 2,
        entries: 2,
        bytes: &[0x32, 9, 0, 9, 0],
        fault: ReadFault {
            reason: Reason::Refused(NetFault::ShortColumn),
            offset: 0,
            wire: 2,
            pin: 0,
        },
    },
];

impl Read<'_> {
    // Reads the bytes, and checks that they are whole records, and that only the entries of their wires change.
    fn check(&self, rt: &(impl Abort + AllocGlobal)) -> Result<(), Fail> {
        let mut standing = Standing::with_inputs(rt.alloc(), self.inputs, self.entries)?;
        let before = standing.column.clone()?;
        let records = standing.read(self.bytes)?;
        let wires = self.inputs.saturating_add(self.records);
        assert_eq!(rt;
            (records, standing.net.wires()),
            (self.records, wires),
            "at {self:?}"
        );
        assert!(rt;
            same_entries(&before, &standing.column, self.inputs..wires),
            "at {self:?}"
        );
        Ok(())
    }
}

impl Refused<'_> {
    // Reads the bytes, and checks the refusal, and that the records before the refused one stay as they are read alone.
    fn check(&self, rt: &(impl Abort + AllocGlobal)) -> Result<(), Fail> {
        let mut standing = Standing::with_inputs(rt.alloc(), self.inputs, self.entries)?;
        let Err(fault) = standing.read(self.bytes) else {
            return Err(Fail::new("all records are read"));
        };
        assert_eq!(rt; fault, self.fault, "at {self:?}");
        assert_eq!(rt;
            (fault.number(), fault.layer()),
            number_and_layer(self.fault.reason),
            "at {self:?}"
        );
        let mut alone = Standing::with_inputs(rt.alloc(), self.inputs, self.entries)?;
        let before = self.bytes.get(..self.fault.offset).ok_or("no such offset")?;
        alone.read(before)?;
        assert_eq!(rt;
            (standing.net.wires(), alone.net.wires()),
            (self.fault.wire, self.fault.wire),
            "at {self:?}"
        );
        assert!(rt;
            same_entries(&alone.column, &standing.column, 0..0),
            "at {self:?}"
        );
        Ok(())
    }
}

// The number and the layer of a refusal.
fn number_and_layer(reason: Reason) -> (u8, Layer) {
    match reason {
        Reason::UnknownKind => (11, Layer::Record),
        Reason::CutShort => (12, Layer::Record),
        Reason::Refused(NetFault::NoSuchWire) => (2, Layer::Net),
        Reason::Refused(NetFault::BadStart) => (4, Layer::Net),
        Reason::Refused(NetFault::Full) => (5, Layer::Net),
        Reason::Refused(NetFault::ShortColumn) => (6, Layer::Net),
        Reason::Refused(NetFault::BadKind) => (7, Layer::Net),
        Reason::Refused(NetFault::BadPinCount) => (8, Layer::Net),
        Reason::Refused(NetFault::HighPin) => (9, Layer::Net),
        Reason::Refused(NetFault::ShortBuffer) => (14, Layer::Net),
    }
}

// The first bytes of the records of net A.
fn first(bytes: usize) -> Result<&'static [u8], Fail> {
    Ok(net_a::RECORDS.get(..bytes).ok_or("no such length")?)
}

#[test]
fn whole_records(rt: HostRuntime) -> Result<(), Fail> {
    for read in READ {
        read.check(&rt)?;
    }
    Ok(())
}

#[test]
fn refused_records(rt: HostRuntime) -> Result<(), Fail> {
    for refused in REFUSED {
        refused.check(&rt)?;
    }
    Ok(())
}

// Each kind byte alone: it begins no record, its body is cut, or it is a gate without pins.
#[test]
fn kind_bytes(rt: HostRuntime) -> Result<(), Fail> {
    for kind in 0..=255 {
        let reason = match kind {
            0x01 => Reason::CutShort,
            0x00..=0x0f | 0x90..=0xff => Reason::UnknownKind,
            _ if kind % 16 == 0 => Reason::Refused(NetFault::BadPinCount),
            _ => Reason::CutShort,
        };
        let refused = Refused {
            inputs: 2,
            entries: 9,
            bytes: &[kind],
            fault: ReadFault {
                reason,
                offset: 0,
                wire: 2,
                pin: 0,
            },
        };
        refused.check(&rt)?;
    }
    Ok(())
}

// Net A cut at every length: before a record all is read, and within it the record is refused.
#[test]
fn cut_records(rt: HostRuntime) -> Result<(), Fail> {
    assert_eq!(rt;
        records(rt.alloc(), &net_a::PARTS)?.as_slice(),
        net_a::RECORDS
    );
    for (wire, record) in RECORDS_OF_A.iter().enumerate() {
        let whole = Read {
            inputs: 0,
            entries: 6,
            bytes: first(record.start)?,
            records: wire,
        };
        whole.check(&rt)?;
        for cut in (record.start..record.end).skip(1) {
            let refused = Refused {
                inputs: 0,
                entries: 6,
                bytes: first(cut)?,
                fault: ReadFault {
                    reason: Reason::CutShort,
                    offset: record.start,
                    wire,
                    pin: 0,
                },
            };
            refused.check(&rt)?;
        }
    }
    let all = Read {
        inputs: 0,
        entries: 6,
        bytes: net_a::RECORDS,
        records: 6,
    };
    all.check(&rt)
}

#[test]
fn records_of_a_full_net(rt: HostRuntime) -> Result<(), Fail> {
    let mut bytes = Vec::new(rt.alloc());
    for _ in 0..512 {
        bytes.extend_from_slice(&[0x01, 0, 1])?;
    }
    let full = Read {
        inputs: 0,
        entries: 512,
        bytes: &bytes,
        records: 512,
    };
    full.check(&rt)?;
    bytes.extend_from_slice(&[0x01, 0, 1])?;
    let overfull = Refused {
        inputs: 0,
        entries: 513,
        bytes: &bytes,
        fault: ReadFault {
            reason: Reason::Refused(NetFault::Full),
            offset: 1536,
            wire: 512,
            pin: 0,
        },
    };
    overfull.check(&rt)
}
