//! The numbers of refusals and verdicts, and the layer of each refusal.

use algebras::counted::grade::CapFault;
use algebras::verdict::Verdict;
use nets::fault::{Layer, NetFault, ReadFault, Reason};
use std::test::*;

const VERDICTS: [(Verdict, u8); 4] = [
    (Verdict::Steady, 1),
    (Verdict::StaticHazard, 2),
    (Verdict::CleanChange, 3),
    (Verdict::DynamicHazard, 4),
];

const NET_FAULTS: [(NetFault, u8); 8] = [
    (NetFault::NoSuchWire, 2),
    (NetFault::BadStart, 4),
    (NetFault::Full, 5),
    (NetFault::ShortColumn, 6),
    (NetFault::BadKind, 7),
    (NetFault::BadPinCount, 8),
    (NetFault::HighPin, 9),
    (NetFault::ShortBuffer, 14),
];

// The refusals that are a reader's own.
const RECORD_FAULTS: [(Reason, u8); 2] = [(Reason::UnknownKind, 11), (Reason::CutShort, 12)];

#[test]
fn numbers(rt: HostRuntime) {
    for (verdict, number) in VERDICTS {
        assert_eq!(rt; u8::from(verdict), number);
    }
    assert_eq!(rt; u8::from(CapFault::TooSmall), 1);
    for (fault, number) in NET_FAULTS {
        let read = ReadFault::from(fault);
        assert_eq!(rt; (u8::from(fault), read.number()), (number, number));
        assert_eq!(rt; read.layer(), Layer::Net);
    }
    for (reason, number) in RECORD_FAULTS {
        let read = ReadFault::from(reason);
        assert_eq!(rt; (read.number(), read.layer()), (number, Layer::Record));
    }
}
