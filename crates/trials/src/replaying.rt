//! Lists of calls, refused ones among them, played on an empty net.

use crate::graded::Graded;
use crate::net_a;
use crate::simulator::play;
use crate::standing::{Standing, blank_column};
use algebras::counted::Counted;
use algebras::eight::Eight;
use algebras::five::Five;
use nets::call::{Answer, Call};
use nets::fault::{NetFault, Reason};
use nets::net::play::{Played, replay};
use std::process::Abort;
use std::test::*;

// Calls that make net A of an empty net, by placing and by reading, and calls that are refused.
const CALLS: [Call<'static>; 9] = [
    Call::PlaceGate {
        kind: 1,
        pins: &[0],
    },
    Call::PlaceInput {
        start: 0,
        changes: 1,
    },
    Call::PlaceInput {
        start: 2,
        changes: 1,
    },
    Call::Read(b"\x21\0\0\x32\0\0\x01\0\x90\0"),
    Call::Read(b""),
    Call::PlaceGate {
        kind: 4,
        pins: &[0, 2],
    },
    Call::Read(b"\x62\x01\0\x02\0\x52\x03\0\x04\0"),
    Call::Read(b"\x12\0\0"),
    Call::PlaceGate {
        kind: 3,
        pins: &[0, 6],
    },
];

// Entries of the column, how many wires the calls place, and what each call says. A column of four has room for the first four wires, and
// one of none for no wire.
#[derive(Clone, Copy)]
struct Replay {
    entries: usize,
    wires: usize,
    answers: [Result<usize, Reason>; 9],
}

const REPLAYS: [Replay; 3] = [
    Replay {
        entries: 8,
        wires: 6,
        answers: [
            Err(Reason::Refused(NetFault::HighPin)),
            Ok(0),
            Err(Reason::Refused(NetFault::BadStart)),
            Err(Reason::UnknownKind),
            Ok(0),
            Ok(3),
            Ok(2),
            Err(Reason::CutShort),
            Err(Reason::Refused(NetFault::HighPin)),
        ],
    },
    Replay {
        entries: 4,
        wires: 4,
        answers: [
            Err(Reason::Refused(NetFault::HighPin)),
            Ok(0),
            Err(Reason::Refused(NetFault::BadStart)),
            Err(Reason::UnknownKind),
            Ok(0),
            Ok(3),
            Err(Reason::Refused(NetFault::ShortColumn)),
            Err(Reason::CutShort),
            Err(Reason::Refused(NetFault::ShortColumn)),
        ],
    },
    Replay {
        entries: 0,
        wires: 0,
        answers: [
            Err(Reason::Refused(NetFault::ShortColumn)),
            Err(Reason::Refused(NetFault::ShortColumn)),
            Err(Reason::Refused(NetFault::ShortColumn)),
            Err(Reason::Refused(NetFault::ShortColumn)),
            Ok(0),
            Err(Reason::Refused(NetFault::ShortColumn)),
            Err(Reason::Refused(NetFault::ShortColumn)),
            Err(Reason::CutShort),
            Err(Reason::Refused(NetFault::ShortColumn)),
        ],
    },
];

// What a call says: a number, or why it is refused. An answer of either kind, so no conversion of one type.
fn said(answer: &Answer) -> Result<usize, Reason> {
    match answer {
        Answer::Placed(placed) => placed.map_err(Reason::Refused),
        Answer::Read(read) => read.map_err(|fault| fault.reason),
    }
}

// Plays the calls with columns of several lengths, and holds what they say to the table, and each wire to its longest history.
fn try_replay<L: Graded + Copy>(rt: &(impl Abort + AllocGlobal), algebra: L) -> Result<(), Fail> {
    let histories = play(rt.alloc(), &net_a::PARTS)?;
    for case in REPLAYS {
        let mut column = blank_column(rt.alloc(), &algebra, case.entries)?;
        let Played { net, answers } = replay(rt.alloc(), algebra, &mut column, &CALLS)?;
        let said: Vec<_> = answers.iter().map(said).collect(rt.alloc())?;
        assert_eq!(rt; net.wires(), case.wires, "at {} entries", case.entries);
        assert_eq!(rt;
            said.as_slice(),
            case.answers.as_slice(),
            "at {} entries",
            case.entries
        );
        let placed = histories.get(..case.wires).ok_or("no such wires")?;
        Standing { net, column }.check_grades(rt, &algebra, placed)?;
    }
    Ok(())
}

#[test]
fn replays(rt: HostRuntime) -> Result<(), Fail> {
    try_replay(&rt, Counted::new(4)?)?;
    try_replay(&rt, Eight)?;
    try_replay(&rt, Five)
}
