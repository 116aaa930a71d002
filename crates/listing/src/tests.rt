//! Listings and refusals, byte for byte.

use crate::list::{Report, list};
use std::test::Fail;

/// An input, and what is printed for it: a listing, or a refusal.
struct Case {
    input: &'static [u8],
    text: Result<&'static str, &'static str>,
}

const CASES: [Case; 22] = [
    // Caps.
    Case {
        input: b"",
        text: Err("refused 12 input 0 0 0\n"),
    },
    Case {
        input: b"\x04",
        text: Err("refused 12 input 0 0 0\n"),
    },
    Case {
        input: b"\x00\x00",
        text: Err("refused 1 algebra 0 0 0\n"),
    },
    Case {
        input: b"\x01\x00\x99",
        text: Err("refused 1 algebra 0 0 0\n"),
    },
    Case {
        input: b"\x02\x00",
        text: Ok("wires 0 cap 2\n"),
    },
    Case {
        input: b"\x04\x00",
        text: Ok("wires 0 cap 4\n"),
    },
    Case {
        input: b"\xff\xff",
        text: Ok("wires 0 cap 65535\n"),
    },
    // Kind bytes that are no record's.
    Case {
        input: b"\x04\x00\x00",
        text: Err("refused 11 record 0 0 0\n"),
    },
    Case {
        input: b"\x04\x00\x02",
        text: Err("refused 11 record 0 0 0\n"),
    },
    Case {
        input: b"\x04\x00\x01\x00\x01\x92\x00",
        text: Err("refused 11 record 3 1 0\n"),
    },
    // Bodies that are cut.
    Case {
        input: b"\x04\x00\x01",
        text: Err("refused 12 record 0 0 0\n"),
    },
    Case {
        input: b"\x04\x00\x01\x00",
        text: Err("refused 12 record 0 0 0\n"),
    },
    Case {
        input: b"\x04\x00\x01\x00\x01\x21\x00",
        text: Err("refused 12 record 3 1 0\n"),
    },
    // What the net refuses.
    Case {
        input: b"\x04\x00\x01\x02\x00",
        text: Err("refused 4 net 0 0 0\n"),
    },
    Case {
        input: b"\x04\x00\x01\x00\x01\x31\x00\x00",
        text: Err("refused 8 net 3 1 0\n"),
    },
    Case {
        input: b"\x04\x00\x01\x00\x01\x10",
        text: Err("refused 8 net 3 1 0\n"),
    },
    Case {
        input: b"\x04\x00\x01\x00\x01\x32\x00\x00\x01\x00",
        text: Err("refused 9 net 3 1 1\n"),
    },
    Case {
        input: b"\x04\x00\x01\x00\x01\x21\x00\x00\x33\x00\x00\x05\x00\x02\x00",
        text: Err("refused 9 net 6 2 1\n"),
    },
    // Wires of each verdict, and counts below, at and above the cap.
    Case {
        input: b"\x04\x00\x01\x01\x00",
        text: Ok("wires 1 cap 4\n0 1 1 0 = 1\n"),
    },
    Case {
        input: b"\x04\x00\x01\x00\x02",
        text: Ok("wires 1 cap 4\n0 0 0 2 = 2\n"),
    },
    Case {
        input: b"\x04\x00\x01\x01\x04",
        text: Ok("wires 1 cap 4\n0 1 1 4 + 2\n"),
    },
    Case {
        input: b"\x02\x00\x01\x00\xff",
        text: Ok("wires 1 cap 2\n0 0 1 2 + 4\n"),
    },
];

#[test]
fn cases(rt: HostRuntime) -> Result<(), Fail> {
    for case in CASES.iter() {
        let report = list(rt.alloc(), case.input)?;
        let text = match report {
            Report::Listing(_) => Ok(report.text()),
            Report::Refusal(_) => Err(report.text()),
        };
        assert_eq!(rt; text, case.text);
    }
    Ok(())
}

/// An input of so many bytes: the cap 4, then inputs of three bytes each.
fn long_input(rt: &HostRuntime, bytes: usize) -> Result<Vec<u8>, Fail> {
    let mut input = Vec::new(rt.alloc());
    input.push(4)?;
    input.push(0)?;
    for byte in [1, 0, 0].iter().cycle().take(bytes.saturating_sub(2)) {
        input.push(*byte)?;
    }
    Ok(input)
}

#[test]
fn long_inputs(rt: HostRuntime) -> Result<(), Fail> {
    let longest = list(rt.alloc(), long_input(&rt, 16_384)?.as_slice())?;
    assert_eq!(rt; longest.text(), "refused 5 net 1536 512 0\n");
    let too_long = list(rt.alloc(), long_input(&rt, 16_385)?.as_slice())?;
    assert_eq!(rt; too_long.text(), "refused 13 input 0 0 0\n");
    let full = list(rt.alloc(), long_input(&rt, 1538)?.as_slice())?;
    assert!(rt; matches!(full, Report::Listing(_)));
    Ok(())
}
