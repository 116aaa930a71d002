//! Nets whose words are worked by hand.

use crate::histories::try_net;
use crate::net_a;
use crate::simulator::Part::{Gate, Input};
use crate::simulator::{Function, Part};
use std::test::*;

// A net, and the words of its wires: beside it, since other tests have net A without words.
#[derive(Clone, Copy)]
struct Worked {
    net: &'static [Part],
    words: &'static [&'static str],
}

const WORKED: [Worked; 8] = [
    // Net A: a static hazard, a dynamic one, and a wire that changes five times, all from one change.
    Worked {
        net: &net_a::PARTS,
        words: &["01", "10", "010", "0101", "101", "101010"],
    },
    Worked {
        net: &[Input(false, 2), Input(true, 3), Gate(Function::Or, &[0, 1])],
        words: &["010", "1010", "101010"],
    },
    Worked {
        net: &[Input(false, 1), Gate(Function::And, &[0, 0])],
        words: &["01", "01"],
    },
    Worked {
        net: &[Input(true, 2), Input(true, 2), Gate(Function::Or, &[0, 1])],
        words: &["101", "101", "101"],
    },
    Worked {
        net: &[Input(false, 3), Input(true, 0), Gate(Function::Or, &[0, 1])],
        words: &["0101", "1", "1"],
    },
    Worked {
        net: &[
            Input(false, 3),
            Input(false, 0),
            Gate(Function::Or, &[0, 1]),
        ],
        words: &["0101", "0", "0101"],
    },
    Worked {
        net: &[Input(false, 1), Gate(Function::Xor, &[0, 0])],
        words: &["01", "010"],
    },
    Worked {
        net: &[
            Input(false, 1),
            Input(true, 1),
            Gate(Function::And, &[0, 0, 1]),
        ],
        words: &["01", "10", "010"],
    },
];

#[test]
fn worked_nets(rt: HostRuntime) -> Result<(), Fail> {
    for worked in WORKED {
        let histories = try_net(&rt, worked.net)?;
        assert_eq!(rt; histories.len(), worked.words.len());
        for (history, word) in histories.iter().zip(worked.words.iter()) {
            let played = history.to_string(rt.alloc())?;
            assert_eq!(rt; played.as_str(), *word);
        }
    }
    Ok(())
}
