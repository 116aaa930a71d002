//! Nets that are written out, and read back.

use crate::net_a;
use crate::standing::{Standing, same_entries};
use nets::fault::NetFault;
use std::process::Abort;
use std::test::*;

// Records, as they are read and written: none, inputs, net A, and gates of one pin and of eight.
const RECORDS: [&[u8]; 4] = [
    b"",
    b"\x01\0\x01\x01\x01\xff",
    net_a::RECORDS,
    b"\x01\x01\0\x11\0\0\x88\0\0\x01\0\x01\0\0\0\x01\0\0\0\0\0\x01\0",
];

// What stands in a buffer before it is written.
const BLANK: u8 = 0xaa;

// Whether a buffer holds bytes at its front, and is blank after them.
fn holds(buffer: &[u8], bytes: &[u8]) -> bool {
    buffer
        .strip_prefix(bytes)
        .is_some_and(|rest| rest.iter().all(|b| *b == BLANK))
}

// Writes the net of records into buffers that are too short, just long enough and longer, and reads it back.
fn try_write(rt: &(impl Abort + AllocGlobal), records: &[u8]) -> Result<(), Fail> {
    let mut standing = Standing::with_inputs(rt.alloc(), 0, 513)?;
    let read = standing.read(records)?;
    for more in 0..3 {
        let mut buffer = vec![in rt.alloc(); BLANK; records.len().saturating_add(more)]?;
        assert_eq!(rt; standing.net.write(&mut buffer)?, records.len());
        assert!(rt; holds(&buffer, records));
    }
    if let Some(less) = records.len().checked_sub(1) {
        let mut short = vec![in rt.alloc(); BLANK; less]?;
        assert_eq!(rt; standing.net.write(&mut short), Err(NetFault::ShortBuffer));
        assert!(rt; holds(&short, b""));
    }
    let mut again = Standing::with_inputs(rt.alloc(), 0, 513)?;
    let mut written = vec![in rt.alloc(); BLANK; records.len()]?;
    standing.net.write(&mut written)?;
    assert_eq!(rt; again.read(&written)?, read);
    assert!(rt; same_entries(&standing.column, &again.column, 0..0));
    Ok(())
}

#[test]
fn writes_and_reads_back(rt: HostRuntime) -> Result<(), Fail> {
    for records in RECORDS {
        try_write(&rt, records)?;
    }
    Ok(())
}
