//! Netlist records: a byte of kind, then a body whose length the kind fixes.

use crate::request::Request;

pub(crate) mod decode;

// What a record asks for, with the body of a gate's record lent, in which each pin has two bytes.
// The pins are decoded where they are used: an array of them would be copied as often as the record is moved.
pub(crate) type Record<'a> = Request<&'a [u8]>;
