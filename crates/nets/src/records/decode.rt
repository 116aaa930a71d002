//! Taking records apart.

ghost use Rattle.std.specs.Prelude.{◌≡◌, suc, ◌<◌, ◌≤◌, length, if◌then◌else◌, Some, None};
ghost use Rattle.nets.specs.Decoding.{FirstRecord, record_body, record_request};
ghost use Rattle.nets.specs.Faults.{unless};
ghost use Rattle.nets.specs.Placing.{plain_request};
ghost use Rattle.nets.specs.Records.{body_size, known, pins_asked, search_high};
ghost use Rattle.nets.specs.Tables.{pin_list};
ghost use Rattle.nets.specs.declared.fault.Reason.TheVariants.{UnknownKind};

use crate::fault::Reason;
use crate::records::Record;
use crate::request::Request;
use crate::wire::Pins;
use algebras::kind::Kind;

// The kind byte of an input's record.
pub(crate) const INPUT: u8 = 0x01;

// The length of the record that a kind byte begins, of which any is answered.
fn record_size(kind: u8) -> Result<usize, Reason>
    ensures { result ≡ unless (if known kind then None else Some UnknownKind) (suc (body_size kind)) }
{
    if kind == INPUT {
        return Ok(3);
    }
    match Kind::try_from(kind / 16) {
        Ok(_) => Ok(1 + 2 * usize::from(kind % 16)),
        Err(_) => Err(Reason::UnknownKind),
    }
}

impl<'a> Record<'a> {
    // The record that these bytes begin with, and its length.
    pub(crate) fn first(bytes: &'a [u8]) -> Result<(Record<'a>, usize), Reason>
        requires { 0 < length bytes.now }
        ensures { FirstRecord bytes.now result }
    {
        let size = record_size(bytes[0])?;
        if bytes.len() < size {
            return Err(Reason::CutShort);
        }
        if bytes[0] == INPUT {
            let record = Request::Input {
                start: bytes[1],
                changes: bytes[2],
            };
            return Ok((record, size));
        }
        let record = Request::Gate {
            kind: bytes[0] / 16,
            pins: &bytes[1..size],
        };
        Ok((record, size))
    }

    // What this record asks for, where these are its pins: a method, whose name says so, and no conversion.
    pub(crate) fn lent<'p>(&self, pins: &'p [u16]) -> Request<&'p [u16]>
        requires { pins.now ≡ pins_asked (record_request self.now) }
        ensures { plain_request result ≡ record_request self.now }
    {
        match self {
            Request::Input { start, changes } => Request::Input {
                start: *start,
                changes: *changes,
            },
            Request::Gate { kind, .. } => Request::Gate { kind: *kind, pins },
        }
    }

    // The pins of this record; an input has none.
    pub(crate) fn pins(&self) -> Pins<15>
        requires { length (record_body self.now) ≤ 30 }
        ensures { pin_list result ≡ pins_asked (record_request self.now) }
    {
        match self {
            Request::Input { .. } => Pins::decode(&[]),
            Request::Gate { pins, .. } => Pins::decode(pins),
        }
    }
}

// The first pin, over records and their pins, that names its own wire or a higher one, where so many wires stand before the first
// record.
pub(crate) fn first_high_pin(bytes: &[u8], wires: usize) -> Option<usize>
    ensures { result ≡ search_high 0 wires bytes.now }
{
    let mut rest = bytes;
    'search: {
        for wire in wires..512 {
            if rest.is_empty() {
                break 'search None;
            }
            let Ok((record, size)) = Record::first(rest) else {
                break 'search None;
            };
            // Both searches are left at once, by the label.
            let pins = record.pins();
            for (pin, named) in pins.as_slice().iter().enumerate() {
                if usize::from(*named) >= wire {
                    break 'search Some(pin);
                }
            }
            rest = &rest[size..];
        }
        None
    }
}
