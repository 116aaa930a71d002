//! What a net and a reader refuse.

ghost use Rattle.std.specs.Prelude.{◌≡◌, Some};
ghost use Rattle.nets.specs.Faults.{layer_name, net_fault_number};
ghost use Rattle.nets.specs.Records.{at_place, reason_layer, reason_number, unplaced};
ghost use Rattle.nets.specs.declared.fault.Reason.TheVariants.{Refused};

use std::fmt;

/// Why a net refuses a call, with the refusal's number.
#[derive(Clone, Copy, PartialEq, Eq, Debug)]
pub enum NetFault {
    /// No wire has that number.
    NoSuchWire = 2,
    /// The start is neither 0 nor 1.
    BadStart = 4,
    /// 512 wires stand.
    Full = 5,
    /// The column is shorter than the wires standing after the call.
    ShortColumn = 6,
    /// The gate's kind is not 1 to 8.
    BadKind = 7,
    /// The gate's kind does not allow so many pins.
    BadPinCount = 8,
    /// A pin names the gate's own wire or a higher number.
    HighPin = 9,
    /// The buffer is shorter than the records.
    ShortBuffer = 14,
}

impl From<NetFault> for u8 {
    ghost from_gives = { λ f n. n ≡ net_fault_number f };

    /// The number of a refusal.
    fn from(fault: NetFault) -> u8 {
        // An enum becomes its number by `as` alone.
        fault as u8
    }
}

/// Where a refusal comes from.
#[derive(Clone, Copy, PartialEq, Eq, Debug)]
pub enum Layer {
    Input,
    Record,
    Algebra,
    Net,
}

impl Layer {
    /// The name of this layer.
    // A function of its own, since of what prints itself only that is promised which it prints where printing succeeds.
    pub fn name(self) -> &'static str
        ensures { result.now ≡ layer_name self }
    {
        match self {
            Layer::Input => "input",
            Layer::Record => "record",
            Layer::Algebra => "algebra",
            Layer::Net => "net",
        }
    }
}

impl fmt::Display for Layer {
    ghost output = { λ l. Some (layer_name l) };

    fn fmt<W: fmt::Write>(&self, f: &mut fmt::Formatter<W>) -> fmt::Result {
        f.write_str(self.name())
    }
}

/// Why a record is not read: it is none, or the net refuses it.
#[derive(Clone, Copy, PartialEq, Eq, Debug)]
pub enum Reason {
    /// The kind byte is that of no record.
    UnknownKind,
    /// The input ends in the record's body.
    CutShort,
    /// The net's refusal.
    Refused(NetFault),
}

/// A refused record: why, the offset of its first byte, the number that its wire would have had, and the pin at fault, or 0.
// The parts of its place are public fields, which callers compare and print one by one, and the pin is 0 in the table of refusals.
#[derive(Clone, Copy, PartialEq, Eq, Debug)]
pub struct ReadFault {
    pub reason: Reason,
    pub offset: usize,
    pub wire: usize,
    pub pin: usize,
}

impl From<Reason> for ReadFault {
    ghost from_gives = { λ e r. r ≡ unplaced e };

    fn from(reason: Reason) -> ReadFault {
        ReadFault {
            reason,
            offset: 0,
            wire: 0,
            pin: 0,
        }
    }
}

impl From<NetFault> for ReadFault {
    ghost from_gives = { λ e r. r ≡ unplaced (Refused e) };

    fn from(fault: NetFault) -> ReadFault {
        Reason::Refused(fault).into()
    }
}

impl ReadFault {
    /// The number of this refusal.
    // A method and no conversion, which would drop the place.
    pub fn number(&self) -> u8
        ensures { result ≡ reason_number self.now.reason }
    {
        match self.reason {
            Reason::UnknownKind => 11,
            Reason::CutShort => 12,
            Reason::Refused(fault) => fault.into(),
        }
    }

    /// The layer that refuses.
    pub fn layer(&self) -> Layer
        ensures { result ≡ reason_layer self.now.reason }
    {
        match self.reason {
            Reason::UnknownKind | Reason::CutShort => Layer::Record,
            Reason::Refused(_) => Layer::Net,
        }
    }

    // This fault at its place.
    pub(crate) fn placed(self, offset: usize, wire: usize, pin: usize) -> ReadFault
        ensures { result ≡ at_place self.reason offset wire pin }
    {
        ReadFault {
            reason: self.reason,
            offset,
            wire,
            pin,
        }
    }
}
