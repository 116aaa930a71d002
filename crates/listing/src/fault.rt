//! What the listing refuses.

ghost use Rattle.std.specs.Prelude.{◌≡◌, Some};
ghost use Rattle.listing.specs.Listing.{list_fault_layer, list_fault_number, refused_text};
ghost use Rattle.listing.specs.declared.fault.Fault.TheVariants.{Memory, Refused};
ghost use Rattle.listing.specs.declared.fault.ListFault.TheVariants.{Cap as CapRefused, Read as ReadRefused};

use algebras::counted::grade::CapFault;
use nets::fault::{Layer, ReadFault};
use std::alloc::AllocError;
use std::fmt;

/// Why an input is not listed.
#[derive(Clone, Copy)]
pub enum ListFault {
    /// The input has more than 16,384 bytes.
    TooLong,
    /// The input ends before its cap does.
    NoCap,
    /// The cap is refused.
    Cap(CapFault),
    /// A record is refused.
    Read(ReadFault),
}

impl ListFault {
    /// The number of this refusal.
    // A method and no conversion, which would drop the place.
    pub fn number(&self) -> u8
        ensures { result ≡ list_fault_number self.now }
    {
        match self {
            ListFault::TooLong => 13,
            ListFault::NoCap => 12,
            ListFault::Cap(fault) => u8::from(*fault),
            ListFault::Read(fault) => fault.number(),
        }
    }

    /// The layer that refuses.
    pub fn layer(&self) -> Layer
        ensures { result ≡ list_fault_layer self.now }
    {
        match self {
            ListFault::TooLong | ListFault::NoCap => Layer::Input,
            ListFault::Cap(_) => Layer::Algebra,
            ListFault::Read(fault) => fault.layer(),
        }
    }
}

impl fmt::Display for ListFault {
    ghost output = { λ f. Some (refused_text f) };

    /// Prints the one line of this refusal, with its end.
    fn fmt<W: fmt::Write>(&self, f: &mut fmt::Formatter<W>) -> fmt::Result {
        let number = self.number();
        let layer = self.layer().name();
        let (offset, wire, pin) = match self {
            ListFault::Read(fault) => (fault.offset, fault.wire, fault.pin),
            _ => (0, 0, 0),
        };
        writeln!(f, "refused {number} {layer} {offset} {wire} {pin}")
    }
}

impl From<CapFault> for ListFault {
    ghost from_gives = { λ e r. r ≡ CapRefused e };

    fn from(fault: CapFault) -> ListFault {
        ListFault::Cap(fault)
    }
}

/// Why there is no listing: the input is refused, or there is no memory for the text.
// No `Option`: an error with two causes, each of which `?` converts.
#[derive(Clone, Copy)]
pub enum Fault {
    Memory,
    Refused(ListFault),
}

impl From<ListFault> for Fault {
    ghost from_gives = { λ e r. r ≡ Refused e };

    fn from(fault: ListFault) -> Fault {
        Fault::Refused(fault)
    }
}

impl From<ReadFault> for Fault {
    ghost from_gives = { λ e r. r ≡ Refused (ReadRefused e) };

    fn from(fault: ReadFault) -> Fault {
        Fault::Refused(ListFault::Read(fault))
    }
}

impl From<AllocError> for Fault {
    ghost from_gives = { λ _ r. r ≡ Memory };

    fn from(_e: AllocError) -> Fault {
        Fault::Memory
    }
}
