//! Making wires and their pins.

ghost use Rattle.std.specs.Prelude.{◌≡◌, ◌+◌, ◌≤◌, true, length, nat_le, MatchResult};
ghost use Rattle.std.specs.List.{list_any};
ghost use Rattle.nets.specs.Faults.{first_fault};
ghost use Rattle.nets.specs.Placing.{AskedAs, ask_gate, asked, plain_request, request_checks};
ghost use Rattle.nets.specs.Records.{pins_in};
ghost use Rattle.nets.specs.Tables.{pin_list, plain};
ghost use Rattle.nets.specs.Wires.{Within, fits};
ghost use Rattle.nets.specs.declared.wire.Wire.TheVariants.{Output};

use crate::fault::NetFault;
use crate::request::Request;
use crate::wire::{Drive, Gate, Pins, Wire};
use algebras::kind::Kind;

impl<const N: usize> Pins<N> {
    // Pins on these wires.
    pub(crate) fn on(pins: &[u16]) -> Pins<N>
        requires { length pins.now ≤ N }
        ensures { pin_list result ≡ pins.now }
    {
        let mut wires = [0; N];
        let count = pins.len();
        wires[..count].copy_from_slice(pins);
        Pins { wires, count }
    }

    // The pins in the body of a gate's record. They are written by place, since nothing is known of an array that an adapter of
    // `iter_mut` wrote.
    pub(crate) fn decode(body: &[u8]) -> Pins<N>
        requires { length body.now ≤ N + N }
        ensures { pin_list result ≡ pins_in body.now }
    {
        let mut wires = [0; N];
        for (pin, pair) in body.chunks_exact(2).enumerate() {
            wires[pin] = u16::from_le_bytes([pair[0], pair[1]]);
        }
        Pins {
            wires,
            count: body.len() / 2,
        }
    }

    /// The wires that the pins name, from the first pin on.
    pub fn as_slice(&self) -> &[u16]
        ensures { result.now ≡ pin_list self.now }
    {
        &self.wires[..self.count]
    }
}

// Whether a pin names this wire or a higher one.
fn names_high(pins: &[u16], wire: usize) -> bool
    ensures { result ≡ list_any (nat_le wire) pins.now }
{
    pins.iter().any(|&pin| usize::from(pin) >= wire)
}

impl Gate {
    // The gate of that kind and these pins as wire number `wire`, or why there is none. The kind is a byte, of which any is answered.
    pub(crate) fn asked(kind: u8, pins: &[u16], wire: usize) -> Result<Gate, NetFault>
        ensures { MatchResult result (λ g. (first_fault (request_checks wire (ask_gate kind pins.now)) ≡ None) × (plain (Output g) ≡ asked (ask_gate kind pins.now)) × Within wire (plain (Output g)) × (fits (plain (Output g)) ≡ true)) (λ f. first_fault (request_checks wire (ask_gate kind pins.now)) ≡ Some f) }
    {
        let Ok(kind) = Kind::try_from(kind) else {
            return Err(NetFault::BadKind);
        };
        if !kind.admits(pins.len()) {
            return Err(NetFault::BadPinCount);
        }
        if names_high(pins, wire) {
            return Err(NetFault::HighPin);
        }
        let pins = Pins::on(pins);
        Ok(Gate { kind, pins })
    }
}

impl Wire {
    // The wire that is asked for as number `wire`, or why there is none.
    pub(crate) fn asked(request: Request<&[u16]>, wire: usize) -> Result<Wire, NetFault>
        ensures { AskedAs wire (plain_request request.entry) result }
    {
        match request {
            Request::Input { start, changes } => {
                if start > 1 {
                    return Err(NetFault::BadStart);
                }
                let start = start == 1;
                Ok(Wire::Input(Drive { start, changes }))
            }
            Request::Gate { kind, pins } => Ok(Wire::Output(Gate::asked(kind, pins, wire)?)),
        }
    }
}
