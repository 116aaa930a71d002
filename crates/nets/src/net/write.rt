//! Writing a net out as records.

ghost use Rattle.std.specs.Prelude.{◌≡◌, ◌+◌, ◌≤◌, map, length};
ghost use Rattle.nets.specs.Nets.{net_wires};
ghost use Rattle.nets.specs.Tables.{plain};
ghost use Rattle.nets.specs.Writing.{ReadsBack, answer_of_writing, buffer_after_writing, pin_bytes, record_of, records_of, written_over};

use crate::fault::NetFault;
use crate::net::Net;
use crate::records::decode::INPUT;
use crate::wire::Wire;
use algebras::algebra::Algebra;

impl<L: Algebra> Net<L> {
    /// Writes the records of the wires, by rising number, to the front of a buffer, and answers how many bytes they are. Read onto an
    /// empty net, they give the same wires.
    pub fn write(&self, buffer: &mut [u8]) -> Result<usize, NetFault>
        ensures answer { result ≡ answer_of_writing (net_wires self.now) buffer.old }
        ensures buffer { buffer.new ≡ buffer_after_writing (net_wires self.now) buffer.old }
        ensures back { ReadsBack (net_wires self.now) result buffer.new }
    {
        let wires = self.table.wires.as_slice();
        let size = records_size(wires);
        if buffer.len() < size {
            return Err(NetFault::ShortBuffer);
        }
        write_records(wires, buffer);
        Ok(size)
    }
}

// The number of bytes in the record of a wire.
fn wire_size(wire: &Wire) -> usize
    ensures size { result ≡ length (record_of (plain wire.now)) }
    ensures small { result ≤ 17 }
{
    match wire {
        Wire::Input(_) => 3,
        Wire::Output(gate) => 1 + 2 * gate.pins.as_slice().len(),
    }
}

// The number of bytes in the records of wires.
fn records_size(wires: &[Wire]) -> usize
    requires { length wires.now ≤ 512 }
    ensures { result ≡ length (records_of (map plain wires.now)) }
{
    wires.iter().map(wire_size).sum()
}

// Writes the records of wires to the front of a buffer.
fn write_records(wires: &[Wire], buffer: &mut [u8])
    requires { length (records_of (map plain wires.now)) ≤ length buffer.old }
    ensures { buffer.new ≡ written_over buffer.old 0 (records_of (map plain wires.now)) }
{
    let mut at = 0;
    for wire in wires {
        at = write_record(wire, buffer, at);
    }
}

// Writes the record of a wire into a buffer from a place on, and answers the place after it, from which the next is written.
fn write_record(wire: &Wire, buffer: &mut [u8], at: usize) -> usize
    requires { at + length (record_of (plain wire.now)) ≤ length buffer.old }
    ensures answer { result ≡ at + length (record_of (plain wire.now)) }
    ensures buffer { buffer.new ≡ written_over buffer.old at (record_of (plain wire.now)) }
{
    match wire {
        Wire::Input(drive) => {
            let record = [INPUT, u8::from(drive.start), drive.changes];
            buffer[at..at + 3].copy_from_slice(&record);
            at + 3
        }
        Wire::Output(gate) => {
            let pins = gate.pins.as_slice();
            // A gate has eight pins at most, and `try_from(..).unwrap()` would say no more.
            buffer[at] = 16 * u8::from(gate.kind) + pins.len() as u8;
            write_pins(pins, buffer, at + 1)
        }
    }
}

// Writes pins into a buffer from a place on, two bytes for each, low byte first, and answers the place after them.
fn write_pins(pins: &[u16], buffer: &mut [u8], from: usize) -> usize
    requires { from + length (pin_bytes pins.now) ≤ length buffer.old }
    ensures answer { result ≡ from + length (pin_bytes pins.now) }
    ensures buffer { buffer.new ≡ written_over buffer.old from (pin_bytes pins.now) }
{
    // By place, since nothing is known of a buffer that an adapter of `chunks_exact_mut` wrote.
    for (pin, named) in pins.iter().enumerate() {
        let at = from + 2 * pin;
        buffer[at..at + 2].copy_from_slice(&named.to_le_bytes());
    }
    from + 2 * pins.len()
}
