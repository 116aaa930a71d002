//! Reading records onto a net.

ghost use Rattle.std.specs.Prelude.{◌≡◌, ◌<◌, length, if◌then◌else◌, nat_eq};
ghost use Rattle.nets.specs.Calls.{reads_in};
ghost use Rattle.nets.specs.Faults.{unless};
ghost use Rattle.nets.specs.Following.{Makes};
ghost use Rattle.nets.specs.Nets.{ColumnKept, column_after_record, net_wires, outcome_of_reading, reason_of_record, wires_after_record};
ghost use Rattle.nets.specs.Records.{reason_number, record_length, search_high, unplaced};
ghost use Rattle.std.specs.Option.{option_map, unwrap_or};

use crate::fault::{NetFault, ReadFault, Reason};
use crate::net::Net;
use crate::records::Record;
use crate::records::decode::first_high_pin;
use algebras::algebra::Algebra;

impl<L: Algebra> Net<L> {
    // Places the record that these bytes begin with, and answers its length. A step of reading, which promises what the call needs of it.
    fn place_record(&mut self, column: &mut [L::Grade], bytes: &[u8]) -> Result<usize, ReadFault>
        requires { 0 < length bytes.now }
        ensures answer { result ≡ unless (option_map unplaced (reason_of_record self.old column.old bytes.now)) (record_length bytes.now) }
        ensures net { net_wires self.new ≡ wires_after_record self.old column.old bytes.now }
        ensures algebra { self.new.algebra ≡ self.old.algebra }
        ensures column { column.new ≡ column_after_record L.Algebra self.old column.old bytes.now }
        ensures kept { ColumnKept L.Algebra self.old column.old → ColumnKept L.Algebra self.new column.new }
    {
        let (record, size) = Record::first(bytes)?;
        let pins = record.pins();
        self.place(column, record.lent(pins.as_slice()))?;
        Ok(size)
    }

    /// Places record after record on the net as it stands, and answers how many. A refused record ends the reading; the wires before it,
    /// with their entries, stay.
    pub fn read(&mut self, column: &mut [L::Grade], bytes: &[u8]) -> Result<usize, ReadFault>
        ensures answer { result ≡ (outcome_of_reading self.old column.old bytes.now).answer }
        ensures makes { Makes L.Algebra self.old column.old self.new column.new (reads_in (length column.old) bytes.now) }
    {
        let wires = self.wires();
        let mut rest = bytes;
        let mut records = 0;
        // Each record tells its own length, so no `for` goes over them.
        while !rest.is_empty() {
            match self.place_record(column, rest) {
                Ok(size) => {
                    rest = &rest[size..];
                    records += 1;
                }
                Err(fault) => {
                    let at = bytes.len() - rest.len();
                    let pin = high_pin(fault.reason, bytes, wires);
                    return Err(fault.placed(at, self.wires(), pin));
                }
            }
        }
        Ok(records)
    }
}

// The pin that a fault names: the first that is too high, where that is the fault, else 0.
fn high_pin(reason: Reason, bytes: &[u8], wires: usize) -> usize
    ensures { result ≡ (if nat_eq (reason_number reason) 9 then unwrap_or (search_high 0 wires bytes.now) 0 else 0) }
{
    match reason {
        Reason::Refused(NetFault::HighPin) => first_high_pin(bytes, wires).unwrap_or(0),
        _ => 0,
    }
}
