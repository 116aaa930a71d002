//! Opening a net, and placing wires.

ghost use Rattle.std.specs.Prelude.{◌≡◌, ◌<◌, true, List, [], ◌∷◌, ◌++◌, length, IfOk, slice_set};
ghost use Rattle.nets.specs.Calls.{places};
ghost use Rattle.nets.specs.Faults.{first_fault, unless};
ghost use Rattle.nets.specs.Following.{Follows, Makes};
ghost use Rattle.nets.specs.Nets.{ColumnKept, answer_of_placing, net_wires};
ghost use Rattle.nets.specs.Placing.{ask_gate, ask_input, plain_request, room_checks};
ghost use Rattle.nets.specs.Wires.{Within, fits};
ghost use Rattle.nets.specs.Tables.{plain};
ghost use Rattle.nets.specs.Working.{worked};

use crate::fault::NetFault;
use crate::net::work::Entries;
use crate::net::{Net, Table};
use crate::request::Request;
use crate::wire::Wire;
use algebras::algebra::Algebra;
use std::alloc::{AllocError, Global};

impl<L: Algebra + Drop> Net<L> {
    /// An empty net under an algebra. Its whole table is reserved here, so that no later call can want memory.
    pub fn open(heap: Global, algebra: L) -> Result<Net<L>, AllocError>
        ensures wires { IfOk result (λ n. net_wires n ≡ []) }
        ensures algebra { IfOk result (λ n. n.algebra ≡ algebra) }
        ensures follows { IfOk result (λ n. (column : List L.Grade) → Follows L.Algebra n column []) }
    {
        let wires = Vec::with_capacity(heap, 512)?;
        let table = Table { wires };
        Ok(Net { algebra, table })
    }
}

impl<L: Algebra> Net<L> {
    /// How many wires stand.
    pub fn wires(&self) -> usize
        ensures { result ≡ length (net_wires self.now) }
    {
        self.table.wires.len()
    }

    /// Places an input as the next wire, fills its entry and answers its number.
    // The start is a byte and no `bool`: every byte is answered, and from 2 on refused.
    pub fn place_input(
        &mut self,
        column: &mut [L::Grade],
        start: u8,
        changes: u8,
    ) -> Result<usize, NetFault>
        ensures answer { result ≡ answer_of_placing self.old column.old (ask_input start changes) }
        ensures makes { Makes L.Algebra self.old column.old self.new column.new (places (length column.old) (ask_input start changes)) }
    {
        self.place(column, Request::Input { start, changes })
    }

    /// Places a gate as the next wire, works its grade from its pins' entries, and answers its number.
    // The kind is a byte and no `Kind`: every byte is answered, and one that is no kind's number refused.
    pub fn place_gate(
        &mut self,
        column: &mut [L::Grade],
        kind: u8,
        pins: &[u16],
    ) -> Result<usize, NetFault>
        ensures answer { result ≡ answer_of_placing self.old column.old (ask_gate kind pins.now) }
        ensures makes { Makes L.Algebra self.old column.old self.new column.new (places (length column.old) (ask_gate kind pins.now)) }
    {
        self.place(column, Request::Gate { kind, pins })
    }

    // Places what is asked for as the next wire, fills its entry and answers its number.
    pub(crate) fn place(
        &mut self,
        column: &mut [L::Grade],
        request: Request<&[u16]>,
    ) -> Result<usize, NetFault>
        ensures answer { result ≡ answer_of_placing self.old column.old (plain_request request.entry) }
        ensures makes { Makes L.Algebra self.old column.old self.new column.new (places (length column.old) (plain_request request.entry)) }
    {
        let number = self.room(column.len())?;
        let wire = Wire::asked(request, number)?;
        self.append(column, wire);
        Ok(number)
    }

    // The number of the next wire, if there is room for it.
    fn room(&self, long: usize) -> Result<usize, NetFault>
        ensures { result ≡ unless (first_fault (room_checks (length (net_wires self.now)) long)) (length (net_wires self.now)) }
    {
        let number = self.wires();
        if number >= 512 {
            return Err(NetFault::Full);
        }
        if long <= number {
            return Err(NetFault::ShortColumn);
        }
        Ok(number)
    }

    // Appends a wire and fills its entry. A step of placing, which promises what the call needs of it.
    fn append(&mut self, column: &mut [L::Grade], wire: Wire)
        requires few { length (net_wires self.old) < 512 }
        requires long { length (net_wires self.old) < length column.old }
        requires lower { Within (length (net_wires self.old)) (plain wire) }
        requires fitting { fits (plain wire) ≡ true }
        ensures net { net_wires self.new ≡ net_wires self.old ++ plain wire ∷ [] }
        ensures algebra { self.new.algebra ≡ self.old.algebra }
        ensures column { column.new ≡ slice_set column.old (length (net_wires self.old)) (worked L.Algebra self.old.algebra column.old (plain wire)) }
        ensures kept { ColumnKept L.Algebra self.old column.old → ColumnKept L.Algebra self.new column.new }
    {
        let number = self.wires();
        let entries = Entries {
            algebra: &self.algebra,
            column,
        };
        column[number] = entries.work(&wire);
        self.table.wires.push_reserved(wire);
    }
}
