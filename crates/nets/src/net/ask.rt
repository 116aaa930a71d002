//! Questions about the wires of a net.

ghost use Rattle.std.specs.Prelude.{◌≡◌, List, length};
ghost use Rattle.nets.specs.Asking.{answer_of_asking, entry_of, grade_of, looked_up, telling, told_of};
ghost use Rattle.nets.specs.Calls.{PlainCall, plain_of};
ghost use Rattle.nets.specs.Following.{Follows, LooksUpLongest, TellsLongest};
ghost use Rattle.nets.specs.Nets.{ColumnKept, net_wires};
ghost use Rattle.nets.specs.Transients.{transient};

use crate::fault::NetFault;
use crate::net::Net;
use crate::told::Told;
use algebras::algebra::Algebra;
use algebras::telling::Telling;

impl<L: Algebra> Net<L> {
    // The entry of a wire, if it stands and the column is long enough.
    fn entry(&self, column: &[L::Grade], wire: usize) -> Result<L::Grade, NetFault>
        ensures { result ≡ answer_of_asking self.now column.now wire (entry_of L.Algebra self.now column.now wire) }
    {
        if wire >= self.wires() {
            return Err(NetFault::NoSuchWire);
        }
        if column.len() < self.wires() {
            return Err(NetFault::ShortColumn);
        }
        Ok(column[wire])
    }

    /// The entry of a wire, as read: in a kept column, the grade of the wire's transient, which is its longest history.
    pub fn look_up(&self, column: &[L::Grade], wire: usize) -> Result<L::Grade, NetFault>
        ensures answer { result ≡ looked_up L.Algebra self.now column.now wire }
        ensures kept { ColumnKept L.Algebra self.now column.now → result ≡ answer_of_asking self.now column.now wire (grade_of L.Algebra self.now wire) }
        ensures follows { (calls : List PlainCall) → Follows L.Algebra self.now column.now calls → LooksUpLongest L.Algebra self.now.algebra (plain_of calls) (length column.now) wire result }
    {
        let entry = self.entry(column, wire)?;
        Ok(self.algebra.read(entry))
    }
}

impl<L: Telling> Net<L> {
    /// The start, the end and the verdict of a wire: in a kept column, those of the wire's transient, which is its longest history.
    pub fn tell(&self, column: &[L::Grade], wire: usize) -> Result<Told, NetFault>
        ensures answer { result ≡ answer_of_asking self.now column.now wire (telling L.Telling.own self.now.algebra (entry_of L.Algebra self.now column.now wire)) }
        ensures kept { ColumnKept L.Algebra self.now column.now → result ≡ answer_of_asking self.now column.now wire (told_of (transient (net_wires self.now) wire)) }
        ensures follows { (calls : List PlainCall) → Follows L.Algebra self.now column.now calls → TellsLongest (plain_of calls) (length column.now) wire result }
    {
        let entry = self.entry(column, wire)?;
        let start = self.algebra.start(entry);
        let end = self.algebra.end(entry);
        let verdict = self.algebra.verdict(entry);
        Ok(Told {
            start,
            end,
            verdict,
        })
    }
}
