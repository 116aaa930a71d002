//! The text of a listing.

ghost use Rattle.std.specs.Prelude.{◌≡◌, ◌<◌, ◌++◌, length, IfOk, string_bytes};
ghost use Rattle.algebras.specs.contracts.counted.works.CountedAlgebra.TheImpl.{ghosts};
ghost use Rattle.listing.specs.Listing.{mark, net_text, wire_line};
ghost use Rattle.nets.specs.Nets.{ColumnKept, net_wires};
ghost use Rattle.nets.specs.Transients.{transient};

use algebras::counted::Counted;
use algebras::counted::grade::CountedGrade;
use nets::net::Net;
use std::alloc::{AllocError, Global};

// The mark of a count: whether it is the cap. A `bool` has no type of its own that could print it.
fn mark_of(saturated: bool) -> &'static str
    ensures { result.now ≡ mark saturated }
{
    if saturated { "+" } else { "=" }
}

// A net, its algebra, and a column that is kept for it.
#[derive(Clone, Copy)]
pub(crate) struct Kept<'a> {
    pub(crate) algebra: &'a Counted,
    pub(crate) net: &'a Net<Counted>,
    pub(crate) column: &'a [CountedGrade],
    ghost own: { net.now.algebra ≡ algebra.now },
    ghost kept: { ColumnKept ghosts net.now column.now },
}

impl Kept<'_> {
    // The header and the lines of all wires.
    pub(crate) fn text(&self, heap: Global) -> Result<String, AllocError>
        ensures { IfOk result (λ s. string_bytes s ≡ net_text self.now.algebra.now.«cap» (net_wires self.now.net.now)) }
    {
        let wires = self.net.wires();
        let cap = self.algebra.cap();
        let mut text = format!(in heap; "wires {wires} cap {cap}\n")?;
        for wire in 0..wires {
            self.write_line(&mut text, wire)?;
        }
        Ok(text)
    }

    // Writes the line of a wire after a text.
    fn write_line(&self, text: &mut String, wire: usize) -> Result<(), AllocError>
        requires { wire < length (net_wires self.now.net.now) }
        ensures { IfOk result (λ _. string_bytes text.new ≡ string_bytes text.old ++ wire_line self.now.algebra.now.«cap» wire (transient (net_wires self.now.net.now) wire)) }
    {
        let told = self.net.tell(self.column, wire).unwrap();
        let grade = self.net.look_up(self.column, wire).unwrap();
        let start = u8::from(told.start);
        let end = u8::from(told.end);
        let count = self.algebra.count(grade);
        let mark = mark_of(self.algebra.saturated(grade));
        let verdict = u8::from(told.verdict);
        writeln!(text, "{wire} {start} {end} {count} {mark} {verdict}")
    }
}
