//! Working the grade of a wire from the entries of a column: once, for every algebra.

ghost use Rattle.std.specs.Prelude.{◌≡◌, ◌<◌, length};
ghost use Rattle.algebras.specs.Sums.{joined};
ghost use Rattle.nets.specs.Wires.{Below, Within};
ghost use Rattle.nets.specs.Tables.{pin_list, plain};
ghost use Rattle.nets.specs.Working.{joins, gives, gate_grade, entry, entries, worked};

use crate::wire::{Gate, Wire};
use algebras::algebra::Algebra;
use algebras::kind::Kind;

// What a gate of this kind makes of the entries of two pins.
fn join<L: Algebra>(algebra: &L, kind: Kind, x: L::Grade, y: L::Grade) -> L::Grade
    ensures { result ≡ joins L.Algebra algebra.now kind x y }
{
    match kind {
        Kind::Buffer | Kind::Inverter => x,
        Kind::And | Kind::Nand => algebra.product(x, y),
        Kind::Or | Kind::Nor => algebra.sum(x, y),
        Kind::Xor | Kind::Xnor => algebra.exclusive_sum(x, y),
    }
}

// What a gate of this kind makes of its joined pins.
fn give<L: Algebra>(algebra: &L, kind: Kind, x: L::Grade) -> L::Grade
    ensures { result ≡ gives L.Algebra algebra.now kind x }
{
    match kind {
        Kind::Buffer => algebra.read(x),
        Kind::And | Kind::Or | Kind::Xor => x,
        Kind::Inverter | Kind::Nand | Kind::Nor | Kind::Xnor => algebra.complement(x),
    }
}

// The entries of a column, as they are worked under an algebra.
#[derive(Drop)]
pub(crate) struct Entries<'a, L: Algebra> {
    pub(crate) algebra: &'a L,
    pub(crate) column: &'a [L::Grade],
}

impl<L: Algebra> Entries<'_, L> {
    // The grade of a wire.
    pub(crate) fn work(&self, wire: &Wire) -> L::Grade
        requires { Within (length self.now.column.now) (plain wire.now) }
        ensures { result ≡ worked L.Algebra self.now.algebra.now self.now.column.now (plain wire.now) }
    {
        match wire {
            Wire::Input(drive) => self.algebra.drive(drive.start, drive.changes),
            Wire::Output(gate) => self.work_gate(gate),
        }
    }

    // The grade of a gate, from the entries of its pins.
    fn work_gate(&self, gate: &Gate) -> L::Grade
        requires some { 0 < length (pin_list gate.now.pins) }
        requires within { Below (length self.now.column.now) (pin_list gate.now.pins) }
        ensures { result ≡ gate_grade L.Algebra self.now.algebra.now gate.now.kind (entries L.Algebra self.now.algebra.now self.now.column.now (pin_list gate.now.pins)) }
    {
        let pins = gate.pins.as_slice();
        let first = self.entry(pins[0]);
        let joined = self.join_pins(gate.kind, first, &pins[1..]);
        give(self.algebra, gate.kind, joined)
    }

    // The entry of a first pin, joined with the entries of the others from the first on.
    fn join_pins(&self, kind: Kind, first: L::Grade, others: &[u16]) -> L::Grade
        requires { Below (length self.now.column.now) others.now }
        ensures { result ≡ joined (joins L.Algebra self.now.algebra.now kind) first (entries L.Algebra self.now.algebra.now self.now.column.now others.now) }
    {
        let mut grade = first;
        for pin in others {
            grade = join(self.algebra, kind, grade, self.entry(*pin));
        }
        grade
    }

    // The entry of the wire that a pin names.
    fn entry(&self, pin: u16) -> L::Grade
        requires { pin < length self.now.column.now }
        ensures { result ≡ entry L.Algebra self.now.algebra.now self.now.column.now pin }
    {
        self.column[usize::from(pin)]
    }
}
