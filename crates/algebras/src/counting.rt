//! What the algebras that count changes up to a cap do alike.

ghost use Rattle.std.specs.Prelude.{◌≡◌, ℕ, Bool, min};
ghost use Rattle.algebras.specs.Counting.{CountingLaws, Known, entry_of};
ghost use Rattle.algebras.specs.Transient.{Transient, complement, driven};
ghost use Rattle.algebras.specs.Sums.{sum2, product2, exclusive2};
ghost use Rattle.algebras.specs.Verdicts.{verdict_of};

use crate::verdict::Verdict;

// The start, the end and the count of an entry.
#[derive(Clone, Copy)]
pub(crate) struct Parts {
    pub(crate) start: bool,
    pub(crate) end: bool,
    pub(crate) count: u16,
}

// An algebra that counts changes up to a cap. An entry counts as the grade of the transient that it stands for.
pub(crate) trait Counting {
    type Entry: Copy;

    ghost cap: { Self → ℕ };

    // The entry with a start, an end and a number of changes.
    ghost makes: { Self → Bool → Bool → ℕ → Self.Entry };

    // The transient that an entry stands for.
    ghost stands_for: { Self → Self.Entry → Transient };

    // The parts of an entry, of which the count is the smaller of its changes and the cap.
    fn parts(&self, x: Self::Entry) -> Parts
        ensures known { Known (cap self.now) (stands_for self.now x) result.start result.«end» result.count }
        ensures counts { result.count ≡ min (stands_for self.now x).changes (cap self.now) };

    // The entry with this start, end and number of changes, which may be more than an entry counts, so that these are no `Parts`.
    fn of_changes(&self, start: bool, end: bool, changes: u32) -> Self::Entry
        ensures { result ≡ makes self.now start «end» changes };

    ghost laws: { (a : Self) → CountingLaws (cap a) (makes a) (stands_for a) };
}

// The entry of a drive.
pub(crate) fn drive<C: Counting>(algebra: &C, start: bool, changes: u8) -> C::Entry
    ensures { result ≡ entry_of (C.makes algebra.now) (driven start changes) }
{
    let odd = changes % 2 == 1;
    algebra.of_changes(start, start ^ odd, u32::from(changes))
}

// An entry as read.
pub(crate) fn read<C: Counting>(algebra: &C, x: C::Entry) -> C::Entry
    ensures { result ≡ entry_of (C.makes algebra.now) (C.stands_for algebra.now x) }
{
    let Parts { start, end, count } = algebra.parts(x);
    algebra.of_changes(start, end, u32::from(count))
}

// The complement of an entry.
pub(crate) fn complement<C: Counting>(algebra: &C, x: C::Entry) -> C::Entry
    ensures { result ≡ entry_of (C.makes algebra.now) (complement (C.stands_for algebra.now x)) }
{
    let Parts { start, end, count } = algebra.parts(x);
    algebra.of_changes(!start, !end, u32::from(count))
}

// The sum of two entries.
pub(crate) fn sum<C: Counting>(algebra: &C, x: C::Entry, y: C::Entry) -> C::Entry
    ensures { result ≡ entry_of (C.makes algebra.now) (sum2 (C.stands_for algebra.now x) (C.stands_for algebra.now y)) }
{
    let a = algebra.parts(x);
    let b = algebra.parts(y);
    // A word 1 decides the sum, and a word 0 leaves the other.
    if a.count == 0 {
        return read(algebra, if a.start { x } else { y });
    }
    if b.count == 0 {
        return read(algebra, if b.start { y } else { x });
    }
    let shared = u32::from(a.start & b.start) + u32::from(a.end & b.end);
    let changes = u32::from(a.count) + u32::from(b.count) - shared;
    algebra.of_changes(a.start | b.start, a.end | b.end, changes)
}

// The product of two entries.
pub(crate) fn product<C: Counting>(algebra: &C, x: C::Entry, y: C::Entry) -> C::Entry
    ensures { result ≡ entry_of (C.makes algebra.now) (product2 (C.stands_for algebra.now x) (C.stands_for algebra.now y)) }
{
    complement(
        algebra,
        sum(algebra, complement(algebra, x), complement(algebra, y)),
    )
}

// The exclusive sum of two entries.
pub(crate) fn exclusive_sum<C: Counting>(algebra: &C, x: C::Entry, y: C::Entry) -> C::Entry
    ensures { result ≡ entry_of (C.makes algebra.now) (exclusive2 (C.stands_for algebra.now x) (C.stands_for algebra.now y)) }
{
    let a = algebra.parts(x);
    let b = algebra.parts(y);
    let changes = u32::from(a.count) + u32::from(b.count);
    algebra.of_changes(a.start ^ b.start, a.end ^ b.end, changes)
}

// The verdict on an entry: that on every transient with this entry.
pub(crate) fn verdict<C: Counting>(algebra: &C, x: C::Entry) -> Verdict
    ensures value { result ≡ verdict_of (C.stands_for algebra.now x) }
    ensures told { (t : Transient) → x ≡ entry_of (C.makes algebra.now) t → result ≡ verdict_of t }
{
    let Parts { start, end, count } = algebra.parts(x);
    Verdict::by(start, end, count)
}
