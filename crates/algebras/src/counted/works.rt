//! What the counted algebra does.

ghost use Rattle.std.specs.Prelude.{◌≡◌, ◌<◌, ◌≤◌, min, MatchResult, nat_le};
ghost use Rattle.algebras.specs.Counted.{of_changes, counted, count_of, is_saturated, stands_for, cap_fault_number};
ghost use Rattle.algebras.specs.Counted.{counted_read, counted_complement, counted_sum, counted_product, counted_exclusive, counted_alike};
ghost use Rattle.algebras.specs.Transient.{Transient};
ghost use Rattle.algebras.specs.Verdicts.{verdict_of};
ghost use Rattle.algebras.specs.Counting.{entry_stands, entry_complement, entry_sum, entry_product, entry_exclusive};
ghost use Rattle.algebras.specs.Counts.{counted_laws, read_apart, alike_parts};
ghost use Rattle.std.proofs.Common.{rules};

use crate::algebra::Algebra;
use crate::counted::Counted;
use crate::counted::grade::{CapFault, Count, CountedGrade};
use crate::counting::{self, Counting, Parts};
use crate::telling::Telling;
use crate::verdict::Verdict;

impl From<CapFault> for u8 {
    ghost from_gives = { λ f n. n ≡ cap_fault_number f };

    /// The number of a refusal.
    fn from(fault: CapFault) -> u8 {
        // An enum becomes its number by `as` alone.
        fault as u8
    }
}

impl Counted {
    /// The counted algebra with this cap; a cap of 0 or 1 is refused.
    pub fn new(cap: u16) -> Result<Counted, CapFault>
        ensures { MatchResult result (λ a. (2 ≤ «cap») × (a.«cap» ≡ «cap»)) (λ e. «cap» < 2) }
    {
        if cap < 2 {
            return Err(CapFault::TooSmall);
        }
        Ok(Counted { cap })
    }

    /// The cap.
    pub fn cap(&self) -> u16
        ensures { result ≡ self.now.«cap» }
    {
        self.cap
    }

    /// The count of an entry: of a transient's grade, the smaller of its changes and the cap.
    pub fn count(&self, x: CountedGrade) -> u16
        ensures value { result ≡ count_of self.now.«cap» x }
        ensures counts { (t : Transient) → x ≡ counted self.now.«cap» t → result ≡ min t.changes self.now.«cap» }
    {
        match x.count {
            Count::Half(half) => {
                // Wide numbers, which twice any half fits: a product that saturates takes longer. The smaller fits again.
                let said = 2 * u32::from(half) + u32::from(x.start ^ x.end);
                said.min(u32::from(self.cap())) as u16
            }
            Count::Saturated => self.cap(),
        }
    }

    /// Whether an entry counts the cap: of a transient's grade, whether its changes reach it.
    pub fn saturated(&self, x: CountedGrade) -> bool
        ensures value { result ≡ is_saturated self.now.«cap» x }
        ensures marks { (t : Transient) → x ≡ counted self.now.«cap» t → result ≡ nat_le self.now.«cap» t.changes }
    {
        self.count(x) >= self.cap
    }
}

impl Counting for Counted {
    type Entry = CountedGrade;

    ghost cap = { λ a. a.«cap» };

    ghost makes = { λ a. of_changes a.«cap» };

    ghost stands_for = { λ a. stands_for a.«cap» };

    ghost laws = { λ a. counted_laws a.«cap» a.sound };

    fn parts(&self, x: CountedGrade) -> Parts {
        Parts {
            start: x.start,
            end: x.end,
            count: self.count(x),
        }
    }

    fn of_changes(&self, start: bool, end: bool, changes: u32) -> CountedGrade {
        let count = if changes < u32::from(self.cap) {
            // The half fits, and `try_from(..).unwrap()` would say no more.
            Count::Half((changes / 2) as u16)
        } else {
            Count::Saturated
        };
        CountedGrade { start, end, count }
    }
}

impl Algebra for Counted {
    type Grade = CountedGrade;

    ghost grade = { λ a t. counted a.«cap» t };

    ghost reads = { λ a x. counted_read a.«cap» x };

    ghost complements = { λ a x. counted_complement a.«cap» x };

    ghost sums = { λ a x y. counted_sum a.«cap» x y };

    ghost products = { λ a x y. counted_product a.«cap» x y };

    ghost exclusives = { λ a x y. counted_exclusive a.«cap» x y };

    ghost alikes = { λ a x y. counted_alike a.«cap» x y };

    ghost zero_alone = { Prim.search rules };

    ghost one_alone = { Prim.search rules };

    ghost reads_grade = { λ a. entry_stands (counted_laws a.«cap» a.sound) };

    ghost complements_grade = { λ a. entry_complement (counted_laws a.«cap» a.sound) };

    ghost sums_grades = { λ a. entry_sum (counted_laws a.«cap» a.sound) };

    ghost products_grades = { λ a. entry_product (counted_laws a.«cap» a.sound) };

    ghost exclusives_grades = { λ a. entry_exclusive (counted_laws a.«cap» a.sound) };

    ghost alike_reads = { Prim.search rules };

    ghost reads_alike = { λ a x y e. alike_parts a.«cap» x y (read_apart a.«cap» x y e) };

    // An `impl` has each method itself, so these only hand on.
    fn drive(&self, start: bool, changes: u8) -> CountedGrade {
        counting::drive(self, start, changes)
    }

    fn read(&self, x: CountedGrade) -> CountedGrade {
        counting::read(self, x)
    }

    fn complement(&self, x: CountedGrade) -> CountedGrade {
        counting::complement(self, x)
    }

    fn sum(&self, x: CountedGrade, y: CountedGrade) -> CountedGrade {
        counting::sum(self, x, y)
    }

    fn product(&self, x: CountedGrade, y: CountedGrade) -> CountedGrade {
        counting::product(self, x, y)
    }

    fn exclusive_sum(&self, x: CountedGrade, y: CountedGrade) -> CountedGrade {
        counting::exclusive_sum(self, x, y)
    }

    fn same(&self, x: CountedGrade, y: CountedGrade) -> bool {
        // The letters decide most pairs, and only where they are equal are changes counted.
        (x.start, x.end) == (y.start, y.end) && self.count(x) == self.count(y)
    }
}

impl Telling for Counted {
    ghost starts = { λ a x. x.start };

    ghost ends = { λ a x. x.«end» };

    ghost verdicts = { λ a x. verdict_of (stands_for a.«cap» x) };

    // A start and an end are fields: there is nothing to share with another algebra.
    fn start(&self, x: CountedGrade) -> bool {
        x.start
    }

    fn end(&self, x: CountedGrade) -> bool {
        x.end
    }

    fn verdict(&self, x: CountedGrade) -> Verdict {
        counting::verdict(self, x)
    }
}
