//! What the eight-valued algebra does.

ghost use Rattle.algebras.specs.Eight.{of_changes, eight, stands_for};
ghost use Rattle.algebras.specs.Eight.{eight_read, eight_complement, eight_sum, eight_product, eight_exclusive, eight_alike};
ghost use Rattle.algebras.specs.Verdicts.{verdict_of};
ghost use Rattle.algebras.specs.Counting.{entry_complement, entry_sum, entry_product, entry_exclusive};
ghost use Rattle.algebras.specs.Eights.{eight_laws};
ghost use Rattle.std.proofs.Common.{rules};

use crate::algebra::Algebra;
use crate::counting::{self, Counting, Parts};
use crate::eight::{Eight, EightGrade};
use crate::telling::Telling;
use crate::verdict::Verdict;

impl Counting for Eight {
    type Entry = EightGrade;

    ghost cap = { λ a. 2 };

    ghost makes = { λ a. of_changes };

    ghost stands_for = { λ a. stands_for };

    ghost laws = { λ a. eight_laws };

    fn parts(&self, x: EightGrade) -> Parts {
        Parts {
            start: x.start,
            end: x.end,
            count: if x.more {
                2
            } else {
                u16::from(x.start ^ x.end)
            },
        }
    }

    fn of_changes(&self, start: bool, end: bool, changes: u32) -> EightGrade {
        EightGrade {
            start,
            end,
            more: changes > 1,
        }
    }
}

impl Algebra for Eight {
    type Grade = EightGrade;

    ghost grade = { λ a t. eight t };

    ghost reads = { λ a x. eight_read x };

    ghost complements = { λ a x. eight_complement x };

    ghost sums = { λ a x y. eight_sum x y };

    ghost products = { λ a x y. eight_product x y };

    ghost exclusives = { λ a x y. eight_exclusive x y };

    ghost alikes = { λ a x y. eight_alike x y };

    ghost zero_alone = { Prim.search rules };

    ghost one_alone = { Prim.search rules };

    ghost reads_grade = { Prim.search rules };

    ghost complements_grade = { λ a. entry_complement eight_laws };

    ghost sums_grades = { λ a. entry_sum eight_laws };

    ghost products_grades = { λ a. entry_product eight_laws };

    ghost exclusives_grades = { λ a. entry_exclusive eight_laws };

    ghost alike_reads = { Prim.search rules };

    ghost reads_alike = { Prim.search rules };

    // An `impl` has each method itself, so these only hand on.
    fn drive(&self, start: bool, changes: u8) -> EightGrade {
        counting::drive(self, start, changes)
    }

    fn read(&self, x: EightGrade) -> EightGrade {
        x
    }

    fn complement(&self, x: EightGrade) -> EightGrade {
        counting::complement(self, x)
    }

    fn sum(&self, x: EightGrade, y: EightGrade) -> EightGrade {
        counting::sum(self, x, y)
    }

    fn product(&self, x: EightGrade, y: EightGrade) -> EightGrade {
        counting::product(self, x, y)
    }

    fn exclusive_sum(&self, x: EightGrade, y: EightGrade) -> EightGrade {
        counting::exclusive_sum(self, x, y)
    }

    fn same(&self, x: EightGrade, y: EightGrade) -> bool {
        x == y
    }
}

impl Telling for Eight {
    ghost starts = { λ a x. x.start };

    ghost ends = { λ a x. x.«end» };

    ghost verdicts = { λ a x. verdict_of (stands_for x) };

    // A start and an end are fields: there is nothing to share with another algebra.
    fn start(&self, x: EightGrade) -> bool {
        x.start
    }

    fn end(&self, x: EightGrade) -> bool {
        x.end
    }

    fn verdict(&self, x: EightGrade) -> Verdict {
        counting::verdict(self, x)
    }
}
