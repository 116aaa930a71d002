//! What a history looks like under each algebra.

use crate::simulator::History;
use algebras::algebra::Algebra;
use algebras::counted::Counted;
use algebras::counted::grade::CountedGrade;
use algebras::eight::{Eight, EightGrade};
use algebras::five::{Five, FiveGrade, Symbol};
use algebras::verdict::Verdict;
use std::process::Abort;
use std::test::*;

/// An algebra whose grades are held to histories.
pub trait Graded: Algebra {
    /// Checks that a grade says of a history all that the algebra tells apart.
    fn check_grade(&self, rt: &impl Abort, x: Self::Grade, history: History) -> Result<(), Fail>;
}

impl Graded for Counted {
    fn check_grade(&self, rt: &impl Abort, x: CountedGrade, history: History) -> Result<(), Fail> {
        let count = self.cap().min(u16::from(history.changes));
        assert_eq!(rt; (x.start, x.end), (history.start, history.end()));
        assert_eq!(rt; self.count(x), count);
        assert_eq!(rt; self.saturated(x), count == self.cap());
        Ok(())
    }
}

impl Graded for Eight {
    fn check_grade(&self, rt: &impl Abort, x: EightGrade, history: History) -> Result<(), Fail> {
        assert_eq!(rt; x, EightGrade::from(history));
        Ok(())
    }
}

impl Graded for Five {
    fn check_grade(&self, rt: &impl Abort, x: FiveGrade, history: History) -> Result<(), Fail> {
        assert_eq!(rt; self.symbol(x), Symbol::from(history));
        Ok(())
    }
}

impl From<History> for EightGrade {
    fn from(history: History) -> EightGrade {
        EightGrade {
            start: history.start,
            end: history.end(),
            more: history.changes > 1,
        }
    }
}

impl From<History> for Symbol {
    fn from(history: History) -> Symbol {
        match (history.changes, history.start) {
            (0, false) => Symbol::Zero,
            (0, true) => Symbol::One,
            (1, false) => Symbol::Rise,
            (1, true) => Symbol::Fall,
            (_, _) => Symbol::Half,
        }
    }
}

impl From<History> for Verdict {
    fn from(history: History) -> Verdict {
        match history.changes {
            0 => Verdict::Steady,
            1 => Verdict::CleanChange,
            n if n % 2 == 0 => Verdict::StaticHazard,
            _ => Verdict::DynamicHazard,
        }
    }
}
