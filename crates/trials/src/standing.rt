//! Nets that stand, each with its column.

use crate::graded::Graded;
use crate::simulator::{History, Part};
use algebras::algebra::Algebra;
use algebras::counted::Counted;
use algebras::counted::grade::CountedGrade;
use algebras::telling::Telling;
use algebras::verdict::Verdict;
use nets::fault::{NetFault, ReadFault};
use nets::net::Net;
use nets::told::Told;
use std::alloc::{AllocError, Global};
use std::ops::{Range, RangeBounds};
use std::process::Abort;
use std::test::*;

/// A net and its column.
#[derive(Drop)]
pub struct Standing<L: Algebra> {
    pub net: Net<L>,
    pub column: Vec<L::Grade>,
}

/// A column of so many entries, all of them the grade of the word 0.
pub(crate) fn blank_column<L: Algebra>(
    heap: Global,
    algebra: &L,
    entries: usize,
) -> Result<Vec<L::Grade>, AllocError> {
    Ok(vec![in heap; algebra.drive(false, 0); entries]?)
}

impl<L: Algebra + Drop> Standing<L> {
    /// An empty net, and a blank column of so many entries.
    pub(crate) fn open(heap: Global, algebra: L, entries: usize) -> Result<Self, AllocError> {
        let column = blank_column(heap, &algebra, entries)?;
        let net = Net::open(heap, algebra)?;
        Ok(Standing { net, column })
    }
}

impl<L: Algebra> Standing<L> {
    /// Places every part.
    pub(crate) fn place(&mut self, parts: &[Part]) -> Result<(), NetFault> {
        for part in parts {
            match part {
                Part::Input(start, changes) => {
                    self.net
                        .place_input(&mut self.column, u8::from(*start), *changes)?
                }
                Part::Gate(function, pins) => {
                    self.net
                        .place_gate(&mut self.column, u8::from(*function), pins)?
                }
            };
        }
        Ok(())
    }

    /// Reads records.
    pub(crate) fn read(&mut self, bytes: &[u8]) -> Result<usize, ReadFault> {
        self.net.read(&mut self.column, bytes)
    }
}

impl<L: Graded> Standing<L> {
    /// Checks that the first wires have the grades of these histories.
    pub(crate) fn check_grades(
        &self,
        rt: &impl Abort,
        algebra: &L,
        histories: &[History],
    ) -> Result<(), Fail> {
        for (wire, history) in histories.iter().enumerate() {
            algebra.check_grade(rt, self.net.look_up(&self.column, wire)?, *history)?;
        }
        Ok(())
    }
}

impl<L: Telling> Standing<L> {
    /// Checks that of the first wires the starts, ends and verdicts of these histories are told.
    pub(crate) fn check_told(&self, rt: &impl Abort, histories: &[History]) -> Result<(), Fail> {
        for (wire, history) in histories.iter().enumerate() {
            let told = Told {
                start: history.start,
                end: history.end(),
                verdict: Verdict::from(*history),
            };
            assert_eq!(rt; self.net.tell(&self.column, wire)?, told);
        }
        Ok(())
    }
}

impl Standing<Counted> {
    /// A net of so many inputs, and a column of so many entries, where those above the inputs are as no input's.
    pub(crate) fn with_inputs(heap: Global, inputs: usize, entries: usize) -> Result<Self, Fail> {
        let counted = Counted::new(1000)?;
        let mut column = vec![in heap; counted.drive(true, 7); entries.max(inputs)]?;
        let mut net = Net::open(heap, counted)?;
        for _ in 0..inputs {
            net.place_input(&mut column, 0, 1)?;
        }
        column.truncate(entries);
        Ok(Standing { net, column })
    }
}

/// Whether two columns have the same entries, but for those of some wires.
pub(crate) fn same_entries(
    before: &[CountedGrade],
    after: &[CountedGrade],
    but: Range<usize>,
) -> bool {
    before
        .iter()
        .zip(after.iter())
        .enumerate()
        .all(|(wire, (x, y))| x == y || but.contains(&wire))
}
