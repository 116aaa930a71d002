//! The eight-valued algebra: the start, the end, and whether there is more than one change.

pub mod works;

/// The start and the end of a transient, and whether it has more than one change. Every entry is a transient's grade.
#[derive(Clone, Copy, PartialEq, Eq, Debug)]
pub struct EightGrade {
    pub start: bool,
    pub end: bool,
    pub more: bool,
}

/// The eight-valued algebra.
#[derive(Clone, Copy)]
pub struct Eight;
