//! The five-valued algebra: the words 0, 1, 01 and 10, and one-half for every other transient.

pub mod works;

/// What the five-valued algebra tells of a transient, with its code.
#[derive(Clone, Copy, PartialEq, Eq, Debug)]
pub enum Symbol {
    /// The word 0.
    Zero = 0,
    /// The word 1.
    One = 1,
    /// The word 01, written 0/1.
    Rise = 2,
    /// The word 10, written 1/0.
    Fall = 3,
    /// Two changes or more, written ½.
    Half = 4,
}

/// A symbol's code. An entry that is no code, from 5 on, is read and worked as ½.
// A byte and no `Symbol`: a caller's column may hold any byte, and every one is worked.
#[derive(Clone, Copy, PartialEq, Eq, Debug)]
pub struct FiveGrade {
    pub code: u8,
}

/// The five-valued algebra.
#[derive(Clone, Copy)]
pub struct Five;
