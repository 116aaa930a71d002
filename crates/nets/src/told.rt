//! What is told of a wire.

use algebras::verdict::Verdict;

/// The start, the end and the verdict of a wire.
#[derive(Clone, Copy, PartialEq, Eq, Debug)]
pub struct Told {
    pub start: bool,
    pub end: bool,
    pub verdict: Verdict,
}
