//! The grades of the counted algebra, and why no algebra is made.

/// How many changes a grade counts: so many pairs and, with unequal ends, one more; or the cap.
// Not an `Option`: a grade that is saturated does not lack a count, and `None` would not say which it is.
#[derive(Clone, Copy, PartialEq, Eq, Debug)]
pub enum Count {
    Half(u16),
    Saturated,
}

/// The start, the end and the count of a transient.
#[derive(Clone, Copy, PartialEq, Eq, Debug)]
pub struct CountedGrade {
    pub start: bool,
    pub end: bool,
    pub count: Count,
}

/// Why no counted algebra is made, with the refusal's number.
#[derive(Clone, Copy, PartialEq, Eq, Debug)]
pub enum CapFault {
    TooSmall = 1,
}
