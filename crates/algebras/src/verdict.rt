//! Verdicts on a wire.

ghost use Rattle.std.specs.Prelude.{◌≡◌};
ghost use Rattle.algebras.specs.Verdicts.{verdict_number, verdict_by};

/// What a designer is told of a wire, with its number.
#[derive(Clone, Copy, PartialEq, Eq, Debug)]
pub enum Verdict {
    /// No change.
    Steady = 1,
    /// Equal ends, and two changes or more.
    StaticHazard = 2,
    /// One change.
    CleanChange = 3,
    /// Unequal ends, and three changes or more.
    DynamicHazard = 4,
}

impl Verdict {
    // The verdict by a start, an end and a number of changes.
    pub(crate) fn by(start: bool, end: bool, changes: u16) -> Verdict
        ensures { result ≡ verdict_by start «end» changes }
    {
        if start == end {
            if changes == 0 {
                Verdict::Steady
            } else {
                Verdict::StaticHazard
            }
        } else if changes == 1 {
            Verdict::CleanChange
        } else {
            Verdict::DynamicHazard
        }
    }
}

impl From<Verdict> for u8 {
    ghost from_gives = { λ v n. n ≡ verdict_number v };

    /// The number of a verdict.
    fn from(verdict: Verdict) -> u8 {
        // An enum becomes its number by `as` alone.
        verdict as u8
    }
}
