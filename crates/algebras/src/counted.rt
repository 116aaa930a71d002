//! The counted algebra: the start, the end, and a count of changes up to a cap.

ghost use Rattle.std.specs.Prelude.{◌≤◌};

pub mod grade;
pub mod works;

/// The counted algebra with a cap of 2 to 65,535.
#[derive(Clone, Copy)]
pub struct Counted {
    cap: u16,
    ghost sound: { 2 ≤ cap },
}
