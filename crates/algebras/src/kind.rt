//! The kinds of gate.

ghost use Rattle.std.specs.Prelude.{◌≡◌, MatchResult, Some, None};
ghost use Rattle.algebras.specs.Kinds.{kind_number, kind_of, pins_allowed};

/// A kind of gate, with its number.
#[derive(Clone, Copy, PartialEq, Eq, Debug)]
pub enum Kind {
    Buffer = 1,
    Inverter = 2,
    And = 3,
    Or = 4,
    Xor = 5,
    Nand = 6,
    Nor = 7,
    Xnor = 8,
}

/// A number that is no kind's.
#[derive(Clone, Copy, PartialEq, Eq, Debug)]
pub struct NoKind;

impl TryFrom<u8> for Kind {
    type Error = NoKind;

    ghost try_from_gives = { λ n r. MatchResult r (λ k. kind_of n ≡ Some k) (λ _. kind_of n ≡ None) };

    /// The kind with this number, if there is one.
    fn try_from(number: u8) -> Result<Kind, NoKind> {
        match number {
            1 => Ok(Kind::Buffer),
            2 => Ok(Kind::Inverter),
            3 => Ok(Kind::And),
            4 => Ok(Kind::Or),
            5 => Ok(Kind::Xor),
            6 => Ok(Kind::Nand),
            7 => Ok(Kind::Nor),
            8 => Ok(Kind::Xnor),
            _ => Err(NoKind),
        }
    }
}

impl From<Kind> for u8 {
    ghost from_gives = { λ k n. n ≡ kind_number k };

    /// The number of a kind.
    fn from(kind: Kind) -> u8 {
        // An enum becomes its number by `as` alone.
        kind as u8
    }
}

impl Kind {
    /// Whether a gate of this kind may have so many pins.
    pub fn admits(self, pins: usize) -> bool
        ensures { result ≡ pins_allowed self pins }
    {
        match self {
            Kind::Buffer | Kind::Inverter => pins == 1,
            Kind::And | Kind::Or | Kind::Xor | Kind::Nand | Kind::Nor | Kind::Xnor => {
                (2..=8).contains(&pins)
            }
        }
    }
}
