// Why a call is refused.
ghost use Rattle.std.specs.Prelude.{◌≡◌};
ghost use Rattle.rules.specs.Refusals.{refusal_number};

use pattern_file::Placed;

/// A ground on which calls are refused, with its number.
#[derive(Clone, Copy, PartialEq, Eq, Debug)]
pub enum Refusal {
    PassOut = 1,
    ShortMemory = 2,
    WrongParts = 3,
    Unknown = 4,
    WrongType = 5,
    RepeatedConstructor = 6,
    BadVariable = 7,
    NoTest = 8,
    TooDeep = 9,
    BadFile = 10,
    BadGarment = 11,
    NoPass = 12,
    TableFull = 13,
    TooHeavy = 14,
    NoClause = 15,
    NoNode = 16,
}

// The number by which a refusal is reported.
impl From<Refusal> for u8 {
    ghost from_gives = { λ r n. n ≡ refusal_number r };

    fn from(refusal: Refusal) -> u8 {
        refusal as u8
    }
}

/// Where and why reading a file stopped.
pub type ReadFault = Placed<Refusal>;
