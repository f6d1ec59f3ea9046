// What can be wrong with a file's bytes.
ghost use Rattle.std.specs.Prelude.{◌≡◌, Some as Printed};
ghost use Rattle.pattern_file.specs.Faults.{fault_number, message_of};

use crate::placed::Placed;
use std::error::Error;
use std::fmt;

/// A fault of the format itself.
#[derive(Clone, Copy, PartialEq, Eq, Debug)]
pub enum FormatFault {
    /// not 4 + 9n bytes, or too many entries
    Length,
    /// an entry's tag is above 15
    UnknownTag,
    /// numbers were put after the last call
    NumbersLeft,
}

/// A fault with the entry at which reading stopped.
pub type FileFault = Placed<FormatFault>;

// The number by which a fault is reported.
impl From<FormatFault> for u32 {
    ghost from_gives = { λ fault number. number ≡ fault_number fault };

    fn from(fault: FormatFault) -> u32 {
        match fault {
            FormatFault::Length => 10,
            FormatFault::UnknownTag => 10,
            FormatFault::NumbersLeft => 10,
        }
    }
}

// What a fault means, for people; by hand, so that the text is promised: a derived message states none.
impl fmt::Display for FormatFault {
    ghost output = { λ fault. Printed (message_of fault) };

    fn fmt<W: fmt::Write>(&self, f: &mut fmt::Formatter<W>) -> fmt::Result {
        f.write_str(match self {
            FormatFault::Length => {
                "no pattern file: it has 4 + 9n bytes, where n, at most 5000, stands in the first four"
            }
            FormatFault::UnknownTag => "a tag above 15 is no call",
            FormatFault::NumbersLeft => "numbers are left over after the last call",
        })
    }
}

impl Error for FormatFault {}
