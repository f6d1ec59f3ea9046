// The fifteen calls of a file, by name, tag and text.
ghost use Rattle.std.specs.Prelude.{◌≡◌, Some as Given};
ghost use Rattle.pattern_file.specs.Names.{name_of, known, tag_of, text_of};

use crate::faults::FormatFault;
use std::fmt;

/// Which call an entry makes; the number of each is its tag.
#[derive(Clone, Copy, PartialEq, Eq, Debug)]
pub enum CallName {
    Type = 1,
    Constructor = 2,
    Any = 3,
    Bind = 4,
    Build = 5,
    Either = 6,
    Gauge = 7,
    Clause = 8,
    Place = 9,
    Leaf = 10,
    Fail = 11,
    Never = 12,
    Switch = 13,
    Test = 14,
    Ask = 15,
}

// The call of a tag, from 1 to 15.
impl TryFrom<u8> for CallName {
    type Error = FormatFault;

    ghost try_from_gives = { λ tag name. name ≡ known (name_of tag) };

    fn try_from(tag: u8) -> Result<CallName, FormatFault> {
        match tag {
            1 => Ok(CallName::Type),
            2 => Ok(CallName::Constructor),
            3 => Ok(CallName::Any),
            4 => Ok(CallName::Bind),
            5 => Ok(CallName::Build),
            6 => Ok(CallName::Either),
            7 => Ok(CallName::Gauge),
            8 => Ok(CallName::Clause),
            9 => Ok(CallName::Place),
            10 => Ok(CallName::Leaf),
            11 => Ok(CallName::Fail),
            12 => Ok(CallName::Never),
            13 => Ok(CallName::Switch),
            14 => Ok(CallName::Test),
            15 => Ok(CallName::Ask),
            _ => Err(FormatFault::UnknownTag),
        }
    }
}

// The tag, which gives the name back.
impl From<CallName> for u8 {
    ghost from_gives = { λ name tag. (tag ≡ tag_of name) × (name_of tag ≡ Given name) };

    fn from(name: CallName) -> u8 {
        name as u8
    }
}

impl CallName {
    /// The name as text.
    pub fn as_str(self) -> &'static str
        ensures { result.now ≡ text_of self }
    {
        match self {
            CallName::Type => "type",
            CallName::Constructor => "constructor",
            CallName::Any => "any",
            CallName::Bind => "bind",
            CallName::Build => "build",
            CallName::Either => "either",
            CallName::Gauge => "gauge",
            CallName::Clause => "clause",
            CallName::Place => "place",
            CallName::Leaf => "leaf",
            CallName::Fail => "fail",
            CallName::Never => "never",
            CallName::Switch => "switch",
            CallName::Test => "test",
            CallName::Ask => "ask",
        }
    }
}

impl fmt::Display for CallName {
    ghost output = { λ name. Given (text_of name) };

    fn fmt<W: fmt::Write>(&self, f: &mut fmt::Formatter<W>) -> fmt::Result {
        f.write_str(self.as_str())
    }
}
