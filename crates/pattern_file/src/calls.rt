// Calls as the reader hands them out: each has its own number, and the part of the file's bytes with the numbers put before it.
ghost use Rattle.std.specs.Prelude.{◌≡◌, Some as Printed};
ghost use Rattle.pattern_file.specs.Calls.{named, name_of_call, parts_of_call, text_of_call};

use crate::names::CallName;
use crate::numbers::PutNumbers;
use crate::placed::Placed;
use std::fmt;

/// What every call has.
#[derive(Clone, Copy)]
pub struct Parts<'a> {
    pub own: i64,
    pub put: PutNumbers<'a>,
}

/// A call of a file, by its name: its own number and the run of numbers put before it.
// Beside `CallName` by a rule of the project: each call is handed out as a case that holds its own number and its run of put numbers.
#[derive(Clone, Copy)]
pub enum Call<'a> {
    Type(Parts<'a>),
    Constructor(Parts<'a>),
    Any(Parts<'a>),
    Bind(Parts<'a>),
    Build(Parts<'a>),
    Either(Parts<'a>),
    Gauge(Parts<'a>),
    Clause(Parts<'a>),
    Place(Parts<'a>),
    Leaf(Parts<'a>),
    Fail(Parts<'a>),
    Never(Parts<'a>),
    Switch(Parts<'a>),
    Test(Parts<'a>),
    Ask(Parts<'a>),
}

/// A call and its entry.
pub type PlacedCall<'a> = Placed<Call<'a>>;

impl<'a> Call<'a> {
    /// The call of a name.
    pub fn new(name: CallName, parts: Parts<'a>) -> Call<'a>
        ensures { result ≡ named parts.entry name }
    {
        match name {
            CallName::Type => Call::Type(parts),
            CallName::Constructor => Call::Constructor(parts),
            CallName::Any => Call::Any(parts),
            CallName::Bind => Call::Bind(parts),
            CallName::Build => Call::Build(parts),
            CallName::Either => Call::Either(parts),
            CallName::Gauge => Call::Gauge(parts),
            CallName::Clause => Call::Clause(parts),
            CallName::Place => Call::Place(parts),
            CallName::Leaf => Call::Leaf(parts),
            CallName::Fail => Call::Fail(parts),
            CallName::Never => Call::Never(parts),
            CallName::Switch => Call::Switch(parts),
            CallName::Test => Call::Test(parts),
            CallName::Ask => Call::Ask(parts),
        }
    }

    /// Which call it is.
    pub fn name(&self) -> CallName
        ensures { result ≡ name_of_call self.now }
    {
        match self {
            Call::Type(_) => CallName::Type,
            Call::Constructor(_) => CallName::Constructor,
            Call::Any(_) => CallName::Any,
            Call::Bind(_) => CallName::Bind,
            Call::Build(_) => CallName::Build,
            Call::Either(_) => CallName::Either,
            Call::Gauge(_) => CallName::Gauge,
            Call::Clause(_) => CallName::Clause,
            Call::Place(_) => CallName::Place,
            Call::Leaf(_) => CallName::Leaf,
            Call::Fail(_) => CallName::Fail,
            Call::Never(_) => CallName::Never,
            Call::Switch(_) => CallName::Switch,
            Call::Test(_) => CallName::Test,
            Call::Ask(_) => CallName::Ask,
        }
    }

    /// Its own number and the numbers put before it.
    pub fn parts(self) -> Parts<'a>
        ensures { result ≡ parts_of_call self.entry }
    {
        match self {
            Call::Type(parts)
            | Call::Constructor(parts)
            | Call::Any(parts)
            | Call::Bind(parts)
            | Call::Build(parts)
            | Call::Either(parts)
            | Call::Gauge(parts)
            | Call::Clause(parts)
            | Call::Place(parts)
            | Call::Leaf(parts)
            | Call::Fail(parts)
            | Call::Never(parts)
            | Call::Switch(parts)
            | Call::Test(parts)
            | Call::Ask(parts) => parts,
        }
    }
}

// `NAME OWN PUT PUT ..`, the put numbers in order.
impl fmt::Display for Call<'_> {
    ghost output = { λ call. Printed (text_of_call call) };

    fn fmt<W: fmt::Write>(&self, f: &mut fmt::Formatter<W>) -> fmt::Result {
        let name = self.name();
        let own = self.parts().own;
        write!(f, "{name} {own}")?;
        for number in self.parts().put.iter() {
            write!(f, " {number}")?;
        }
        Ok(())
    }
}
