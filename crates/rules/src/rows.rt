// The rows of a workbook's tables and the entries of a garment.
// Rows name earlier rows by number: calls return these numbers, and tables of stated sizes ask for no memory after set-up.
use crate::up_to_four::UpToFour;
use guards::Step;
use measure::Ask;

/// A type: a choice between constructors, or measured by atoms of a sort.
#[derive(Clone, Copy, PartialEq, Eq, Debug)]
pub enum TypeRow {
    Choice,
    Measured(u16),
}

/// A constructor: the type that it builds, and the types of its fields.
#[derive(Clone, Copy, PartialEq, Eq, Debug)]
pub struct ConstructorRow {
    pub owner: u16,
    pub fields: UpToFour,
}

/// A pattern, over earlier patterns.
#[derive(Clone, Copy, PartialEq, Eq, Debug)]
pub enum PatternRow {
    // everything of a type
    Any(u16),
    // what the inner pattern matches, with the variable on its place
    Bind { variable: u8, inner: u16 },
    // a constructor with a pattern for each field
    Build { constructor: u16, parts: UpToFour },
    // the left pattern or else the right one
    Either { left: u16, right: u16 },
    // atoms that give the wanted answer to the test, and that the inner pattern matches
    // (fields lie in this order: `inner` beside the tag, so that a row has 24 bytes)
    Gauge { inner: u16, ask: Ask },
}

/// A clause: a pattern, a guard if any, and an action.
#[derive(Clone, Copy, PartialEq, Eq, Debug)]
pub struct ClauseRow {
    pub pattern: u16,
    pub guard: Option<u16>,
    pub action: u16,
}

/// A place: one step below an earlier one. Place 0, the whole garment, has no row.
#[derive(Clone, Copy, PartialEq, Eq, Debug)]
pub struct PlaceRow {
    pub parent: u16,
    pub step: Step,
}

/// A branch of a switch: the node for a constructor.
#[derive(Clone, Copy, PartialEq, Eq, Debug)]
pub struct PairRow {
    pub constructor: u16,
    pub node: u16,
}

/// A node of a tree, over earlier nodes.
#[derive(Clone, Copy, PartialEq, Eq, Debug)]
pub enum NodeRow {
    Leaf {
        action: u16,
        places: UpToFour,
    },
    Fail,
    Never,
    // the pairs are `count` rows from `first` on of the one table that holds the pairs of all switches, at most 256
    Switch {
        place: u16,
        other: Option<u16>,
        first: u16,
        count: u16,
    },
    Test {
        place: u16,
        test: i64,
        yes: u16,
        no: u16,
    },
    Ask {
        guard: u16,
        places: UpToFour,
        yes: u16,
        no: u16,
    },
}

/// An entry of a garment, of type `ty`: built (mark 0, the head is a constructor) or measured (mark 1, the head is an atom).
/// Its numbers are plain, since users hand entries over: any that are wrong, unused ones too, must be sayable to be refused.
#[derive(Clone, Copy, PartialEq, Eq, Debug)]
pub struct GarmentEntry {
    pub ty: u32,
    pub mark: u8,
    pub head: i64,
    pub count: u8,
    pub children: [u32; 4],
}
