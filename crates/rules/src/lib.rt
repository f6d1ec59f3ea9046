// The subject's rules: the rows that a workbook holds, and in specs/ the meaning of everything.
// The functions of matching, places, examples and round_trip name the theorems that make the definitions believable,
// one each, since one generic function would want a type for each statement.
#![tactic(auto)]

pub mod examples;
pub mod matching;
pub mod places;
pub mod refusal;
pub mod round_trip;
pub mod rows;
pub mod up_to_four;

pub use refusal::{ReadFault, Refusal};
pub use rows::{
    ClauseRow, ConstructorRow, GarmentEntry, NodeRow, PairRow, PatternRow, PlaceRow, TypeRow,
};
pub use up_to_four::UpToFour;
