// The theory of the judge: comparing two forms of rules by looks is exact both ways, ends, and may be quick.
// Each function has a theorem for its contract, which its caller learns; one generic function would want a type for each statement.
#![tactic(auto)]

pub mod exploring;
pub mod following;
pub mod knowledge;
pub mod runs;
