// What a verdict shows: a garment and answers within the memory that is lent, and the verdict in the terms of the rules.
// Each function has a theorem for its contract, which its caller learns; one generic function would want a type for each statement.
#![tactic(auto)]

pub mod judging;
pub mod memory;
