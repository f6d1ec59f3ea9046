// Theorems on what patterns match: a caller of the function learns its statement.
ghost use Rattle.rules.specs.FirstClause.{FirstClauseAnswers};
ghost use Rattle.rules.specs.RowTable.{MatchingsAgree};
ghost use Rattle.rules.specs.Settled.{NoNeverRetries};

/// The table of running rows of patterns and the direct recursion give the same.
#[tactic(auto, using(crate::proofs::RowRuns::matchings_agree))]
pub fn matchings_agree()
    ensures { MatchingsAgree }
{}

/// After a guard's no the other side of an alternation is not tried.
#[tactic(auto, using(crate::proofs::SettledSides::no_never_retries))]
pub fn no_never_retries()
    ensures { NoNeverRetries }
{}

/// The first clause that accepts a value answers it, and where none does the answer is none.
#[tactic(auto, using(crate::proofs::FirstAnswer::first_clause_answers))]
pub fn first_clause_answers()
    ensures { FirstClauseAnswers }
{}
