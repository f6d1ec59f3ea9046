// The verdict on a sheet and a tree, and on a workbook: each function names its theorem.
ghost use Rattle.shown.specs.Judgement.{JudgingExact, JudgingShows};
ghost use Rattle.shown.specs.LawfulVerdicts.{VerdictsLawful};

/// The verdict on a sheet and a tree that fit their types is exact, by their answers to values.
#[tactic(auto, using(crate::proofs::Judgements::judging_exact))]
pub fn judging_exact()
    ensures { JudgingExact }
{}

/// Where they differ, a well-typed garment and listed answers that show it fit the memory.
pub fn judging_shows()
    ensures { JudgingShows }
{}

/// The verdict on a workbook whose sheet and tree fit their types and keep the limits is what the law on runs asks of a judge.
#[tactic(auto, using(crate::proofs::LawfulVerdicts::verdicts_lawful))]
pub fn verdicts_lawful()
    ensures { VerdictsLawful }
{}
