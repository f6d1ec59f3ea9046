// What the calls accept fits the theory: the sheet and the tree of every workbook that calls can make may be judged.
// Each function has a theorem for its contract, which its caller learns; one generic function would want a type for each statement.
#![tactic(auto)]

ghost use Rattle.accepted.specs.Judgeable.{ReachedJudgeable, ReachedLawful};

pub mod releases;

/// In every workbook that calls can make, sheet and tree fit their types and keep the limits.
pub fn reached_judgeable()
    ensures { ReachedJudgeable }
{}

/// So the verdict on any such workbook is what the law on runs asks of a judge.
#[tactic(auto, using(crate::proofs::Judgeable::reached_lawful))]
pub fn reached_lawful()
    ensures { ReachedLawful }
{}
