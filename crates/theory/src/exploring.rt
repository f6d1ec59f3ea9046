// Exploring two runs by looks is exact, and so is the judge's verdict on them.
ghost use Rattle.theory.specs.Theorems.{ExploringExact};
ghost use Rattle.theory.specs.Verdicts.{VerdictExact};
ghost use Rattle.theory.specs.Quick.{QuickHolds};
ghost use Rattle.theory.specs.Left.{LooksFall};

/// Alike only where all get the same answer; where it says differs, some garment and rule get the two answers named.
#[tactic(auto, using(crate::proofs::Judging::exact))]
pub fn exploring_exact()
    ensures { ExploringExact }
{}

/// Alike exactly where every well-typed garment and rule get the same answers.
#[tactic(auto, using(crate::proofs::Judging::verdict_exact))]
pub fn verdict_exact()
    ensures { VerdictExact }
{}

/// What is left of a run falls with each look taken, whatever looks weigh.
#[tactic(auto, using(crate::proofs::LooksLeft::looks_fall))]
pub fn looks_fall()
    ensures { LooksFall }
{}

/// Exploring may resume, branches in two, may skip looks that decide nothing, and may be remembered.
pub fn quick_holds()
    ensures { QuickHolds }
{}
