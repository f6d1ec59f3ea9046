// Theorems on runs: what they answer, and which looks they take. Each function only names its theorem.
ghost use Rattle.theory.specs.ProperRuns.{RunsProper};
ghost use Rattle.theory.specs.Theorems.{RunsAnswer};

/// Executing a run in the world of a garment gives the answer that rules define.
#[tactic(auto, using(crate::proofs::TreeAnswers::runs_answer))]
pub fn runs_answer()
    ensures { RunsAnswer }
{}

/// A run takes only looks that may be taken with what its earlier looks have told.
#[tactic(auto, using(crate::proofs::ProperRuns::runs_proper))]
pub fn runs_proper()
    ensures { RunsProper }
{}
