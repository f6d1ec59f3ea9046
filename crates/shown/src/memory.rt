// Theorems on memory: what is learnt and what is shown fits the memory that is lent. Each function only names its theorem.
ghost use Rattle.shown.specs.Budgets.{BudgetsHold};
ghost use Rattle.shown.specs.ShownAnswers.{AnswersShown};
ghost use Rattle.shown.specs.ShownFits.{ShownFitsMemory};
ghost use Rattle.shown.specs.ShownGarment.{GarmentShown};

/// How much is learnt on one way through a sheet and a tree, and the work memory that holds it.
#[tactic(auto, using(crate::proofs::LearntOnPath::budgets_hold))]
pub fn budgets_hold()
    ensures { BudgetsHold }
{}

/// The answers heard, as numbers: the rule that they list, and how many they are.
#[tactic(auto, using(crate::proofs::HeardAnswers::answers_shown))]
pub fn answers_shown()
    ensures { AnswersShown }
{}

/// The garment of some knowledge, as entries: well typed, fitting, and few.
#[tactic(auto, using(crate::proofs::GarmentShown::garment_shown))]
pub fn garment_shown()
    ensures { GarmentShown }
{}

/// What is shown where a sheet and a tree within their limits differ fits the memory lent.
#[tactic(auto, using(crate::proofs::ShownTogether::shown_fits_memory))]
pub fn shown_fits_memory()
    ensures { ShownFitsMemory }
{}
