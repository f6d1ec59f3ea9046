// Theorems for code that follows a run by plain recursion and asks for its looks. Each function only names its theorem.
ghost use Rattle.theory.specs.Bridges.{BridgesHold};
ghost use Rattle.theory.specs.Following.{Following};
ghost use Rattle.theory.specs.RowLaws.{RowsUnfold};
ghost use Rattle.theory.specs.RowNames.{RowsNameEarlier};
ghost use Rattle.theory.specs.Settle.{Settling};

/// Settling a run by what someone knows keeps its answer, and stops only at open looks.
#[tactic(auto, using(crate::proofs::Settled::settling))]
pub fn settling_holds()
    ensures { Settling }
{}

/// What settles, form by form, whoever answers the looks.
pub fn bridges_hold()
    ensures { BridgesHold }
{}

/// The plain recursions end just as the runs settle.
#[tactic(auto, using(crate::proofs::Followed::following))]
pub fn following_holds()
    ensures { Following }
{}

/// Each row's meaning is made of the meanings before it.
#[tactic(auto, using(crate::proofs::Unfolding::rows_unfold))]
pub fn rows_unfold()
    ensures { RowsUnfold }
{}

/// Rows that name only earlier rows are made of the meanings of the whole table, and later rows do not change them.
#[tactic(auto, using(crate::proofs::Naming::rows_name_earlier))]
pub fn rows_name_earlier()
    ensures { RowsNameEarlier }
{}
