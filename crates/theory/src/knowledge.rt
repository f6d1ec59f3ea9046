// What is proved of knowledge: which types have values, what it tells, how it starts and grows, and that values fit it.
ghost use Rattle.theory.specs.Theorems.{InhabitedExactly, TellsRight, GoodFits, LearningSplits, StartFitsAll};

/// Closing over the constructors finds just the types that have values.
#[tactic(auto, using(crate::proofs::Inhabiting::inhabited_exactly))]
pub fn inhabited_exactly()
    ensures { InhabitedExactly }
{}

/// What knowledge tells of a look is right in every garment and rule that fit it.
#[tactic(auto, using(crate::proofs::Telling::tells_right))]
pub fn tells_right()
    ensures { TellsRight }
{}

/// Knowing nothing, every well-typed garment and every rule fit, and every place of an inhabited type is left a candidate or an atom.
#[tactic(auto, using(crate::proofs::Starting::start_fits_all))]
pub fn start_fits_all()
    ensures { StartFitsAll }
{}

/// An open look learnt either way splits just those that fit; it is told from then on, and nothing told before is lost.
#[tactic(auto, using(crate::proofs::Learning::learning_splits))]
pub fn learning_splits()
    ensures { LearningSplits }
{}

/// Where type 0 has values, good knowledge has a garment and a rule that fit it.
#[tactic(auto, using(crate::proofs::Growing::good_fits))]
pub fn good_fits()
    ensures { GoodFits }
{}
