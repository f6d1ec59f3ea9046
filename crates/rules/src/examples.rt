// Theorems on the rules, each on a function of its own: the contract is the statement.
ghost use Rattle.rules.specs.Examples.{Examples};
ghost use Rattle.rules.specs.Typed.{GarmentsAreValues};

/// What a well-typed list of entries means.
#[tactic(auto, using(crate::proofs::WellTyped::garments_are_values))]
pub fn garments_are_values()
    ensures { GarmentsAreValues }
{}

/// The worked examples follow from the rules.
#[tactic(auto, using(crate::proofs::ExamplesHold::examples_hold))]
pub fn examples_hold()
    ensures { Examples }
{}
