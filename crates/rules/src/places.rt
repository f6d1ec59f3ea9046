// A theorem on places: a caller of the function learns its statement.
ghost use Rattle.rules.specs.PlaceLaws.{PlacesAreSteps};

/// A place is its steps, and what a match binds stands in the value.
#[tactic(auto, using(crate::proofs::BoundPlaces::places_are_steps))]
pub fn places_are_steps()
    ensures { PlacesAreSteps }
{}
