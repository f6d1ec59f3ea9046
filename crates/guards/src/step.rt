// One step into a value: which constructor it has, and which of its fields to go to.
#[derive(Clone, Copy, PartialEq, Eq, Debug)]
pub struct Step {
    pub constructor: u16,
    pub field: u16,
}
