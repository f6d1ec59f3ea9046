// What is released under a pass is faithful to the sheet.
ghost use Rattle.accepted.specs.Releases.{ReleasesFaithful};

/// Where sheet and tree are alike, the file of a release is read without a fault, and the tree there answers as the sheet did.
#[tactic(auto, using(crate::proofs::Faithfulness::releases_faithful))]
pub fn releases_faithful()
    ensures { ReleasesFaithful }
{}
