// The theorems that reading a release gives back what was released, and that bytes can say it.
ghost use Rattle.rules.specs.RoundTrip.{EntriesFit, FilesReadBack, ReleasesReadBack};

/// Reading the entries of a release into an empty workbook gives back the types, the constructors and the tree.
#[tactic(auto, using(crate::proofs::RoundTrip::files_read_back))]
pub fn files_read_back()
    ensures { FilesReadBack }
{}

/// Over a lawful kind each entry of a release has a tag of the file and a signed 64-bit number.
pub fn entries_fit()
    ensures { EntriesFit }
{}

/// So the bytes of a release read back too, without a fault.
#[tactic(auto, using(crate::proofs::RoundTrip::releases_read_back))]
pub fn releases_read_back()
    ensures { ReleasesReadBack }
{}
