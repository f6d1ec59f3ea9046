// Kinds of measure: what a kind promises (the trait `Kind`), and what is done alike with any of them.
#![tactic(auto)]

ghost use Rattle.std.specs.Prelude.{◌≡◌, ℕ, Bool, true, false, ◌&&◌, ℤ, MatchOption};
ghost use Rattle.measure.specs.Measure.{Measure, Lawful, gives};

mod asks;

pub use asks::{Ask, any_atom, solve};

/// A kind serves some of the sorts 0 to 65,535. A sort that it serves has atoms, at least one, and tests, each a yes or
/// no for every atom. No call is refused, and none changes what the kind means.
// A sort and a number go side by side: callers have the sort from a type and the number from a call, and would put them together for each question.
pub trait Kind: Drop {
    /// A set of atoms of one sort.
    type Region: Copy;

    // Which sorts it serves, and the atoms and tests of each.
    ghost meaning: { Self → Measure };

    // The sort whose atoms a region holds, and which of them it holds.
    ghost sortof: { Self → Self.Region → ℕ };

    ghost holds: { Self → Self.Region → ℤ → Bool };

    fn serves(&self, sort: u16) -> bool
        ensures { result ≡ (meaning self.now).serves sort };

    fn is_atom(&self, sort: u16, atom: i64) -> bool
        ensures { result ≡ (meaning self.now).atom sort atom };

    fn is_test(&self, sort: u16, test: i64) -> bool
        ensures { result ≡ (meaning self.now).test sort test };

    /// A number that is no test is passed by no atom, and one that is no atom passes no test.
    fn passes(&self, sort: u16, test: i64, atom: i64) -> bool
        ensures { result ≡ (meaning self.now).passes sort test atom };

    /// All atoms of a sort.
    fn whole(&self, sort: u16) -> Self::Region
        ensures of { sortof self.now result ≡ sort }
        ensures all { (n : ℤ) → holds self.now result n ≡ (meaning self.now).atom sort n };

    /// The atoms of the region that give the wanted answer to the test.
    fn narrow(&self, region: Self::Region, ask: Ask) -> Self::Region
        ensures of { sortof self.now result ≡ sortof self.now region }
        ensures kept { (n : ℤ) → holds self.now result n ≡ (holds self.now region n && gives ask.wanted ((meaning self.now).passes (sortof self.now region) ask.test n)) };

    /// An atom of the region, or `None` where it has none. Which of its atoms is free.
    fn pick(&self, region: &Self::Region) -> Option<i64>
        ensures cases { MatchOption result ((n : ℤ) → holds self.now region.now n ≡ false) (λ n. holds self.now region.now n ≡ true) };

    ghost lawful: { (k : Self) → Lawful (meaning k) };

    // What a region holds are atoms of its sort.
    ghost inside: { (k : Self) (r : Self.Region) (n : ℤ) → holds k r n ≡ true → (meaning k).atom (sortof k r) n ≡ true };
}
