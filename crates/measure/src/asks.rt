// What is done alike with every kind: an atom that answers a list of tests as wanted, and any atom of a sort.
ghost use Rattle.std.specs.Prelude.{◌≡◌, true, false, ℤ, is_some, IfSome, MatchOption};
ghost use Rattle.measure.specs.Asks.{answers};

use super::Kind;

/// A test with the answer that is wanted of it.
#[derive(Clone, Copy, Debug, PartialEq, Eq)]
pub struct Ask {
    pub test: i64,
    pub wanted: bool,
}

impl Ask {
    /// The test with the answer wanted of it.
    pub fn new(test: i64, wanted: bool) -> Ask
        ensures { result ≡ record { test = test; wanted = wanted } }
    {
        Ask { test, wanted }
    }
}

// The atoms of the sort that answer every test as wanted.
fn narrowed<K: Kind>(kind: &K, sort: u16, asks: &[Ask]) -> K::Region
    ensures { (n : ℤ) → K.holds kind.now result n ≡ answers (K.meaning kind.now) sort n asks.now }
{
    let mut region = kind.whole(sort);
    for ask in asks {
        region = kind.narrow(region, *ask);
    }
    region
}

/// An atom of the sort that answers every test as wanted, or `None` where it has none. Which atom is as free as in `pick`.
pub fn solve<K: Kind>(kind: &K, sort: u16, asks: &[Ask]) -> Option<i64>
    ensures { MatchOption result ((n : ℤ) → answers (K.meaning kind.now) sort n asks.now ≡ false) (λ n. answers (K.meaning kind.now) sort n asks.now ≡ true) }
{
    kind.pick(&narrowed(kind, sort, asks))
}

/// An atom of the sort, or `None` where the kind does not serve it. Which atom is as free as in `pick`.
pub fn any_atom<K: Kind>(kind: &K, sort: u16) -> Option<i64>
    ensures served { is_some result ≡ (K.meaning kind.now).serves sort }
    ensures atom { IfSome result (λ n. (K.meaning kind.now).atom sort n ≡ true) }
{
    kind.pick(&kind.whole(sort))
}
