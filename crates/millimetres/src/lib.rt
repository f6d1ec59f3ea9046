// Lengths in whole millimetres, with tests of the form "at most".
#![tactic(auto)]

ghost use Rattle.std.specs.Prelude.{◌≡◌, ◌≤ℤ◌};
ghost use Rattle.millimetres.specs.declared.TheConstants.{SHORTEST, LONGEST};
ghost use Rattle.millimetres.specs.Millimetres.{measurable, limit, interval, millimetres};
ghost use Rattle.millimetres.specs.Intervals.{millimetres-Lawful};
ghost use Rattle.std.proofs.Common.{rules};

use measure::{Ask, Kind};

const SHORTEST: i64 = -1_000;

const LONGEST: i64 = 10_000;

/// The lengths from -1,000 to 10,000 mm, as sort 0. Each is a test too, passed by the lengths of at most it.
#[derive(Clone, Copy, Debug, Default, PartialEq, Eq)]
pub struct Millimetres;

/// The lengths from `low` to `high` where the sort is 0, else none.
#[derive(Clone, Copy, Debug)]
pub struct Interval {
    sort: u16,
    low: i64,
    high: i64,
    ghost above: { SHORTEST ≤ℤ low },
    ghost below: { high ≤ℤ LONGEST },
}

fn is_length(sort: u16, n: i64) -> bool
    ensures { result ≡ measurable sort n }
{
    sort == 0 && (SHORTEST..=LONGEST).contains(&n)
}

// The greatest length that passes the test: below all of them where the number is no test.
fn greatest(sort: u16, test: i64) -> i64
    ensures value { result ≡ limit sort test }
    ensures below { result ≤ℤ LONGEST }
{
    if is_length(sort, test) {
        test
    } else {
        SHORTEST - 1
    }
}

impl Kind for Millimetres {
    type Region = Interval;

    ghost meaning = { λ _. millimetres };

    ghost sortof = { λ _ r. r.sort };

    ghost holds = { λ _ r n. interval r.sort r.low r.high n };

    ghost lawful = { λ k. millimetres-Lawful };

    ghost inside = { Prim.search rules };

    fn serves(&self, sort: u16) -> bool {
        sort == 0
    }

    fn is_atom(&self, sort: u16, atom: i64) -> bool {
        is_length(sort, atom)
    }

    fn is_test(&self, sort: u16, test: i64) -> bool {
        is_length(sort, test)
    }

    fn passes(&self, sort: u16, test: i64, atom: i64) -> bool {
        self.is_test(sort, test) && self.is_atom(sort, atom) && atom <= test
    }

    fn whole(&self, sort: u16) -> Interval {
        Interval {
            sort,
            low: SHORTEST,
            high: LONGEST,
        }
    }

    fn narrow(&self, region: Interval, ask: Ask) -> Interval {
        let Interval { sort, low, high } = region;
        let greatest = greatest(sort, ask.test);
        if ask.wanted {
            return Interval {
                sort,
                low,
                high: high.min(greatest),
            };
        }
        Interval {
            sort,
            low: low.max(greatest + 1),
            high,
        }
    }

    fn pick(&self, region: &Interval) -> Option<i64> {
        (region.sort == 0 && region.low <= region.high).then_some(region.low)
    }
}
