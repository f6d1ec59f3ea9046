// Two kinds as one.
#![tactic(auto)]

ghost use Rattle.std.specs.Prelude.{◌≡◌, ◌/◌, ◌%◌, ◌==◌, cond};
ghost use Rattle.joined.specs.Joined.{joined, either_sort, either_holds};
ghost use Rattle.joined.specs.Sides.{joined-Lawful};
ghost use Rattle.std.proofs.Common.{rules};

use either::{Either, Left, Right};
use measure::{Ask, Kind};

/// Sort 2s is sort s of the first kind, and sort 2s + 1 is sort s of the second; past 65,535 none is served. Joined kinds
/// join again.
#[derive(Clone, Copy, Debug, PartialEq, Eq, Drop)]
pub struct Joined<A, B> {
    pub first: A,
    pub second: B,
}

// The sort of its own kind that a sort is: on the left of the first kind, on the right of the second.
fn side(sort: u16) -> Either<u16, u16>
    ensures { result ≡ cond (sort % 2 == 0) (Either.Left (sort / 2)) (Either.Right (sort / 2)) }
{
    if sort % 2 == 0 {
        Left(sort / 2)
    } else {
        Right(sort / 2)
    }
}

impl<A: Kind, B: Kind> Kind for Joined<A, B> {
    type Region = Either<A::Region, B::Region>;

    ghost meaning = { λ k. joined (A.Kind.meaning k.first) (B.Kind.meaning k.second) };

    ghost sortof = { λ k. either_sort (A.Kind.sortof k.first) (B.Kind.sortof k.second) };

    ghost holds = { λ k. either_holds (A.Kind.holds k.first) (B.Kind.holds k.second) };

    ghost lawful = { λ k. joined-Lawful (A.Kind.lawful k.first) (B.Kind.lawful k.second) };

    ghost inside = { Prim.search rules };

    fn serves(&self, sort: u16) -> bool {
        side(sort).either(
            |own_sort| self.first.serves(own_sort),
            |own_sort| self.second.serves(own_sort),
        )
    }

    fn is_atom(&self, sort: u16, atom: i64) -> bool {
        side(sort).either(
            |own_sort| self.first.is_atom(own_sort, atom),
            |own_sort| self.second.is_atom(own_sort, atom),
        )
    }

    fn is_test(&self, sort: u16, test: i64) -> bool {
        side(sort).either(
            |own_sort| self.first.is_test(own_sort, test),
            |own_sort| self.second.is_test(own_sort, test),
        )
    }

    fn passes(&self, sort: u16, test: i64, atom: i64) -> bool {
        side(sort).either(
            |own_sort| self.first.passes(own_sort, test, atom),
            |own_sort| self.second.passes(own_sort, test, atom),
        )
    }

    fn whole(&self, sort: u16) -> Either<A::Region, B::Region> {
        side(sort).map_either(
            |own_sort| self.first.whole(own_sort),
            |own_sort| self.second.whole(own_sort),
        )
    }

    fn narrow(
        &self,
        region: Either<A::Region, B::Region>,
        ask: Ask,
    ) -> Either<A::Region, B::Region> {
        region.map_either(
            |region| self.first.narrow(region, ask),
            |region| self.second.narrow(region, ask),
        )
    }

    fn pick(&self, region: &Either<A::Region, B::Region>) -> Option<i64> {
        region.either(
            |region| self.first.pick(&region),
            |region| self.second.pick(&region),
        )
    }
}
