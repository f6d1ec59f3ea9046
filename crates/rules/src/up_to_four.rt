// Up to four numbers, held in the value itself: rows are `Copy` and ask for no memory. A contract sees them as their list.
ghost use Rattle.std.specs.Prelude.{◌≡◌, ◌≤◌, ◌↔◌, ◌==◌, length, IsSome, IfSome};

use std::marker::Model;

/// The first `count` of `numbers`; the others are 0.
// An array with its count, since the kit's `ArrayVec` is not `Copy`.
#[derive(Clone, Copy, PartialEq, Eq, Debug)]
pub struct UpToFour {
    count: u8,
    numbers: [u16; 4],
}

impl Model for UpToFour {
    ghost use Rattle.std.specs.Prelude.{ℕ, List, length, take};
    ghost use Rattle.rules.specs.UpToFour.{HoldsUpToFour, padded, length-held, padded-held};

    ghost Value = { List ℕ };

    ghost view = { λ u. take u.count u.numbers };

    ghost invariant = { λ u. HoldsUpToFour u.count u.numbers };

    ghost inverse = { λ l. record { count = length l; numbers = padded l } };

    ghost inverse_ok = { λ u h i. record {
      count = length-held u.count u.numbers h i;
      numbers = padded-held u.count u.numbers h i;
    } };
}

impl UpToFour {
    /// These numbers, or nothing where they are more than four.
    pub fn new(numbers: &[u16]) -> Option<UpToFour>
        ensures fits { IsSome result ↔ (length numbers.now ≤ 4) }
        ensures held { IfSome result (λ u. u ≡ numbers.now) }
    {
        let count = u8::try_from(numbers.len()).ok()?;
        if count > 4 {
            return None;
        }
        let mut held = [0; 4];
        held[..numbers.len()].copy_from_slice(numbers);
        Some(UpToFour {
            count,
            numbers: held,
        })
    }

    /// The numbers as a slice, of at most four.
    pub fn as_slice(&self) -> &[u16]
        ensures held { result.now ≡ self.now }
        ensures few { length result.now ≤ 4 }
    {
        &self.numbers[..self.len()]
    }

    /// How many numbers there are, at most four.
    pub fn len(&self) -> usize
        ensures value { result ≡ length self.now }
        ensures few { result ≤ 4 }
    {
        usize::from(self.count)
    }

    /// Whether there is no number.
    pub fn is_empty(&self) -> bool
        ensures { result ≡ (length self.now == 0) }
    {
        self.count == 0
    }
}
