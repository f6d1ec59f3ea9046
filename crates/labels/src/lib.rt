// A few labels, with tests that are sets of them.
#![tactic(auto, using(crate::specs::Masks::chosen_and, crate::specs::Masks::chosen_not, crate::specs::Masks::chosen_all))]

ghost use Rattle.std.specs.Prelude.{◌≡◌, ◌-◌, ◌^◌, ◌<◌, ◌≤◌, ◌&&◌, ℤ, pos, nat_le};
ghost use Rattle.std.specs.Option.{option_map};
ghost use Rattle.std.specs.Bool.{then_some};
ghost use Rattle.measure.specs.Measure.{gives};
ghost use Rattle.labels.specs.Labels.{digit, masked, labels};
ghost use Rattle.labels.specs.Masks.{labels-Lawful};
ghost use Rattle.std.proofs.Common.{arith};

use measure::{Ask, Kind};

/// The labels 0 to `count` - 1, as sort 0. A test is a set of labels: label n passes it where its binary digit of weight
/// 2 ^ n is 1.
#[derive(Clone, Copy, Debug, PartialEq, Eq)]
pub struct Labels {
    count: u8,
    ghost some: { 1 ≤ count },
    ghost few: { count ≤ 63 },
}

/// The labels whose digit in `bits` is 1 where the sort is 0, else none.
#[derive(Clone, Copy, Debug)]
pub struct Mask {
    sort: u16,
    bits: u64,
}

fn has(bits: u64, n: u8) -> bool
    requires { n < 64 }
    ensures { result ≡ digit n bits }
{
    (bits >> n) & 1 == 1
}

impl Labels {
    /// The kind with labels 0 to `count` - 1, for a count from 1 to 63.
    pub fn new(count: u8) -> Option<Labels>
        ensures { option_map (λ k. k.count) result ≡ then_some (nat_le 1 count && nat_le count 63) count }
    {
        match count {
            1..=63 => Some(Labels { count }),
            _ => None,
        }
    }

    // The set of all labels, which is the greatest test.
    fn all(&self) -> u64
        ensures { result ≡ 2 ^ self.now.count - 1 }
    {
        (1 << self.count) - 1
    }

    // The set that a test is, if the number is one.
    fn set_of(&self, sort: u16, test: i64) -> Option<u64>
        ensures { option_map pos result ≡ then_some ((labels self.now.count).test sort test) test }
    {
        let set = u64::try_from(test).ok()?;
        (self.serves(sort) && set <= self.all()).then_some(set)
    }

    // The label that an atom is, if the number is one. Not one generic function with `set_of`: it would want bounds on conversion and order for four lines.
    fn label_of(&self, sort: u16, atom: i64) -> Option<u8>
        ensures { option_map pos result ≡ then_some ((labels self.now.count).atom sort atom) atom }
    {
        let label = u8::try_from(atom).ok()?;
        (self.serves(sort) && label < self.count).then_some(label)
    }

    // The labels that pass the test: none where the number is no test.
    fn passing(&self, sort: u16, test: i64) -> u64
        ensures { (n : ℤ) → masked sort self.now.count result n ≡ (labels self.now.count).passes sort test n }
    {
        self.set_of(sort, test).unwrap_or(0)
    }

    // The labels that give the wanted answer to the test.
    fn answering(&self, sort: u16, ask: Ask) -> u64
        ensures { (n : ℤ) → masked sort self.now.count result n ≡ ((labels self.now.count).atom sort n && gives ask.wanted ((labels self.now.count).passes sort ask.test n)) }
    {
        let passing = self.passing(sort, ask.test);
        if ask.wanted { passing } else { !passing }
    }
}

impl Kind for Labels {
    type Region = Mask;

    ghost meaning = { λ k. labels k.count };

    ghost sortof = { λ _ r. r.sort };

    ghost holds = { λ k r n. masked r.sort k.count r.bits n };

    ghost lawful = { λ k. labels-Lawful k.count k.some k.few };

    ghost inside = { Prim.grind arith };

    fn serves(&self, sort: u16) -> bool {
        sort == 0
    }

    fn is_atom(&self, sort: u16, atom: i64) -> bool {
        self.label_of(sort, atom).is_some()
    }

    fn is_test(&self, sort: u16, test: i64) -> bool {
        self.set_of(sort, test).is_some()
    }

    fn passes(&self, sort: u16, test: i64, atom: i64) -> bool {
        match (self.set_of(sort, test), self.label_of(sort, atom)) {
            (Some(set), Some(label)) => has(set, label),
            _ => false,
        }
    }

    fn whole(&self, sort: u16) -> Mask {
        Mask {
            sort,
            bits: self.all(),
        }
    }

    fn narrow(&self, region: Mask, ask: Ask) -> Mask {
        Mask {
            bits: region.bits & self.answering(region.sort, ask),
            ..region
        }
    }

    fn pick(&self, region: &Mask) -> Option<i64> {
        if region.sort != 0 {
            return None;
        }
        (0..self.count)
            .find(|&n| has(region.bits, n))
            .map(i64::from)
    }
}
