// The numbers put before a call, as they stand in the file: eight bytes each.
ghost use Rattle.std.specs.Prelude.{◌≡◌, ◌==◌, length};
ghost use Rattle.std.specs.Iterator.{YieldsFirst, item_count};
ghost use Rattle.std.specs.List.{slice_get};
ghost use Rattle.pattern_file.specs.Bytes.{signed_numbers};

/// The numbers put before a call: bytes of the file itself, nothing copied.
// No `impl Model`: the check refuses one beside `Copy` on a struct with a lifetime.
#[derive(Clone, Copy)]
pub struct PutNumbers<'a> {
    pub(crate) numbers: &'a [[u8; 8]],
}

impl<'a> PutNumbers<'a> {
    ghost use Rattle.pattern_file.specs.Calls.{numbers_put, numbers_left};

    /// How many numbers there are.
    pub fn len(&self) -> usize
        ensures { result ≡ length (numbers_put self.now) }
    {
        self.numbers.len()
    }

    /// Whether there is none.
    pub fn is_empty(&self) -> bool
        ensures { result ≡ (length (numbers_put self.now) == 0) }
    {
        self.numbers.is_empty()
    }

    /// The number at `i`, or nothing past the last.
    #[tactic(auto, using(crate::proofs::ByteNumbers::nth_number, crate::proofs::ByteNumbers::no_number, crate::proofs::ByteNumbers::number_read))]
    pub fn get(&self, i: usize) -> Option<i64>
        ensures { result ≡ slice_get (numbers_put self.now) i }
    {
        let bytes = self.numbers.get(i)?;
        Some(i64::from_le_bytes(*bytes))
    }

    /// The numbers in order.
    pub fn iter(&self) -> Numbers<'a>
        ensures { numbers_left result ≡ numbers_put self.now }
    {
        Numbers {
            numbers: self.numbers,
        }
    }
}

/// An iterator over the numbers put before a call, in order.
#[derive(Clone, Drop)]
pub struct Numbers<'a> {
    numbers: &'a [[u8; 8]],
}

impl Iterator for Numbers<'_> {
    type Item = i64;

    ghost next_gives = { YieldsFirst (λ s. signed_numbers s.numbers.now) };

    ghost remaining = { item_count (λ s. signed_numbers s.numbers.now) };

    #[tactic(auto, using(crate::proofs::ByteNumbers::number_read))]
    fn next(&mut self) -> Option<i64> {
        let (first, others) = self.numbers.split_first()?;
        self.numbers = others;
        Some(i64::from_le_bytes(*first))
    }
}
