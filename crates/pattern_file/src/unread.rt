// What is still to be read of a file whose length is right.
ghost use Rattle.std.specs.Prelude.{◌≡◌, ◌-◌, ◌*◌, ◌<◌, ◌≤◌, length, drop, if◌then◌else◌, Ok as Fine, Err as Refused, ◌≢◌, slice_index};
ghost use Rattle.std.specs.List.{AllWithin};
ghost use Rattle.pattern_file.specs.declared.faults.FormatFault.TheVariants.{Length as BadLength};
ghost use Rattle.pattern_file.specs.Contents.{announced, max_entries, WithinEntries, well_sized, contents, first, after};

use crate::calls::{Call, Parts, PlacedCall};
use crate::entries::MOST_ENTRIES;
use crate::faults::{FileFault, FormatFault};
use crate::names::CallName;
use crate::numbers::PutNumbers;
use crate::placed::{AtEntry, Placed};

/// The tags of a file and the eight bytes of each number, and the entry from which it is still to be read.
// Two slices, since the file has all tags before all numbers, and nothing is copied.
#[derive(Drop)]
pub(crate) struct Unread<'a> {
    tags: &'a [u8],
    numbers: &'a [[u8; 8]],
    at: usize,
    ghost whole: { (length numbers.now ≡ length tags.now) × (at ≤ length tags.now) × (length tags.now ≤ 5000) },
}

// The number of entries of a file whose length is right.
fn entry_count(bytes: &[u8]) -> Result<usize, FormatFault>
    ensures { result ≡ (if well_sized bytes.now then Fine (announced bytes.now) else Refused BadLength) }
{
    let (count, entries) = bytes.split_first_chunk::<4>().ok_or(FormatFault::Length)?;
    // `as`: Rust has no `From<u32> for usize`, and `try_from` would hand out an error that never comes
    let count = u32::from_le_bytes(*count) as usize;
    if count > MOST_ENTRIES {
        return Err(FormatFault::Length);
    }
    if entries.len() != 9 * count {
        return Err(FormatFault::Length);
    }
    Ok(count)
}

impl<'a> Unread<'a> {
    ghost use Rattle.pattern_file.specs.Readers.{run_at, rest_at, rest_of, pending, call_at, taken_at, handed};

    /// All entries of a file.
    #[tactic(auto, using(crate::proofs::Opening::opened_file, crate::proofs::Opening::refused_file))]
    pub(crate) fn open(bytes: &'a [u8]) -> Result<Unread<'a>, FormatFault>
        ensures { pending result ≡ contents bytes.now }
    {
        let count = entry_count(bytes)?;
        let (numbers, _) = bytes[4 + count..].as_chunks::<8>();
        Ok(Unread {
            tags: &bytes[4..4 + count],
            numbers,
            at: 0,
        })
    }

    // The entry of the next call, past the numbers that are put for it; or the end, which is the entry of the fault where numbers are left over.
    fn call_entry(&self) -> usize
        ensures put { AllWithin (λ tag. tag ≡ 0) (drop self.now.at self.now.tags.now) 0 (result - self.now.at) }
        ensures bound { (self.now.at ≤ result) × (result ≤ length self.now.tags.now) }
        ensures call { result < length self.now.tags.now → slice_index self.now.tags.now result ≢ 0 }
    {
        let tags = &self.tags[self.at..];
        self.at + tags.iter().position(|&tag| tag != 0).unwrap_or(tags.len())
    }

    // The call of a name at `entry`, with the numbers put for it.
    #[tactic(auto, using(crate::proofs::Finding::taken, crate::proofs::ByteNumbers::number_read))]
    fn call_at(&self, name: CallName, entry: usize) -> Call<'a>
        requires { (self.now.at ≤ entry) × (entry < length self.now.tags.now) }
        ensures { call_at entry result ≡ taken_at self.now.numbers.now self.now.at entry name }
    {
        let own = i64::from_le_bytes(self.numbers[entry]);
        let put = PutNumbers {
            numbers: &self.numbers[self.at..entry],
        };
        Call::new(name, Parts { own, put })
    }

    /// For proofs: what is left is within the entries of a file.
    pub(crate) fn within_entries(&self)
        ensures { WithinEntries max_entries (rest_of self.now) }
    {}

    /// The next call with its entry; nothing at the end. A fault stays.
    pub(crate) fn next_call(&mut self) -> Result<Option<PlacedCall<'a>>, FileFault>
        ensures value { handed result ≡ first (rest_of self.old) }
        ensures moves { rest_of self.new ≡ after (rest_of self.old) }
    {
        let entry = self.call_entry();
        if entry == self.tags.len() {
            if self.at < entry {
                return Err(FormatFault::NumbersLeft).at(entry);
            }
            return Ok(None);
        }
        let name = CallName::try_from(self.tags[entry]).at(entry)?;
        let item = self.call_at(name, entry);
        self.at = entry + 1;
        Ok(Some(Placed { entry, item }))
    }
}
