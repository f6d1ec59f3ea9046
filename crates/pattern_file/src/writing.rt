// Writing a file from its entries: their number and their tags, then their numbers, which begin in the middle of the slice.
// The memory is lent, so that nothing asks for any: the length of the file is handed back.
ghost use Rattle.std.specs.Prelude.{◌≡◌, ◌*◌, ◌≤◌, ◌++◌, map, length, take, drop, IfOk, Some as Printed};
ghost use Rattle.std.specs.List.{flat_map};
ghost use Rattle.pattern_file.specs.Contents.{tag_of_entry, number_of_entry, contents, calls_of};
ghost use Rattle.pattern_file.specs.Writing.{size_for, written, refusal_message, Fit, ReadsBack};

use crate::entries::{Entry, MOST_ENTRIES};
use std::error::Error;
use std::fmt;

/// Why nothing was written.
#[derive(Clone, Copy, PartialEq, Eq, Debug)]
pub enum WriteRefusal {
    /// over 5,000 entries
    TooManyEntries,
    /// `out` is shorter than the file of so many entries
    OutTooShort,
}

// What a refusal means, for people; by hand, so that the text is promised: a derived message states none.
impl fmt::Display for WriteRefusal {
    ghost output = { λ refusal. Printed (refusal_message refusal) };

    fn fmt<W: fmt::Write>(&self, f: &mut fmt::Formatter<W>) -> fmt::Result {
        f.write_str(match self {
            WriteRefusal::TooManyEntries => "too many entries",
            WriteRefusal::OutTooShort => "too little memory",
        })
    }
}

impl Error for WriteRefusal {}

// Writes the entries' tags to the front of `out`, and then the eight bytes of each number.
fn put_entries(out: &mut [u8], entries: &[Entry])
    requires { 9 * length entries.now ≤ length out.old }
    ensures bytes { out.new ≡ map tag_of_entry entries.now ++ (flat_map number_of_entry entries.now ++ drop (9 * length entries.now) out.old) }
    ensures fit { Fit entries.now }
{
    let (tags, numbers) = out.split_at_mut(entries.len());
    // by index: after `iter_mut` or `chunks_mut` a proof knows a slice's length and not its bytes
    for (i, entry) in entries.iter().enumerate() {
        tags[i] = entry.tag;
        numbers[8 * i..8 * i + 8].copy_from_slice(&entry.number.to_le_bytes());
    }
}

/// The length of the file of these entries. `read_back` is a law of every list of entries.
#[tactic(auto, using(crate::proofs::RoundTrip::reads_back))]
pub fn file_length(entries: &[Entry]) -> Result<usize, WriteRefusal>
    ensures value { result ≡ size_for (length entries.now) }
    ensures read_back { ReadsBack }
{
    let count = entries.len();
    if count > MOST_ENTRIES {
        Err(WriteRefusal::TooManyEntries)
    } else {
        Ok(4 + 9 * count)
    }
}

/// Writes the file to the front of `out`, and says how long it is; at a refusal nothing is written.
pub fn write_file(out: &mut [u8], entries: &[Entry]) -> Result<usize, WriteRefusal>
    ensures value { (out.new, result) ≡ written entries.now out.old }
    ensures read_back { IfOk result (λ n. contents (take n out.new) ≡ calls_of entries.now) }
{
    let size = file_length(entries)?;
    if out.len() < size {
        return Err(WriteRefusal::OutTooShort);
    }
    // `as`: at most 5,000, since there is a `size`; `try_from` would hand out an error that never comes
    out[..4].copy_from_slice(&(entries.len() as u32).to_le_bytes());
    put_entries(&mut out[4..], entries);
    Ok(size)
}
