// The entries of a file.

/// The most entries that a file may have.
pub(crate) const MOST_ENTRIES: usize = 5_000;

/// The most bytes that a file may have: four for the number of its entries, and nine for each entry.
pub const MOST_BYTES: usize = 4 + 9 * MOST_ENTRIES;

/// An entry of a file. Tag 0 puts its number on the list; a tag from 1 to 15 makes a call that takes the list.
// The tag is a file's own byte: any must be sayable, since reading refuses those above 15.
#[derive(Clone, Copy, PartialEq, Eq, Debug)]
pub struct Entry {
    pub tag: u8,
    pub number: i64,
}
