// The format of a pattern file: its entries, the calls that they make, a reader and a writer.
#![tactic(auto)]

pub mod calls;
pub mod entries;
pub mod faults;
pub mod names;
pub mod numbers;
pub mod placed;
pub mod reading;
mod unread;
pub mod writing;

pub use calls::{Call, Parts, PlacedCall};
pub use entries::{Entry, MOST_BYTES};
pub use faults::{FileFault, FormatFault};
pub use names::CallName;
pub use numbers::{Numbers, PutNumbers};
pub use placed::{AtEntry, Placed};
pub use reading::{Reader, count_calls};
pub use writing::{WriteRefusal, file_length, write_file};
