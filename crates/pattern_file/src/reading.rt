// Reading a file call by call.
ghost use Rattle.std.specs.Prelude.{◌≡◌, ◌≤◌, length};
ghost use Rattle.pattern_file.specs.Contents.{max_entries, WithinEntries, contents, first, after, counted};

use crate::calls::PlacedCall;
use crate::faults::{FileFault, FormatFault};
use crate::placed::AtEntry;
use crate::unread::Unread;
use std::marker::Model;

/// A reader of a file. Contracts see what it has still to hand out.
#[derive(Drop)]
pub struct Reader<'a> {
    unread: Result<Unread<'a>, FormatFault>,
}

impl<'a> Model for Reader<'a> {
    ghost use Rattle.pattern_file.specs.Contents.{Contents};

    ghost Value = { Contents };

    ghost use Rattle.pattern_file.specs.Readers.{pending};

    ghost view = { λ r. pending r.unread };
}

impl<'a> Reader<'a> {
    ghost use Rattle.pattern_file.specs.Readers.{handed};

    /// A reader at the first entry of a file. Where the file's length is wrong, that is what it hands out.
    #[tactic(auto, using(crate::proofs::FewCalls::few_calls))]
    pub fn open(bytes: &'a [u8]) -> Reader<'a>
        ensures value { result ≡ contents bytes.now }
        ensures few { length (contents bytes.now).calls ≤ 5000 }
    {
        Reader {
            unread: Unread::open(bytes),
        }
    }

    /// What is known of every reader, whoever opened it: what it has left are calls of at most 5,000 entries, one after
    /// another, each with an entry for every number put for it, and a fault at entry 5,000 at the latest. It does nothing.
    pub fn within_entries(&self)
        ensures { WithinEntries max_entries self.now }
    {
        if let Ok(unread) = &self.unread {
            unread.within_entries();
        }
    }

    /// The next call with its entry; nothing at the end. A fault stays, and is handed out again.
    /// Free is only where in memory the part with the put numbers lies: no clause says that it is the file's own.
    pub fn next_call(&mut self) -> Result<Option<PlacedCall<'a>>, FileFault>
        ensures value { handed result ≡ first self.old }
        ensures moves { self.new ≡ after self.old }
    {
        match &mut self.unread {
            Ok(unread) => unread.next_call(),
            Err(fault) => Err(*fault).at(0),
        }
    }
}

/// How many calls a file makes.
// A loop, since a reader is no iterator: a fault stays, and is handed out again.
pub fn count_calls(bytes: &[u8]) -> Result<usize, FileFault>
    ensures { result ≡ counted (contents bytes.now) }
{
    let mut reader = Reader::open(bytes);
    let mut calls: usize = 0;
    while let Some(_) = reader.next_call()? {
        calls += 1;
    }
    Ok(calls)
}
