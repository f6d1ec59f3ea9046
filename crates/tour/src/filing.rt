// A sheet and a tree as the entries of a pattern file, which is written, read again and listed.
use file_listing::listing;
use pattern_file::{Entry, MOST_BYTES, write_file};

// A garment may have a length: the sheet has an action for lengths of at most 200, the tree for lengths of at most 199.
const SAMPLE: [Entry; 31] = [
    Entry { tag: 1, number: -1 },
    Entry { tag: 1, number: 0 },
    Entry { tag: 2, number: 0 },
    Entry { tag: 0, number: 1 },
    Entry { tag: 2, number: 0 },
    Entry { tag: 3, number: 1 },
    Entry {
        tag: 0,
        number: 200,
    },
    Entry { tag: 0, number: 1 },
    Entry { tag: 7, number: 0 },
    Entry { tag: 0, number: 1 },
    Entry { tag: 5, number: 1 },
    Entry { tag: 0, number: 2 },
    Entry { tag: 0, number: -1 },
    Entry { tag: 8, number: 7 },
    Entry { tag: 3, number: 0 },
    Entry { tag: 0, number: 3 },
    Entry { tag: 0, number: -1 },
    Entry { tag: 8, number: 8 },
    Entry { tag: 0, number: 0 },
    Entry { tag: 0, number: 1 },
    Entry { tag: 9, number: 0 },
    Entry { tag: 10, number: 7 },
    Entry { tag: 10, number: 8 },
    Entry {
        tag: 0,
        number: 199,
    },
    Entry { tag: 0, number: 0 },
    Entry { tag: 0, number: 1 },
    Entry { tag: 14, number: 1 },
    Entry { tag: 0, number: 1 },
    Entry { tag: 0, number: 1 },
    Entry { tag: 0, number: 2 },
    Entry { tag: 13, number: 0 },
];

pub fn show(rt: &HostRuntime) -> anyhow::Result<()> {
    let mut bytes = vec![in rt.alloc(); 0u8; MOST_BYTES]?;
    let length = write_file(bytes.as_mut_slice(), &SAMPLE)?;
    println!(rt; "a sheet and a tree as a file of {length} bytes:")?;
    bytes.truncate(length);
    let text = listing(rt.alloc(), bytes.as_slice())?;
    print!(rt; "{text}")?;
    Ok(())
}
