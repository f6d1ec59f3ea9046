// Pattern files: a short one, files at the limits, and damaged files.
use file_listing::listing;
use pattern_file::{
    CallName, Entry, FileFault, FormatFault, MOST_BYTES, Placed, Reader, WriteRefusal, count_calls,
    write_file,
};
use std::alloc::Global;
use std::test::Fail;

// Two types and two constructors, the second with a field of type 1.
const FIVE: [Entry; 5] = [
    Entry { tag: 1, number: -1 },
    Entry { tag: 1, number: 0 },
    Entry { tag: 2, number: 0 },
    Entry { tag: 0, number: 1 },
    Entry { tag: 2, number: 0 },
];

const FAIL_NODE: Entry = Entry { tag: 11, number: 0 };

fn file_of(heap: Global, entries: &[Entry]) -> Result<Vec<u8>, Fail> {
    let mut bytes = vec![in heap; 0u8; 45_004]?;
    let length = write_file(bytes.as_mut_slice(), entries)?;
    bytes.truncate(length);
    Ok(bytes)
}

fn listed(heap: Global, bytes: &[u8], wanted: &str) -> Result<(), Fail> {
    let text = listing(heap, bytes)?;
    if text.as_str() == wanted {
        Ok(())
    } else {
        Err(Fail::new("another listing"))
    }
}

fn fault(entry: usize, fault: FormatFault) -> Result<usize, FileFault> {
    Err(Placed { entry, item: fault })
}

#[test]
fn a_short_file_is_listed(rt: HostRuntime) -> Result<(), Fail> {
    let bytes = file_of(rt.alloc(), &FIVE)?;
    listed(
        rt.alloc(),
        bytes.as_slice(),
        "0 type -1\n1 type 0\n2 constructor 0\n4 constructor 0 1\ncalls 4\n",
    )?;
    assert_eq!(rt; count_calls(bytes.as_slice()), Ok(4));
    Ok(())
}

#[test]
fn no_entry_is_a_file(rt: HostRuntime) -> Result<(), Fail> {
    let bytes = file_of(rt.alloc(), &[])?;
    assert!(rt; bytes.len() == 4);
    listed(rt.alloc(), bytes.as_slice(), "calls 0\n")
}

#[test]
fn every_cut_is_found(rt: HostRuntime) -> Result<(), Fail> {
    let bytes = file_of(rt.alloc(), &FIVE)?;
    for end in 0..bytes.len() {
        assert_eq!(rt;
            count_calls(&bytes.as_slice()[0..end]),
            fault(0, FormatFault::Length)
        );
    }
    listed(
        rt.alloc(),
        &bytes.as_slice()[0..bytes.len() - bytes.len().min(1)],
        "refused 10 0\n",
    )
}

#[test]
fn numbers_are_left_over(rt: HostRuntime) -> Result<(), Fail> {
    let bytes = file_of(rt.alloc(), &FIVE[0..4])?;
    listed(
        rt.alloc(),
        bytes.as_slice(),
        "0 type -1\n1 type 0\n2 constructor 0\nrefused 10 4\n",
    )
}

#[test]
fn a_tag_is_unknown(rt: HostRuntime) -> Result<(), Fail> {
    let entries = [
        FIVE[0],
        Entry { tag: 0, number: 7 },
        Entry { tag: 16, number: 0 },
        FIVE[1],
    ];
    let bytes = file_of(rt.alloc(), &entries)?;
    assert_eq!(rt;
        count_calls(bytes.as_slice()),
        fault(2, FormatFault::UnknownTag)
    );
    listed(rt.alloc(), bytes.as_slice(), "0 type -1\nrefused 10 2\n")
}

#[test]
fn put_numbers_go_with_their_call(rt: HostRuntime) -> Result<(), Fail> {
    let entries = [
        Entry {
            tag: 0,
            number: 200,
        },
        Entry { tag: 0, number: -1 },
        Entry { tag: 8, number: 7 },
    ];
    let bytes = file_of(rt.alloc(), &entries)?;
    let Ok(Some(Placed { entry, item: call })) = Reader::open(bytes.as_slice()).next_call() else {
        return Err(Fail::new("no call"));
    };
    assert!(rt; entry == 2);
    assert!(rt; call.name() == CallName::Clause);
    let put = call.parts().put;
    assert!(rt; !put.is_empty());
    assert_eq!(rt; put.get(1), Some(-1));
    assert_eq!(rt; put.get(2), None);
    let numbers = put.iter().collect::<Vec<i64>>(rt.alloc())?;
    assert!(rt; numbers.as_slice()[..] == [200, -1]);
    let text = format!(in rt.alloc(); "{call}")?;
    assert!(rt; text.as_str() == "clause 7 200 -1");
    Ok(())
}

#[test]
fn at_most_5000_entries(rt: HostRuntime) -> Result<(), Fail> {
    let mut entries = vec![in rt.alloc(); FAIL_NODE; 5_000]?;
    let bytes = file_of(rt.alloc(), entries.as_slice())?;
    assert!(rt; bytes.len() == 45_004 && MOST_BYTES == 45_004);
    assert_eq!(rt; count_calls(bytes.as_slice()), Ok(5_000));
    entries.push(FAIL_NODE)?;
    let mut out = vec![in rt.alloc(); 7u8; 45_013]?;
    assert_eq!(rt;
        write_file(out.as_mut_slice(), entries.as_slice()),
        Err(WriteRefusal::TooManyEntries)
    );
    assert!(rt; out.as_slice()[0..1] == [7u8]);
    // 5,001 as the count of a file that is as long as that would be
    out.clear();
    out.extend_from_slice(&[0x89, 0x13, 0, 0])?;
    out.extend_from_slice(vec![in rt.alloc(); 11u8; 45_009]?.as_slice())?;
    assert_eq!(rt; count_calls(out.as_slice()), fault(0, FormatFault::Length));
    Ok(())
}

#[test]
fn short_memory_is_refused(rt: HostRuntime) {
    let mut out = [7u8; 49];
    assert_eq!(rt;
        write_file(&mut out[0..48], &FIVE),
        Err(WriteRefusal::OutTooShort)
    );
    assert!(rt; out == [7u8; 49]);
    assert_eq!(rt; write_file(&mut out, &FIVE), Ok(49));
}
