// Lists the calls of a pattern file that is read from standard input.
#![tactic(auto)]

use file_listing::listing;
use pattern_file::{MOST_BYTES, count_calls};
use std::io::Read;

// One byte more than the longest pattern file is enough to see that it is none.
// `as`: Rust has no `From<usize> for u64`, and a constant calls no `try_from`
const MOST_READ: u64 = MOST_BYTES as u64 + 1;

// Standard output has only the listing; what a fault means goes to standard error.
fn run(rt: &HostRuntime) -> anyhow::Result<()> {
    let mut bytes = Vec::new(rt.alloc());
    let _ = rt.stdin().take(MOST_READ).read_to_end(&mut bytes)?;
    let text = listing(rt.alloc(), bytes.as_slice())?;
    print!(rt; "{text}")?;
    if let Err(placed) = count_calls(bytes.as_slice()) {
        let fault = placed.item;
        eprintln!(rt; "{fault}")?;
    }
    Ok(())
}

fn main(rt: HostRuntime) -> anyhow::Result<()> {
    run(&rt)
}
