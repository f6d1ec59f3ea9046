// The text of a pattern file: a line for each of its calls, then how it ended.
#![tactic(auto)]

ghost use Rattle.std.specs.Prelude.{◌≡◌, ◌++◌, IfOk, string_bytes, OnOk};
ghost use Rattle.std.specs.List.{flat_map};
ghost use Rattle.pattern_file.specs.Contents.{contents};
ghost use Rattle.file_listing.specs.Text.{line_of, end_of, text_of};

use pattern_file::{FileFault, Placed, Reader, count_calls};
use std::alloc::{AllocError, Global};
use std::fmt::Write;

// Adds a line for each call before the end or a fault.
fn write_calls(text: &mut String, bytes: &[u8]) -> Result<(), AllocError>
    ensures { OnOk result (string_bytes text.new ≡ string_bytes text.old ++ flat_map line_of (contents bytes.now).calls) }
{
    let mut reader = Reader::open(bytes);
    while let Ok(Some(Placed { entry, item: call })) = reader.next_call() {
        writeln!(text, "{entry} {call}")?;
    }
    Ok(())
}

// Adds the last line, from how many calls there are or from the fault.
fn write_end(text: &mut String, end: Result<usize, FileFault>) -> Result<(), AllocError>
    ensures { OnOk result (string_bytes text.new ≡ string_bytes text.old ++ end_of end) }
{
    match end {
        Ok(calls) => writeln!(text, "calls {calls}"),
        Err(Placed { entry, item: fault }) => {
            let number = u32::from(fault);
            writeln!(text, "refused {number} {entry}")
        }
    }
}

/// A line for each call of the file, then `calls N`; at a fault the lines before it, then `refused NUMBER ENTRY`.
/// Where memory is wanting there is no text; when that is so is free.
pub fn listing(heap: Global, bytes: &[u8]) -> Result<String, AllocError>
    ensures { IfOk result (λ s. string_bytes s ≡ text_of (contents bytes.now)) }
{
    let mut text = String::new(heap);
    write_calls(&mut text, bytes)?;
    write_end(&mut text, count_calls(bytes))?;
    Ok(text)
}
