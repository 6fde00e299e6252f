//! Scripts for a run with a nursery that are read.

use pm_case_text::{Count, Fault, push_filled, push_lines, push_value_line, refuse, written_out};
use pm_script::{YoungLine, read_young};
use pm_types::SOURCE_BYTES;
use std::alloc::Global;

// Adds each line.
fn push_each(lines: &[YoungLine], out: &mut String) -> Result<(), Fault> {
    for line in lines {
        push_value_line(line, out)?;
    }
    Ok(())
}

// Adds each line of a script, or how many they are.
fn push_found(lines: &[YoungLine], whole: bool, out: &mut String) -> Result<(), Fault> {
    if whole {
        push_each(lines, out)
    } else {
        push_filled("% lines\n", &[lines.len() as u64], out)
    }
}

// Reads bytes, and adds what they say, or why they are no script.
fn push_read(alloc: Global, bytes: &[u8], whole: bool, out: &mut String) -> Result<(), Fault> {
    if bytes.len() > SOURCE_BYTES {
        return Err(refuse("too long"));
    }
    match read_young(alloc, bytes) {
        Ok(script) => push_found(script.as_slice(), whole, out),
        Err(fault) => push_value_line(&fault, out),
    }
}

// The bytes that a text spells: ` / ` ends a line, and a newline stands behind all.
fn bytes_of(alloc: Global, text: &str) -> Result<Vec<u8>, Fault> {
    let written = written_out(alloc, text, Count::None)?;
    let mut bytes = Vec::new(alloc);
    push_lines(&mut bytes, written.as_str())?;
    Ok(bytes)
}

/// `SCRIPT`: each line that says something where the `whole` is wanted, or how many they are; or why it is no script.
pub(crate) fn push_young(
    alloc: Global,
    text: &str,
    whole: bool,
    out: &mut String,
) -> Result<(), Fault> {
    let bytes = bytes_of(alloc, text)?;
    push_read(alloc, bytes.as_slice(), whole, out)
}

/// `SCRIPT`: each line that says something, where the last one has no newline.
pub(crate) fn push_cut_young(alloc: Global, text: &str, out: &mut String) -> Result<(), Fault> {
    let mut bytes = bytes_of(alloc, text)?;
    bytes.pop();
    push_read(alloc, bytes.as_slice(), true, out)
}
