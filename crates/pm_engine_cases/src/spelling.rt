//! How the lines of a case are spelled.

use pm_case_text::{Fault, number, part, placed, push_bytes, push_words, refuse, script_text};
use pm_script::{Script, read_script};
use std::alloc::Global;

/// The script whose lines ` / ` stands between.
pub(crate) fn script(alloc: Global, text: &str) -> Result<Script, Fault> {
    let lines = script_text(alloc, text)?;
    read_script(alloc, lines.as_slice())
        .ok()
        .ok_or(refuse("no script"))
}

// Adds a part of a text, with a stroke before it where it is not the first one.
fn push_part(part: &str, is_first: bool, out: &mut String) -> Result<(), Fault> {
    push_words(if is_first { "" } else { " / " }, out)?;
    push_words(part, out)
}

// Adds the parts of a text between ` / ` behind the first ones, of which so many are passed over.
fn push_behind(text: &str, passed: usize, out: &mut String) -> Result<(), Fault> {
    for (place, part) in text.split(" / ").enumerate() {
        if place >= passed {
            push_part(part, place == passed, out)?;
        }
    }
    Ok(())
}

/// Adds the last ones of what ` / ` stands between in a text, this number at most.
pub(crate) fn push_last(text: &str, count: u64, out: &mut String) -> Result<(), Fault> {
    let parts = text.split(" / ").count();
    push_behind(text, parts.saturating_sub(count as usize), out)
}

// Adds a line: bytes in hexadecimal.
fn push_digits(alloc: Global, bytes: &[u8], out: &mut String) -> Result<(), Fault> {
    push_bytes(alloc, bytes, out)?;
    push_words("\n", out)
}

/// `PAGE:BYTE COUNT`: so many bytes of a disk from there on, in hexadecimal.
pub(crate) fn push_bytes_at(
    alloc: Global,
    disk: &[u8],
    text: &str,
    out: &mut String,
) -> Result<(), Fault> {
    let (from, count) = placed(text)?;
    push_digits(alloc, part(disk, from, number(count)? as usize)?, out)
}
