//! Scripts that the reader of the whole grammar reads, and the texts of a journal.

use crate::{Fault, push_filled, push_text, push_value_line, refuse};
use pm_script::{Line, journal_text, read_script, reply_text};
use pm_types::{Entry, SOURCE_BYTES};
use std::alloc::Global;

// Adds the lines of a script.
fn push_lines(lines: &[Line], out: &mut String) -> Result<(), Fault> {
    for line in lines {
        push_value_line(line, out)?;
    }
    Ok(())
}

// Adds the lines of a script, or how many they are.
fn push_script(lines: &[Line], whole: bool, out: &mut String) -> Result<(), Fault> {
    if whole {
        push_lines(lines, out)
    } else {
        push_filled("% lines\n", &[lines.len() as u64], out)
    }
}

/// Adds how many lines of the script say something, or each of these lines where the `whole` is asked for; or why it is no
/// script.
pub fn push_read(alloc: Global, script: &[u8], whole: bool, out: &mut String) -> Result<(), Fault> {
    if script.len() > SOURCE_BYTES {
        return Err(refuse("too long"));
    }
    match read_script(alloc, script) {
        Ok(script) => push_script(script.as_slice(), whole, out),
        Err(fault) => push_value_line(&fault, out),
    }
}

// What follows the entry's own line in a text, where the text begins with it.
fn behind<'a>(alloc: Global, text: &'a [u8], entry: &Entry) -> Result<Option<&'a [u8]>, Fault> {
    let line = reply_text(alloc, entry)?;
    Ok(text.strip_prefix(line.as_slice()))
}

// How many of a journal's lines the text has, where each is made by itself.
fn same_lines(alloc: Global, text: &[u8], journal: &[Entry]) -> Result<u64, Fault> {
    let mut rest = text;
    let mut same = 0u64;
    for entry in journal {
        if let Some(later) = behind(alloc, rest, entry)? {
            rest = later;
            same = same.saturating_add(1);
        }
    }
    Ok(same)
}

// Adds how many of a journal's lines the text has, where each is made by itself.
fn push_same(alloc: Global, text: &[u8], journal: &[Entry], out: &mut String) -> Result<(), Fault> {
    let same = same_lines(alloc, text, journal)?;
    let numbers = [same, journal.len() as u64];
    push_filled("% of % lines are the same\n", &numbers, out)
}

/// Adds the text of a journal, and how many of its lines are the same where each is made by itself.
pub fn push_texts(alloc: Global, journal: &[Entry], out: &mut String) -> Result<(), Fault> {
    let text = journal_text(alloc, journal)?;
    push_text(text.as_slice(), out)?;
    push_same(alloc, text.as_slice(), journal, out)
}
