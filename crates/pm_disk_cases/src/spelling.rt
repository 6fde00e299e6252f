//! How the words of a case are spelled, and what many steps print.

use pm_case_text::{Fault, number, push_bytes, push_filled, push_words};
use std::alloc::Global;

/// How the calls of a case are spelled.
pub(crate) struct Calls;

/// Numbers with a comma between each two. What is no number is left out, as `-`, which stands for none.
pub(crate) fn numbers(alloc: Global, text: &str) -> Result<Vec<u64>, Fault> {
    let mut numbers = Vec::new(alloc);
    for word in text.split(',') {
        if let Ok(number) = number(word) {
            numbers.push(number)?;
        }
    }
    Ok(numbers)
}

/// Adds whether a call was done that answers nothing.
pub(crate) fn push_done(done: bool, out: &mut String) -> Result<(), Fault> {
    push_words(if done { "ok" } else { "failed" }, out)
}

/// Ends a line with whether what was read is written so again.
pub(crate) fn push_again(same: Result<bool, Fault>, out: &mut String) -> Result<(), Fault> {
    match same {
        Ok(true) => push_words("the same\n", out),
        Ok(false) => push_words("another\n", out),
        Err(fault) => Err(fault),
    }
}

/// Adds a text with these numbers in place of each `%`, then these bytes, and what stands behind them.
pub(crate) fn push_around(
    alloc: Global,
    text: &str,
    numbers: &[u64],
    bytes: &[u8],
    behind: &str,
    out: &mut String,
) -> Result<(), Fault> {
    push_filled(text, numbers, out)?;
    push_bytes(alloc, bytes, out)?;
    push_words(behind, out)
}
