//! What there is to tell of the end of a run.

use pm_case_text::{Fault, push_filled, push_text, push_words, refuse};
use pm_top::{Detail, detail_text};
use pm_types::NoMemory;
use std::alloc::Global;

/// Adds the text of an end.
pub(crate) fn push_end(alloc: Global, end: &Detail, out: &mut String) -> Result<(), Fault> {
    let text = detail_text(alloc, end)?;
    push_text(text.as_slice(), out)
}

/// Adds the counts of failed calls before and after, where an end tells them, and what comes behind them in its line.
pub(crate) fn push_counts(end: &Detail, out: &mut String) -> Result<(), Fault> {
    match end {
        Detail::Reading { before, after }
        | Detail::Writing { before, after }
        | Detail::Device { before, after, .. }
        | Detail::OtherDevice { before, after } => {
            push_filled(", faults % to %, then ", &[*before, *after], out)
        }
        _ => push_words(", then ", out),
    }
}

// The evidence of a refused growth: no list has as many places as a number of 64 bits can count.
fn refused_growth(alloc: Global) -> Result<NoMemory, Fault> {
    let mut list: Vec<u64> = Vec::new(alloc);
    match list.reserve(usize::MAX) {
        Ok(()) => Err(refuse("no growth was refused")),
        Err(refused) => Ok(NoMemory::from(refused)),
    }
}

/// The line that the program writes where memory ran out.
pub fn push_memory_text(alloc: Global, out: &mut String) -> Result<(), Fault> {
    let refused = refused_growth(alloc)?;
    let end = Detail::Memory {
        opened: false,
        refused,
    };
    push_end(alloc, &end, out)
}
