//! What there is to tell of the engine of a run.

use crate::running::RunEnd;
use pm_case_text::{Fault, push_filled, push_words};
use pm_engine::Tally;
use pm_young::YoungTally;

// Adds what an engine came to.
fn push_counts(tally: &Tally, out: &mut String) -> Result<(), Fault> {
    let numbers = [
        tally.entries(),
        tally.events(),
        tally.steps(),
        tally.completed(),
        tally.standing(),
    ];
    let text = "tally: % entries, % events, % steps, % completed, % standing\n";
    push_filled(text, &numbers, out)
}

// Adds what an engine with a nursery came to.
fn push_young_counts(tally: &YoungTally, out: &mut String) -> Result<(), Fault> {
    let numbers = [
        tally.entries(),
        tally.events(),
        tally.steps(),
        tally.completed(),
        tally.standing(),
        tally.young(),
        tally.entered(),
    ];
    let text =
        "tally of a nursery: % entries, % events, % steps, % completed, % standing, % young, % entered\n";
    push_filled(text, &numbers, out)
}

/// Adds what the engine of a run came to, if it had one without a nursery.
pub(crate) fn push_tally(run: &RunEnd, out: &mut String) -> Result<(), Fault> {
    match &run.tally {
        Some(tally) => push_counts(tally, out),
        None => push_words("no tally\n", out),
    }
}

/// Adds the same of one with a nursery.
pub(crate) fn push_young(run: &RunEnd, out: &mut String) -> Result<(), Fault> {
    match &run.young {
        Some(tally) => push_young_counts(tally, out),
        None => push_words("no tally of a nursery\n", out),
    }
}
