//! Turns of a book, one after another.

ghost use Rattle.std.specs.Prelude.{◌≡◌, ◌<◌};
ghost use Rattle.pm_turns.specs.declared.limits.TheConstants.{WORKERS};
ghost use Rattle.pm_place.specs.Choosers.{IsChooser};
ghost use Rattle.pm_engine.specs.Shown.{chooser};
ghost use Rattle.pm_lock.specs.Shown.{engine_in};

use pm_case_text::{
    Fault, push_filled, push_text, push_value, push_value_line, push_words, refuse,
};
use pm_disk::Disk;
use pm_lock::crew::Book;
use pm_script::reply_text;
use pm_turns::{Turn, WORKERS};
use pm_types::Entry;
use std::alloc::Global;

// Adds the line of a reply, without its end.
fn push_reply_line(line: &[u8], out: &mut String) -> Result<(), Fault> {
    push_words(": ", out)?;
    push_text(line, out)?;
    push_words(" / ", out)
}

// Adds the reply's line of an entry.
fn push_reply(alloc: Global, entry: &Entry, out: &mut String) -> Result<(), Fault> {
    let mut line = reply_text(alloc, entry)?;
    line.pop();
    push_reply_line(line.as_slice(), out)
}

/// Adds the reply's line of an entry, if there is one.
pub(crate) fn push_entry(
    alloc: Global,
    entry: Option<&Entry>,
    out: &mut String,
) -> Result<(), Fault> {
    match entry {
        Some(entry) => push_reply(alloc, entry, out),
        None => push_words(" / ", out),
    }
}

// Adds what came of a turn of a worker.
fn push_made(who: u32, turn: Turn, out: &mut String) -> Result<(), Fault> {
    push_filled("% ", &[who as u64], out)?;
    push_value(&turn, out)
}

// Makes the turn of a worker, and adds what came of it: its reply too, where it put an entry into the journal.
fn push_turn<D: Disk, F: Fn(&[u64]) -> usize + Drop>(
    alloc: Global,
    book: &mut Book<D, F>,
    who: u32,
    out: &mut String,
) -> Result<(), Fault>
    requires { IsChooser F.Fn (chooser (engine_in book.old)) }
    ensures { chooser (engine_in book.new) ≡ chooser (engine_in book.old) }
{
    if who >= WORKERS {
        return Err(refuse("no worker"));
    }
    let before = book.engine().recent().len();
    push_made(who, book.step(alloc, who), out)?;
    push_entry(alloc, book.engine().recent().get(before), out)
}

/// Makes the turns of these workers, one after another, and adds what came of each.
pub(crate) fn push_turns<D: Disk, F: Fn(&[u64]) -> usize + Drop>(
    alloc: Global,
    book: &mut Book<D, F>,
    workers: &[u32],
    out: &mut String,
) -> Result<(), Fault>
    requires { IsChooser F.Fn (chooser (engine_in book.old)) }
    ensures { chooser (engine_in book.new) ≡ chooser (engine_in book.old) }
{
    for who in workers {
        push_turn(alloc, book, *who, out)?;
    }
    Ok(())
}

// Makes the turns of a worker until it has finished, or the book is stopped.
fn make_all_of<D: Disk, F: Fn(&[u64]) -> usize + Drop>(
    alloc: Global,
    book: &mut Book<D, F>,
    who: u32,
)
    requires who { who < WORKERS }
    requires chooser { IsChooser F.Fn (chooser (engine_in book.old)) }
    ensures { chooser (engine_in book.new) ≡ chooser (engine_in book.old) }
{
    for _ in 0..u64::MAX {
        match book.step(alloc, who) {
            Turn::Made => {}
            Turn::Finished | Turn::Stopped => return,
        }
    }
}

/// Makes all of a book in one thread, all turns of a worker before those of the next.
pub(crate) fn made_alone<D: Disk, F: Fn(&[u64]) -> usize + Drop>(
    alloc: Global,
    mut book: Book<D, F>,
) -> Book<D, F>
    requires { IsChooser F.Fn (chooser (engine_in book)) }
{
    for who in 0..WORKERS {
        make_all_of(alloc, &mut book, who);
    }
    book
}

/// Adds how many events were made, how many of them by the collector, and the fault that is kept, and ends the line.
pub(crate) fn push_counts<D: Disk, F: Drop>(
    book: &Book<D, F>,
    out: &mut String,
) -> Result<(), Fault> {
    let engine = book.engine();
    let numbers = [engine.entries(), engine.events(), engine.steps()];
    push_filled("% entries, % events, % steps, ", &numbers, out)?;
    push_value_line(&book.fault(), out)
}
