//! Runs in threads.

ghost use Rattle.pm_place.specs.Choosers.{IsChooser};
ghost use Rattle.pm_engine.specs.Shown.{chooser, serving};
ghost use Rattle.pm_engine.specs.Events.Running.{IsFresh};
ghost use Rattle.pm_lock.specs.Shown.{engine_in};

use crate::opened::{disk_of, new_disk, open};
use crate::served::{count_parts, push_legal};
use crate::spelling::script;
use crate::turned::made_alone;
use pm_case_text::{Fault, push_filled, push_text, push_value, refuse};
use pm_disk::Disk;
use pm_engine::Engine;
use pm_lock::crew::{Book, run_all};
use pm_place::Placement;
use pm_script::{Script, journal_text};
use pm_turns::Gate;
use pm_types::Entry;
use std::alloc::Global;
use std::fmt::Debug;
use std::sync::Wait;
use std::sync::atomic::{AtomicBool, Ordering};
use std::thread::{self, Threads};

/// Holds the first event of client 1 until the first of client 0 was made, and the second of client 0 until the first of
/// client 1 was.
#[derive(Drop)]
pub(crate) struct Between {
    zero: AtomicBool,
    one: AtomicBool,
}

impl Between {
    /// Where it is open it holds no one.
    pub(crate) fn new(open: bool) -> Between {
        Between {
            zero: AtomicBool::new(open),
            one: AtomicBool::new(open),
        }
    }
}

// Waits until this is so, and for no more than 1,000,000 yields.
fn hold(is_so: &AtomicBool) {
    for _ in 0..1_000_000 {
        if is_so.load(Ordering::SeqCst) {
            return;
        }
        thread::yield_now();
    }
}

impl Gate for Between {
    fn before(&self, who: u32, index: u64) {
        match (who, index) {
            (0, 1) => hold(&self.one),
            (1, 0) => hold(&self.zero),
            _ => {}
        }
    }

    fn after(&self, who: u32, index: u64) {
        match (who, index) {
            (0, 0) => self.zero.store(true, Ordering::SeqCst),
            (1, 0) => self.one.store(true, Ordering::SeqCst),
            _ => {}
        }
    }
}

/// Of how many clients the journal has a first part of their commands in this script, and of how many all of them.
pub(crate) fn parts_of(alloc: Global, text: &str, journal: &[Entry]) -> Result<(u64, u64), Fault> {
    let lines = script(alloc, text)?;
    count_parts(alloc, lines.as_slice(), journal)
}

/// Adds a fault, and of how many clients a first part was answered.
pub(crate) fn push_stopped<T: Debug>(fault: &T, first: u64, out: &mut String) -> Result<(), Fault> {
    push_value(fault, out)?;
    push_filled(" / first parts %", &[first], out)
}

// Adds what a book came to: where a fault is kept, what does not rest on how far the workers came.
fn push_reached<D: Disk, F: Drop>(
    book: &Book<D, F>,
    first: u64,
    whole: u64,
    out: &mut String,
) -> Result<(), Fault> {
    if let Some(fault) = book.fault() {
        return push_stopped(&fault, first, out);
    }
    let numbers = [book.engine().events(), book.engine().steps(), whole];
    push_filled("% events, % steps / whole parts %", &numbers, out)
}

// Adds the replies of a journal.
fn push_replies(alloc: Global, journal: &[Entry], out: &mut String) -> Result<(), Fault> {
    let text = journal_text(alloc, journal)?;
    push_text(text.as_slice(), out)
}

/// Adds what a journal is, and all its replies, where they are asked for.
pub(crate) fn push_journal(
    alloc: Global,
    journal: &[Entry],
    replies: bool,
    out: &mut String,
) -> Result<(), Fault> {
    push_legal(alloc, journal, out)?;
    if replies {
        return push_replies(alloc, journal, out);
    }
    Ok(())
}

// Adds what the book of this script came to.
fn push_ended<D: Disk, F: Drop>(
    alloc: Global,
    book: &Book<D, F>,
    text: &str,
    replies: bool,
    out: &mut String,
) -> Result<(), Fault> {
    let (first, whole) = parts_of(alloc, text, book.engine().recent())?;
    push_reached(book, first, whole, out)?;
    push_journal(alloc, book.engine().recent(), replies, out)
}

// Adds what the book of this script came to, and lets it go.
fn push_made<D: Disk + Drop, F: Drop>(
    alloc: Global,
    book: Book<D, F>,
    text: &str,
    replies: bool,
    out: &mut String,
) -> Result<(), Fault> {
    let said = push_ended(alloc, &book, text, replies, out);
    drop(disk_of(book.into_engine()));
    said
}

// Makes all of a book: in threads, or in one.
fn made<D: Disk + Drop + Send, F: Fn(&[u64]) -> usize + Drop + Send, R: Threads + Wait + Sync>(
    rt: &R,
    alloc: Global,
    book: Book<D, F>,
    gate: &Between,
    way: &str,
) -> Book<D, F>
    requires { IsChooser F.Fn (chooser (engine_in book)) }
{
    if way == "alone" {
        return made_alone(alloc, book);
    }
    run_all(rt, alloc, book, gate)
}

// Makes all of a script over an engine, and adds what that came to.
fn push_run<D: Disk + Drop + Send, F: Fn(&[u64]) -> usize + Drop + Send, R: Threads + Wait + Sync>(
    rt: &R,
    alloc: Global,
    engine: Engine<D, F>,
    asked: Script,
    text: &str,
    gate: &Between,
    way: &str,
    out: &mut String,
) -> Result<(), Fault>
    requires fresh { IsFresh (serving engine) }
    requires chooser { IsChooser F.Fn (chooser engine) }
{
    match Book::new(alloc, engine, asked) {
        Ok(book) => {
            let book = made(rt, alloc, book, gate, way);
            push_made(alloc, book, text, way == "between", out)
        }
        Err((engine, _)) => {
            drop(disk_of(engine));
            Err(refuse("no memory"))
        }
    }
}

// Opens a new store whose disk fails the call of this number, makes all of the script, in threads by this gate, and adds
// what that came to.
fn push_gated<R: Threads + Wait + Sync>(
    rt: &R,
    alloc: Global,
    call: u64,
    gate: &Between,
    text: &str,
    way: &str,
    out: &mut String,
) -> Result<(), Fault> {
    let asked = script(alloc, text)?;
    let disk = new_disk(alloc, call)?;
    let engine = open(alloc, disk, Placement::new(|_: &[u64]| 0))?;
    push_run(rt, alloc, engine, asked, text, gate, way, out)
}

/// Opens a new store whose disk fails the call of this number, makes all of the script, and adds what that came to: in
/// `threads`; or `alone`, in one thread, one worker after another; or in threads with client 1 held `between` two events of
/// client 0, and then the replies too.
pub(crate) fn push_threads<R: Threads + Wait + Sync>(
    rt: &R,
    alloc: Global,
    call: u64,
    text: &str,
    way: &str,
    out: &mut String,
) -> Result<(), Fault> {
    let gate = Between::new(way != "between");
    push_gated(rt, alloc, call, &gate, text, way, out)
}
