//! What a run of workers with passes leaves: who was answered, and the copy with which the store opens then.

ghost use Rattle.pm_place.specs.Choosers.{IsChooser};
ghost use Rattle.pm_engine.specs.Shown.{chooser, serving};
ghost use Rattle.pm_engine.specs.Events.Running.{IsFresh};

use crate::opened::{disk_of, new_disk, open};
use crate::spelling::script;
use pm_callers::run_calls;
use pm_case_text::{Fault, push_filled, push_words, refuse};
use pm_disk::{Disk, MemDisk};
use pm_engine::Engine;
use pm_place::Placement;
use pm_script::Script;
use pm_seats::SeatFault;
use pm_turns::OpenGate;
use pm_types::{CLIENTS, Cmd, EngineFault, Entry, Reply};
use std::alloc::Global;
use std::sync::Wait;
use std::thread::Threads;

// Which fault was told.
fn word_of(fault: &Option<SeatFault>) -> &'static str {
    match fault {
        None => "no fault",
        Some(SeatFault::Spent { .. }) => "spent",
        Some(SeatFault::Engine(EngineFault::Memory(_))) => "no memory",
        Some(SeatFault::Engine(EngineFault::Reopen { .. })) => "reopen",
        Some(SeatFault::Engine(EngineFault::Disk { .. })) => "disk fault",
    }
}

// Adds how many commands each client was answered.
fn push_answered(journal: &[Entry], out: &mut String) -> Result<(), Fault> {
    push_words(" / answered", out)?;
    for who in 0..CLIENTS {
        let answered = journal.iter().filter(|entry| entry.client == who).count();
        push_filled(" %", &[answered as u64], out)?;
    }
    Ok(())
}

// The last copy that a journal told as saved, or 0.
fn last_saved(journal: &[Entry]) -> u64 {
    let mut last = 0;
    for entry in journal {
        if let Reply::Saved(number) = &entry.reply {
            last = *number as u64;
        }
    }
    last
}

// Adds which fault was told, and what an engine came to.
fn push_reached<D: Disk, F: Drop>(
    fault: &Option<SeatFault>,
    engine: &Engine<D, F>,
    out: &mut String,
) -> Result<(), Fault> {
    push_words(word_of(fault), out)?;
    push_answered(engine.recent(), out)?;
    let saved = last_saved(engine.recent());
    let numbers = [engine.events(), engine.steps(), saved];
    push_filled(" / % events, % steps / saved %", &numbers, out)
}

// Adds the copy with which an engine was opened: the next one is begun.
fn push_copy(begun: Option<Reply>, out: &mut String) -> Result<(), Fault> {
    match begun {
        Some(Reply::Begun(number)) => {
            let opened = (number as u64).saturating_sub(1);
            push_filled(", opens with %\n", &[opened], out)
        }
        _ => Err(refuse("no copy")),
    }
}

// Opens the store of a disk, and adds with which copy.
fn push_opened(alloc: Global, disk: MemDisk, out: &mut String) -> Result<(), Fault> {
    let mut engine = open(alloc, disk, Placement::new(|_: &[u64]| 0))?;
    let begun = engine.client(alloc, 0, &Cmd::Save).ok();
    drop(disk_of(engine));
    push_copy(begun, out)
}

// Asks all of a script of an engine, adds what that came to, and opens the store that it leaves.
fn push_run<F: Fn(&[u64]) -> usize + Drop + Send, R: Threads + Wait + Sync>(
    rt: &R,
    alloc: Global,
    engine: Engine<MemDisk, F>,
    asked: Script,
    out: &mut String,
) -> Result<(), Fault>
    requires fresh { IsFresh (serving engine) }
    requires chooser { IsChooser F.Fn (chooser engine) }
{
    let (fault, engine) = run_calls(rt, alloc, engine, asked, &OpenGate);
    let said = push_reached(&fault, &engine, out);
    let disk = disk_of(engine);
    said?;
    push_opened(alloc, disk, out)
}

/// Opens a new store, asks all of the script by workers with passes, and adds which fault was told, how many commands each
/// client was answered, how many events and steps were made, the last copy that was told as saved, and the one with which
/// the store opens behind that, a line.
pub(crate) fn push_reopened<R: Threads + Wait + Sync>(
    rt: &R,
    alloc: Global,
    text: &str,
    out: &mut String,
) -> Result<(), Fault> {
    let asked = script(alloc, text)?;
    let disk = new_disk(alloc, 0)?;
    let engine = open(alloc, disk, Placement::new(|_: &[u64]| 0))?;
    push_run(rt, alloc, engine, asked, out)
}
