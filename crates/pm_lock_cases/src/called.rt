//! Runs of workers with passes.

ghost use Rattle.pm_place.specs.Choosers.{IsChooser};
ghost use Rattle.pm_engine.specs.Shown.{chooser, serving};
ghost use Rattle.pm_engine.specs.Events.Running.{IsFresh};

use crate::opened::{disk_of, new_disk, open};
use crate::spelling::script;
use crate::threaded::{Between, parts_of, push_journal, push_stopped};
use pm_callers::run_calls;
use pm_case_text::{Fault, push_filled};
use pm_disk::Disk;
use pm_engine::Engine;
use pm_place::Placement;
use pm_script::Script;
use pm_seats::SeatFault;
use std::alloc::Global;
use std::sync::Wait;
use std::thread::Threads;

// Adds what an engine came to: where a fault was told, what does not rest on how far the workers came.
fn push_reached<D: Disk, F: Drop>(
    fault: Option<SeatFault>,
    engine: &Engine<D, F>,
    first: u64,
    whole: u64,
    out: &mut String,
) -> Result<(), Fault> {
    if let Some(fault) = fault {
        return push_stopped(&fault, first, out);
    }
    let entries = engine.entries();
    let numbers = [entries, engine.events(), engine.steps(), whole];
    push_filled(
        "% entries, % events, % steps / whole parts %",
        &numbers,
        out,
    )
}

// Adds what the workers of this script came to.
fn push_ended<D: Disk, F: Drop>(
    alloc: Global,
    fault: Option<SeatFault>,
    engine: &Engine<D, F>,
    text: &str,
    replies: bool,
    out: &mut String,
) -> Result<(), Fault> {
    let (first, whole) = parts_of(alloc, text, engine.recent())?;
    push_reached(fault, engine, first, whole, out)?;
    push_journal(alloc, engine.recent(), replies, out)
}

// Asks all of a script of an engine, adds what that came to, and lets the engine go.
fn push_run<D: Disk + Drop + Send, F: Fn(&[u64]) -> usize + Drop + Send, R: Threads + Wait + Sync>(
    rt: &R,
    alloc: Global,
    engine: Engine<D, F>,
    asked: Script,
    text: &str,
    gate: &Between,
    replies: bool,
    out: &mut String,
) -> Result<(), Fault>
    requires fresh { IsFresh (serving engine) }
    requires chooser { IsChooser F.Fn (chooser engine) }
{
    let (fault, engine) = run_calls(rt, alloc, engine, asked, gate);
    let said = push_ended(alloc, fault, &engine, text, replies, out);
    drop(disk_of(engine));
    said
}

// Opens a new store whose disk fails the call of this number, asks all of the script by this gate, and adds what that came
// to.
fn push_gated<R: Threads + Wait + Sync>(
    rt: &R,
    alloc: Global,
    call: u64,
    gate: &Between,
    text: &str,
    replies: bool,
    out: &mut String,
) -> Result<(), Fault> {
    let asked = script(alloc, text)?;
    let disk = new_disk(alloc, call)?;
    let engine = open(alloc, disk, Placement::new(|_: &[u64]| 0))?;
    push_run(rt, alloc, engine, asked, text, gate, replies, out)
}

/// Opens a new store whose disk fails the call of this number, asks all of the script by workers with passes, and adds what
/// that came to: `seats`, or `seats-between` with client 1 held between two events of client 0, and then the replies too.
pub(crate) fn push_calls<R: Threads + Wait + Sync>(
    rt: &R,
    alloc: Global,
    call: u64,
    text: &str,
    way: &str,
    out: &mut String,
) -> Result<(), Fault> {
    let between = way == "seats-between";
    let gate = Between::new(!between);
    push_gated(rt, alloc, call, &gate, text, between, out)
}
