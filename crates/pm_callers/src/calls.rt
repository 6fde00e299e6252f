//! A whole run: a script is asked of an engine by ten workers.

ghost use Rattle.std.specs.Prelude.{◌≡◌, ◌⊎◌, ℕ, ◌<◌, ◌≤◌, List, length, IfErr, IfOk, Some};
ghost use Rattle.std.specs.List.{AllByRecursion};
ghost use Rattle.pm_types.specs.declared.no_memory.NoMemory.{NoMemory};
ghost use Rattle.pm_types.specs.declared.fault.EngineFault.TheVariants.{Memory as OfMemory};
ghost use Rattle.pm_seats.specs.declared.fault.SeatFault.TheVariants.{Engine as Answered};
ghost use Rattle.pm_place.specs.Choosers.{IsChooser};
ghost use Rattle.pm_engine.specs.Events.Running.{IsFresh};
ghost use Rattle.pm_engine.specs.Shown.{chooser, disk_in, serving};
ghost use Rattle.pm_engine.specs.contracts.Engine as engines;
ghost use Rattle.pm_passes.specs.Passes.{view_of};
ghost use Rattle.pm_seats.specs.Sharing.{IsPassOf, OpensPass, first_engine};
ghost use Rattle.pm_turns.specs.declared.limits.TheConstants.{WORKERS};
ghost use Rattle.pm_callers.specs.Tasks.{AreApart, IsTask};
ghost use Rattle.pm_callers.specs.Runs.{AreAsked, KeepsEngine, RunsCalls, RunsTasks};

use crate::workers::spread;
use crate::{Task, tasks_of};
use pm_disk::Disk;
use pm_engine::Engine;
use pm_passes::Pass;
use pm_script::Script;
use pm_script::parted::{Parts, collects_asked, commands_asked, flushes_asked};
use pm_seats::{SeatFault, Shared};
use pm_turns::Gate;
use pm_types::{EngineFault, Entry, NoMemory};
use std::alloc::Global;
use std::sync::Wait;
use std::thread::Threads;

// A law of an engine's disk: what may be left since this moment may be left at it.
pub(crate) fn images_since_now<D: Disk, F: Drop>(engine: &Engine<D, F>)
    ensures { (left : List ℕ) → D.since (disk_in engine.now) (D.moment (disk_in engine.now)) left
        → D.image (disk_in engine.now) left }
{}

// The tasks of all that a script asks.
fn tasks_asked(alloc: Global, script: Script) -> Result<Vec<Task>, NoMemory>
    ensures { IfOk result (λ tasks. AreAsked script tasks.items) }
{
    let collects = collects_asked(&script);
    let flushes = flushes_asked(&script);
    let parts = Parts::split(alloc, script)?;
    let tasks = tasks_of(alloc, parts.into_lists(), collects, flushes)?;
    Ok(tasks)
}

// Takes the room of all entries, and makes the tasks.
fn prepare<D: Disk + Drop, F: Drop>(
    alloc: Global,
    mut engine: Engine<D, F>,
    script: Script,
) -> Result<(Engine<D, F>, Vec<Task>), (Engine<D, F>, NoMemory)>
    ensures tasks { IfOk result (λ made. AreAsked script made.1.items) }
    ensures engine { IfOk result (λ made. KeepsEngine engine made.0) }
    ensures back { IfErr result (λ back. KeepsEngine engine back.0) }
{
    if let Err(none) = engine.reserve_entries(commands_asked(script.as_slice())) {
        return Err((engine, none));
    }
    match tasks_asked(alloc, script) {
        Ok(tasks) => Ok((engine, tasks)),
        Err(none) => Err((engine, none)),
    }
}

// Makes the tasks with the first pass, and closes with it.
fn run_shared<
    D: Disk + Drop + Send,
    F: Fn(&[u64]) -> usize + Drop + Send,
    G: Gate + Sync,
    R: Threads + Wait + Sync,
>(
    rt: &R,
    alloc: Global,
    shared: Shared<D, F>,
    mut pass: Pass<Entry>,
    mut tasks: Vec<Task>,
    gate: &G,
) -> (Option<SeatFault>, Engine<D, F>)
    requires fresh { IsFresh (serving (first_engine shared)) }
    requires chooser { IsChooser F.Fn (chooser (first_engine shared)) }
    requires pass { IsPassOf (engines.the_row D.row F.row D.Disk).coded shared pass }
    requires opens { OpensPass (D.count (disk_in (first_engine shared))) (view_of pass) }
    requires some { 0 < length tasks.items }
    requires few { length tasks.items ≤ WORKERS }
    requires tasks { AllByRecursion IsTask tasks.items }
    requires apart { AreApart tasks.items }
    ensures { RunsTasks tasks.items (first_engine shared) result.1 result.0 }
{
    let fault = spread(rt, alloc, &shared, gate, &mut pass, tasks.as_mut_slice());
    shared.keep_its_pass(&pass);
    let engine = shared.close(rt, pass);
    engine.keep_their_images();
    (fault, engine)
}

// Shares an engine, and makes the tasks. Where there is no memory for the table, it comes back as it was.
fn share<
    D: Disk + Drop + Send,
    F: Fn(&[u64]) -> usize + Drop + Send,
    G: Gate + Sync,
    R: Threads + Wait + Sync,
>(
    rt: &R,
    alloc: Global,
    engine: Engine<D, F>,
    tasks: Vec<Task>,
    gate: &G,
) -> (Option<SeatFault>, Engine<D, F>)
    requires fresh { IsFresh (serving engine) }
    requires chooser { IsChooser F.Fn (chooser engine) }
    requires ten { length tasks.items ≡ WORKERS }
    requires tasks { AllByRecursion IsTask tasks.items }
    requires apart { AreApart tasks.items }
    ensures { RunsTasks tasks.items engine result.1 result.0
        ⊎ ((none : NoMemory) × (result.0 ≡ Some (Answered (OfMemory none))) × (result.1 ≡ engine)) }
{
    match Shared::open(alloc, engine) {
        Ok((shared, pass)) => run_shared(rt, alloc, shared, pass, tasks, gate),
        Err((engine, none)) => (Some(SeatFault::Engine(EngineFault::Memory(none))), engine),
    }
}

/// Asks all of a script of an engine: eight clients, the collector and the flusher, each with a pass of its own and in a
/// thread of its own, each with the engine to itself for one event at a time. A worker ends once it has made all, or at
/// the first fault that the engine answers it; the others go on. The worst fault is told: a Disk, if a worker met one;
/// else a Reopen; else a Memory; of two of a kind that of the earlier worker. The room of all entries, the lists, the tasks
/// and the table are taken before the first event; where there is none, the engine comes back as it was but for its room,
/// with Memory.
///
/// Waits for the threads. Where none can be made the workers go one after another.
pub fn run_calls<
    D: Disk + Drop + Send,
    F: Fn(&[u64]) -> usize + Drop + Send,
    G: Gate + Sync,
    R: Threads + Wait + Sync,
>(
    rt: &R,
    alloc: Global,
    engine: Engine<D, F>,
    script: Script,
    gate: &G,
) -> (Option<SeatFault>, Engine<D, F>)
    requires fresh { IsFresh (serving engine) }
    requires chooser { IsChooser F.Fn (chooser engine) }
    ensures { RunsCalls script engine result.1 result.0 }
{
    engine.keep_their_images();
    images_since_now(&engine);
    match prepare(alloc, engine, script) {
        Ok((engine, tasks)) => share(rt, alloc, engine, tasks, gate),
        Err((engine, none)) => (Some(SeatFault::Engine(EngineFault::Memory(none))), engine),
    }
}
