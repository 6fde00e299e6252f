//! Events that are made one behind another: of the collector, and flush events.

ghost use Rattle.std.specs.Prelude.{◌≡◌, ◌≤◌, None, IfOk, IfErr, OnOk, OnErr};
ghost use Rattle.pm_place.specs.Choosers.{IsChooser};
ghost use Rattle.pm_engine.specs.History.{IsCollected};
ghost use Rattle.pm_engine.specs.Shown.{chooser, serving};
ghost use Rattle.pm_talk.specs.Events.{Collects, CollectsFewer, FlushesAll, Makes, due_behind};
ghost use Rattle.pm_talk.specs.Flushing.{FlushesOne, IsOfMemory, StopsFlushing, pages_by};
ghost use Rattle.pm_talk.specs.Going.{TalkGoesOn, halt_after};
ghost use Rattle.pm_talk.specs.declared.events.TheConstants.{MOST_EVENTS};

use pm_disk::Disk;
use pm_engine::events::{Engine, collect_once, flush_once};
use pm_types::{Cmd, EngineFault, Flushed, NoMemory};
use std::alloc::Global;

/// The most events of the collector that may be asked for behind each reply.
pub const MOST_EVENTS: u32 = 1000;

/// How many events of the collector come behind the reply to a command.
pub(crate) fn due_behind(events: u32, cmd: &Cmd) -> u32
    requires { events ≤ MOST_EVENTS }
    ensures { result ≡ due_behind events cmd.now }
{
    match cmd {
        Cmd::Close => 512 * events,
        _ => events,
    }
}

// The evidence that memory ran out, of a fault that says so.
fn refused_by(fault: EngineFault) -> NoMemory
    requires { IsOfMemory fault }
{
    match fault {
        EngineFault::Memory(refused) => refused,
        EngineFault::Disk { .. } | EngineFault::Reopen { .. } => unreachable!(),
    }
}

// Makes an event of the collector. The fault of one is want of memory, since it calls no disk.
fn collect_one<D: Disk, F: Fn(&[u64]) -> usize + Drop>(
    alloc: Global,
    engine: &mut Engine<D, F>,
) -> Result<(), NoMemory>
    requires running { (serving engine.old).stopped ≡ None }
    requires chooser { IsChooser F.Fn (chooser engine.old) }
    ensures made { OnOk result (IsCollected (serving engine.old) (serving engine.new)) }
    ensures still { OnErr result (CollectsFewer 1 (serving engine.old) (serving engine.new)) }
    ensures engine { TalkGoesOn engine.old engine.new None }
{
    match collect_once(alloc, engine) {
        Ok(_) => Ok(()),
        Err(fault) => Err(refused_by(fault)),
    }
}

/// Makes so many events of the collector.
///
/// # Errors
///
/// Memory ran out: fewer were made.
pub(crate) fn collect_events<D: Disk, F: Fn(&[u64]) -> usize + Drop>(
    alloc: Global,
    engine: &mut Engine<D, F>,
    count: u32,
) -> Result<(), NoMemory>
    requires running { (serving engine.old).stopped ≡ None }
    requires chooser { IsChooser F.Fn (chooser engine.old) }
    ensures all { OnOk result (Makes IsCollected count (serving engine.old) (serving engine.new)) }
    ensures fewer { OnErr result (CollectsFewer count (serving engine.old) (serving engine.new)) }
    ensures engine { TalkGoesOn engine.old engine.new None }
{
    engine.keep_their_images();
    for _ in 0..count {
        match collect_one(alloc, engine) {
            Ok(()) => {}
            Err(refused) => return Err(refused),
        }
    }
    Ok(())
}

/// Makes so many events of the collector, or as many as there is memory for. Want of memory is passed over here, and
/// nowhere else: it changes nothing, nobody asked for these events, and behind the next reply as many are made again.
pub(crate) fn collect_behind<D: Disk, F: Fn(&[u64]) -> usize + Drop>(
    alloc: Global,
    engine: &mut Engine<D, F>,
    count: u32,
)
    requires running { (serving engine.old).stopped ≡ None }
    requires chooser { IsChooser F.Fn (chooser engine.old) }
    ensures made { Collects count (serving engine.old) (serving engine.new) }
    ensures engine { TalkGoesOn engine.old engine.new None }
{
    match collect_events(alloc, engine, count) {
        Ok(()) => {}
        Err(_) => {}
    }
}

// How many pages a flush event wrote.
fn pages_by(flushed: Flushed) -> u32
    ensures { result ≡ pages_by flushed }
{
    match flushed {
        Flushed::Wrote(_) => 1,
        Flushed::AllFlushed => 0,
    }
}

// Makes a flush event, and answers how many pages it wrote.
fn flush_one<D: Disk, F: Drop>(alloc: Global, engine: &mut Engine<D, F>) -> Result<u32, EngineFault>
    requires running { (serving engine.old).stopped ≡ None }
    ensures made { IfOk result (λ wrote. FlushesOne wrote (serving engine.old) (serving engine.new)) }
    ensures stops { IfErr result (StopsFlushing 1 (serving engine.old) (serving engine.new)) }
    ensures engine { TalkGoesOn engine.old engine.new (halt_after result) }
{
    match flush_once(alloc, engine) {
        Ok(flushed) => Ok(pages_by(flushed)),
        Err(fault) => Err(fault),
    }
}

/// Makes so many flush events, and answers how many pages they wrote.
///
/// # Errors
///
/// Memory ran out, or the disk failed: fewer were made.
pub(crate) fn flush_events<D: Disk, F: Drop>(
    alloc: Global,
    engine: &mut Engine<D, F>,
    count: u32,
) -> Result<u32, EngineFault>
    requires running { (serving engine.old).stopped ≡ None }
    ensures all { IfOk result (λ wrote. FlushesAll count wrote (serving engine.old) (serving engine.new)) }
    ensures fewer { IfErr result (StopsFlushing count (serving engine.old) (serving engine.new)) }
    ensures engine { TalkGoesOn engine.old engine.new (halt_after result) }
{
    engine.keep_their_images();
    let mut wrote = 0;
    for _ in 0..count {
        match flush_one(alloc, engine) {
            Ok(pages) => wrote += pages,
            Err(fault) => return Err(fault),
        }
    }
    Ok(wrote)
}
