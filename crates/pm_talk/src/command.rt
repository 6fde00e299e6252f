//! What a line of a script asks: a command of a client, or events.

ghost use Rattle.std.specs.Prelude.{◌≡◌, ◌≤◌, ◌<◌, ◌++◌, ◌∷◌, [], ℕ, List, length, Ok, None, OnOk, IfErr};
ghost use Rattle.pm_place.specs.Choosers.{IsChooser};
ghost use Rattle.pm_types.specs.declared.limits.TheConstants.{CLIENTS};
ghost use Rattle.pm_types.specs.declared.entry.Entry.{Entry as Kept};
ghost use Rattle.pm_script.specs.declared.reply.TheConstants.{REPLY_BYTES};
ghost use Rattle.pm_script.specs.declared.line.Line.TheVariants as says;
ghost use Rattle.pm_peer.specs.declared.asked.Asked.TheVariants as asks;
ghost use Rattle.pm_engine.specs.Shown.{chooser, recent, room, serving};
ghost use Rattle.pm_talk.specs.declared.events.TheConstants.{MOST_EVENTS};
ghost use Rattle.pm_talk.specs.Flushing.{StopsCommand};
ghost use Rattle.pm_talk.specs.Going.{TalkGoesOn, halt_after};
ghost use Rattle.pm_talk.specs.Saying.{AddsLast, IsReady, SaysBy, SaysFault, stop_by};

use crate::answer::Saying;
use crate::events::{collect_events, due_behind, flush_events};
use crate::texts::{flush_line, gc_line, no_memory_line};
use pm_disk::Disk;
use pm_engine::events::{Engine, give};
use pm_script::reply_into;
use pm_types::{Cmd, EngineFault, Entry, Reply};
use std::alloc::Global;

// Gives a client's command to the engine, which has room for its entry.
fn give_command<D: Disk, F: Drop>(
    alloc: Global,
    engine: &mut Engine<D, F>,
    client: u32,
    cmd: Cmd,
) -> Result<Reply, EngineFault>
    requires client { client < CLIENTS }
    requires room { 0 < room engine.old }
    requires running { (serving engine.old).stopped ≡ None }
    ensures adds { OnOk result (AddsLast client cmd engine.old engine.new) }
    ensures stops { IfErr result (StopsCommand cmd (serving engine.old) (serving engine.new)) }
    ensures engine { TalkGoesOn engine.old engine.new (halt_after result) }
{
    give(alloc, engine, client, cmd)
}

// The same, once there is room for the entry.
fn ask_engine<D: Disk, F: Drop>(
    alloc: Global,
    engine: &mut Engine<D, F>,
    client: u32,
    cmd: Cmd,
) -> Result<Reply, EngineFault>
    requires client { client < CLIENTS }
    requires running { (serving engine.old).stopped ≡ None }
    ensures adds { OnOk result (AddsLast client cmd engine.old engine.new) }
    ensures stops { IfErr result (StopsCommand cmd (serving engine.old) (serving engine.new)) }
    ensures engine { TalkGoesOn engine.old engine.new (halt_after result) }
{
    engine.keep_their_images();
    match engine.reserve_entries(1) {
        Ok(()) => give_command(alloc, engine, client, cmd),
        Err(refused) => Err(EngineFault::Memory(refused)),
    }
}

// The last of these entries.
fn last_of(entries: &[Entry]) -> &Entry
    requires { 0 < length entries.now }
    ensures { (first : List Kept) (last : Kept) → entries.now ≡ first ++ last ∷ [] → result.now ≡ last }
{
    let last = entries.len() - 1;
    &entries[last]
}

// What is said of a fault of the engine: that memory ran out; or nothing, since the disk failed.
fn say_fault(fault: EngineFault) -> Option<Saying>
    ensures { SaysFault fault result }
{
    match fault {
        EngineFault::Memory(refused) => Some(Saying::Short(no_memory_line(refused))),
        EngineFault::Disk { .. } | EngineFault::Reopen { .. } => None,
    }
}

/// Answers a client's command; `None` where the disk failed.
pub(crate) fn answer_command<D: Disk, F: Drop>(
    alloc: Global,
    engine: &mut Engine<D, F>,
    events: u32,
    client: u32,
    cmd: Cmd,
    reply: &mut [u8],
) -> Option<Saying>
    requires few { events ≤ MOST_EVENTS }
    requires client { client < CLIENTS }
    requires running { (serving engine.old).stopped ≡ None }
    requires room { length reply.old ≡ REPLY_BYTES }
    ensures ready { IsReady events (Ok (asks.Line (says.Client client cmd))) (serving engine.old) (serving engine.new)
        reply.new result }
    ensures engine { TalkGoesOn engine.old engine.new (stop_by result) }
    ensures len { length reply.new ≡ length reply.old }
{
    let due = due_behind(events, &cmd);
    match ask_engine(alloc, engine, client, cmd) {
        Ok(shown) => {
            drop(shown);
            let bytes = reply_into(last_of(engine.recent()), reply);
            Some(Saying::Reply { bytes, due })
        }
        Err(fault) => say_fault(fault),
    }
}

/// Answers so many events of the collector.
pub(crate) fn answer_gc<D: Disk, F: Fn(&[u64]) -> usize + Drop>(
    alloc: Global,
    engine: &mut Engine<D, F>,
    count: u32,
) -> Saying
    requires running { (serving engine.old).stopped ≡ None }
    requires chooser { IsChooser F.Fn (chooser engine.old) }
    ensures says { (events : ℕ) (buffer : List ℕ) → SaysBy events (Ok (asks.Line (says.Gc count)))
        (serving engine.old) (serving engine.new) buffer result }
    ensures engine { TalkGoesOn engine.old engine.new None }
{
    match collect_events(alloc, engine, count) {
        Ok(()) => Saying::Short(gc_line(engine.completed())),
        Err(refused) => Saying::Short(no_memory_line(refused)),
    }
}

/// Answers so many flush events; `None` where the disk failed.
pub(crate) fn answer_flush<D: Disk, F: Drop>(
    alloc: Global,
    engine: &mut Engine<D, F>,
    count: u32,
) -> Option<Saying>
    requires running { (serving engine.old).stopped ≡ None }
    ensures ready { (events : ℕ) (buffer : List ℕ) → IsReady events (Ok (asks.Line (says.Flush count)))
        (serving engine.old) (serving engine.new) buffer result }
    ensures engine { TalkGoesOn engine.old engine.new (stop_by result) }
{
    match flush_events(alloc, engine, count) {
        Ok(wrote) => Some(Saying::Short(flush_line(wrote))),
        Err(fault) => say_fault(fault),
    }
}
