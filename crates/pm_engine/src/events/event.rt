//! Events: a client's command, a step of the collector, and a page of the copy in progress.

ghost use Rattle.std.specs.Prelude.{◌≡◌, ◌<◌, [], None, OnOk, OnErr};
ghost use Rattle.pm_types.specs.declared.limits.TheConstants.{CLIENTS};
ghost use Rattle.pm_place.specs.Choosers.{IsChooser};
ghost use Rattle.pm_engine.specs.Calls.{AnswersClient, AnswersCollect, AnswersFlush};
ghost use Rattle.pm_engine.specs.Shown.{chooser, room, serving};
ghost use Rattle.pm_engine.specs.Events.Causes.{stop_after};
ghost use Rattle.pm_engine.specs.Events.Events.{Adds, AnswersPart, EngineGoesOn, IsShort, KeepsCounts};

use crate::Engine;
use pm_disk::Disk;
use pm_types::{Cmd, EngineFault, Flushed, Reply, Step};
use std::alloc::Global;

/// Gives a client's command to the engine, which has room for its entry, and answers what the engine answered.
///
/// # Errors
///
/// `Memory`: world and journal are as they were. `Disk`, for `settle` alone: the disk failed, and the engine is stopped.
pub fn ask<D: Disk, F: Drop>(
    alloc: Global,
    engine: &mut Engine<D, F>,
    client: u32,
    cmd: &Cmd,
) -> Result<Reply, EngineFault>
    requires client { client < CLIENTS }
    requires room { 0 < room engine.old }
    requires running { (serving engine.old).stopped ≡ None }
    ensures adds { OnOk result (Adds client cmd.now (serving engine.old) (serving engine.new)) }
    ensures stays { OnErr result (KeepsCounts (serving engine.old) (serving engine.new)) }
    ensures short { IsShort cmd.now (serving engine.old) (serving engine.new) (stop_after result) }
    ensures engine { EngineGoesOn engine.old engine.new (stop_after result) }
    ensures call { AnswersClient client cmd.now engine.old engine.new result }
{
    engine.keep_their_images();
    engine.client(alloc, client, cmd)
}

/// The same for a command that is given up: it is not copied, and is let go where no entry is appended.
///
/// # Errors
///
/// `Memory`: world and journal are as they were. `Disk`, for `settle` alone: the disk failed, and the engine is stopped.
pub fn give<D: Disk, F: Drop>(
    alloc: Global,
    engine: &mut Engine<D, F>,
    client: u32,
    cmd: Cmd,
) -> Result<Reply, EngineFault>
    requires client { client < CLIENTS }
    requires room { 0 < room engine.old }
    requires running { (serving engine.old).stopped ≡ None }
    ensures adds { OnOk result (Adds client cmd (serving engine.old) (serving engine.new)) }
    ensures stays { OnErr result (KeepsCounts (serving engine.old) (serving engine.new)) }
    ensures short { IsShort cmd (serving engine.old) (serving engine.new) (stop_after result) }
    ensures engine { EngineGoesOn engine.old engine.new (stop_after result) }
    ensures call { AnswersClient client cmd engine.old engine.new result }
{
    engine.keep_their_images();
    engine.give(alloc, client, cmd)
}

/// Makes an event of the collector, and answers what it did.
///
/// # Errors
///
/// `Memory`: nothing has changed.
pub fn collect_once<D: Disk, F: Fn(&[u64]) -> usize + Drop>(
    alloc: Global,
    engine: &mut Engine<D, F>,
) -> Result<Step, EngineFault>
    requires running { (serving engine.old).stopped ≡ None }
    requires chooser { IsChooser F.Fn (chooser engine.old) }
    ensures answers { AnswersPart [] 1 1 (serving engine.old) (serving engine.new) (stop_after result) }
    ensures stays { (serving engine.new).journal ≡ (serving engine.old).journal }
    ensures course { (serving engine.new).course ≡ (serving engine.old).course }
    ensures counts { OnErr result (KeepsCounts (serving engine.old) (serving engine.new)) }
    ensures engine { EngineGoesOn engine.old engine.new (stop_after result) }
    ensures call { AnswersCollect F.Fn engine.old engine.new result }
{
    engine.keep_their_images();
    engine.collect(alloc)
}

/// Makes an event that writes a page of the copy in progress, if one is left, and answers which.
///
/// # Errors
///
/// `Memory`: nothing has changed. `Disk`: the disk failed, and the engine is stopped.
pub fn flush_once<D: Disk, F: Drop>(
    alloc: Global,
    engine: &mut Engine<D, F>,
) -> Result<Flushed, EngineFault>
    requires running { (serving engine.old).stopped ≡ None }
    ensures answers { AnswersPart [] 1 0 (serving engine.old) (serving engine.new) (stop_after result) }
    ensures stays { (serving engine.new).journal ≡ (serving engine.old).journal }
    ensures course { (serving engine.new).course ≡ (serving engine.old).course }
    ensures counts { OnErr result (KeepsCounts (serving engine.old) (serving engine.new)) }
    ensures engine { EngineGoesOn engine.old engine.new (stop_after result) }
    ensures call { AnswersFlush engine.old engine.new result }
{
    engine.keep_their_images();
    engine.flush(alloc)
}
