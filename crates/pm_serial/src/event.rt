//! Events: a client's command, a step of the collector, and a page of the copy in progress.

ghost use Rattle.std.specs.Prelude.{◌≡◌, ◌<◌, [], ◌∷◌, None, OnOk, OnErr};
ghost use Rattle.pm_types.specs.declared.limits.TheConstants.{CLIENTS};
ghost use Rattle.pm_place.specs.Choosers.{IsChooser};
ghost use Rattle.pm_serial.specs.Output.Gathered.{gathered};
ghost use Rattle.pm_engine.specs.Shown.{chooser, room, serving};
ghost use Rattle.pm_script.specs.declared.line.Line.TheVariants as says;
ghost use Rattle.pm_saving.specs.Serving.{made_now};
ghost use Rattle.pm_engine.specs.Events.Causes.{OnStop, why};
ghost use Rattle.pm_engine.specs.Events.Events.{Adds, AnswersPart, EngineGoesOn, IsShort, KeepsCounts};
ghost use Rattle.pm_serial.specs.Stepping.{IsCut, IsGathered, SinkGoesOn, StopsLine, steps_made};
ghost use Rattle.pm_serial.specs.Acknowledged.{KeepsSaved, TellsSaved};
ghost use Rattle.pm_serial.specs.Ordered.{TellsPart};

use crate::kind::Kind;
use crate::output::Output;
use crate::telling::tell_reply;
use pm_disk::Disk;
use pm_engine::events::{Engine, Stop, collect_once, flush_once, give, stop_after};
use pm_io::Sink;
use pm_types::Cmd;
use std::alloc::Global;

// Gives a client's command to the engine, which has room for its entry.
fn ask_engine<D: Disk, F: Drop>(
    alloc: Global,
    engine: &mut Engine<D, F>,
    client: u32,
    cmd: Cmd,
) -> Result<(), Stop>
    requires client { client < CLIENTS }
    requires room { 0 < room engine.old }
    requires running { (serving engine.old).stopped ≡ None }
    ensures adds { OnOk result (Adds client cmd (serving engine.old) (serving engine.new)) }
    ensures stays { OnErr result (KeepsCounts (serving engine.old) (serving engine.new)) }
    ensures short { IsShort cmd (serving engine.old) (serving engine.new) (why result) }
    ensures engine { EngineGoesOn engine.old engine.new (why result) }
    ensures unwritten { IsGathered (why result) }
{
    stop_after(give(alloc, engine, client, cmd))
}

/// Answers a client's command, for whose entry there is room, and gathers its reply. One that says that a copy settled is
/// finished before the next event.
pub(crate) fn answer_client<D: Disk, F: Drop, K: Sink>(
    alloc: Global,
    engine: &mut Engine<D, F>,
    client: u32,
    cmd: Cmd,
    output: &mut Output,
    sink: &mut K,
) -> Result<(), Stop>
    requires client { client < CLIENTS }
    requires room { 0 < room engine.old }
    requires running { (serving engine.old).stopped ≡ None }
    ensures answers { AnswersPart (record { client = client; cmd = cmd } ∷ []) 1 0
        (serving engine.old) (serving engine.new) (why result) }
    ensures course { TellsPart (made_now (serving engine.old) ∷ [])
        (serving engine.old) (serving engine.new) (why result) }
    ensures told { OnOk result (TellsSaved K.Sink sink.old sink.new (gathered output.new)
        (serving engine.new).journal) }
    ensures saved { KeepsSaved K.Sink sink.old sink.new (gathered output.old)
        (serving engine.old).journal (serving engine.new).journal (why result) }
    ensures stops { OnStop (why result)
        (StopsLine (says.Client client cmd) (serving engine.old) (serving engine.new) (why result)) }
    ensures engine { EngineGoesOn engine.old engine.new (why result) }
    ensures sink { SinkGoesOn K.written K.count sink.old sink.new
        (gathered output.old) (gathered output.new)
        (serving engine.old).journal (serving engine.new).journal (why result) }
{
    match ask_engine(alloc, engine, client, cmd) {
        Ok(()) => {
            let recent = engine.recent();
            let last = recent.len() - 1;
            match tell_reply(&recent[last], output, sink) {
                Ok(()) => Ok(()),
                Err(_) => Err(Stop::Writing),
            }
        }
        Err(stop) => Err(stop),
    }
}

// Makes an event of this kind.
fn make_once<D: Disk, F: Fn(&[u64]) -> usize + Drop>(
    alloc: Global,
    engine: &mut Engine<D, F>,
    kind: Kind,
) -> Result<(), Stop>
    requires running { (serving engine.old).stopped ≡ None }
    requires chooser { IsChooser F.Fn (chooser engine.old) }
    ensures answers { AnswersPart [] 1 (steps_made kind 1)
        (serving engine.old) (serving engine.new) (why result) }
    ensures stays { (serving engine.new).journal ≡ (serving engine.old).journal }
    ensures course { (serving engine.new).course ≡ (serving engine.old).course }
    ensures counts { OnErr result (KeepsCounts (serving engine.old) (serving engine.new)) }
    ensures engine { EngineGoesOn engine.old engine.new (why result) }
    ensures unwritten { IsGathered (why result) }
{
    match kind {
        Kind::Collect => stop_after(collect_once(alloc, engine)),
        Kind::Flush => stop_after(flush_once(alloc, engine)),
    }
}

/// Makes so many events of this kind.
pub(crate) fn make_events<D: Disk, F: Fn(&[u64]) -> usize + Drop>(
    alloc: Global,
    engine: &mut Engine<D, F>,
    kind: Kind,
    count: u32,
) -> Result<(), Stop>
    requires running { (serving engine.old).stopped ≡ None }
    requires chooser { IsChooser F.Fn (chooser engine.old) }
    ensures answers { AnswersPart [] count (steps_made kind count)
        (serving engine.old) (serving engine.new) (why result) }
    ensures stays { (serving engine.new).journal ≡ (serving engine.old).journal }
    ensures course { (serving engine.new).course ≡ (serving engine.old).course }
    ensures cut { OnErr result (IsCut kind count (serving engine.old) (serving engine.new)) }
    ensures engine { EngineGoesOn engine.old engine.new (why result) }
    ensures unwritten { IsGathered (why result) }
{
    engine.keep_their_images();
    for _ in 0..count {
        match make_once(alloc, engine, kind) {
            Ok(()) => {}
            Err(stop) => return Err(stop),
        }
    }
    Ok(())
}
