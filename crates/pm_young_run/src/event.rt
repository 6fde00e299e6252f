//! Events: a client's command, a step of the collector, a page of the copy in progress, and a sweep.

ghost use Rattle.std.specs.Prelude.{◌≡◌, ◌<◌, [], ◌∷◌, false, None, OnOk, OnErr};
ghost use Rattle.pm_types.specs.declared.limits.TheConstants.{CLIENTS};
ghost use Rattle.pm_place.specs.Choosers.{IsChooser};
ghost use Rattle.pm_model.specs.Frames.{sets_watch};
ghost use Rattle.pm_saving.specs.Serving.{made_now};
ghost use Rattle.pm_script.specs.declared.line.Line.TheVariants as says;
ghost use Rattle.pm_script.specs.declared.line.YoungLine.TheVariants.{Base, Young as Swept};
ghost use Rattle.pm_script.specs.Parted.Asked.{steps_of};
ghost use Rattle.pm_engine.specs.Events.Causes.{OnStop, why};
ghost use Rattle.pm_engine.specs.Events.Events.{Adds, AnswersPart, IsShort, KeepsCounts};
ghost use Rattle.pm_serial.specs.Acknowledged.{KeepsSaved};
ghost use Rattle.pm_serial.specs.Ordered.{TellsPart};
ghost use Rattle.pm_serial.specs.Output.Gathered.{gathered};
ghost use Rattle.pm_serial.specs.Stepping.{IsGathered, SinkGoesOn, StopsLine};
ghost use Rattle.pm_young.specs.Seen.{KeepsNursery, chooser, halt_in, room, serving};
ghost use Rattle.pm_young_run.specs.Entered.{Enters};
ghost use Rattle.pm_young_run.specs.Stepping.{YoungGoesOnRun, line_of};

use crate::kind::Kind;
use pm_disk::Disk;
use pm_engine::events::{Stop, stop_after};
use pm_io::Sink;
use pm_serial::output::Output;
use pm_serial::tell_reply;
use pm_types::Cmd;
use pm_young::YoungEngine;
use std::alloc::Global;

// Gives a client's command to the engine, which has room for its entry.
fn ask_engine<D: Disk, F: Drop>(
    alloc: Global,
    engine: &mut YoungEngine<D, F>,
    client: u32,
    cmd: Cmd,
) -> Result<(), Stop>
    requires client { client < CLIENTS }
    requires no_watch { sets_watch cmd ≡ false }
    requires room { 0 < room engine.old }
    requires running { halt_in engine.old ≡ None }
    ensures adds { OnOk result (Adds client cmd (serving engine.old) (serving engine.new)) }
    ensures stays { OnErr result (KeepsCounts (serving engine.old) (serving engine.new)) }
    ensures short { IsShort cmd (serving engine.old) (serving engine.new) (why result) }
    ensures engine { YoungGoesOnRun engine.old engine.new (why result) }
    ensures enters { OnOk result (Enters (Base (says.Client client cmd)) engine.old engine.new) }
    ensures unwritten { IsGathered (why result) }
{
    engine.keep_their_images();
    let answer = engine.give(alloc, client, cmd);
    engine.keep_their_nursery();
    stop_after(answer)
}

/// Answers a client's command, for whose entry there is room, and gathers its reply. One that says that a copy settled
/// is finished before the next event.
pub(crate) fn answer_client<D: Disk, F: Drop, K: Sink>(
    alloc: Global,
    engine: &mut YoungEngine<D, F>,
    client: u32,
    cmd: Cmd,
    output: &mut Output,
    sink: &mut K,
) -> Result<(), Stop>
    requires client { client < CLIENTS }
    requires no_watch { sets_watch cmd ≡ false }
    requires room { 0 < room engine.old }
    requires running { halt_in engine.old ≡ None }
    ensures answers { AnswersPart (record { client = client; cmd = cmd } ∷ []) 1 0
        (serving engine.old) (serving engine.new) (why result) }
    ensures course { TellsPart (made_now (serving engine.old) ∷ [])
        (serving engine.old) (serving engine.new) (why result) }
    ensures saved { KeepsSaved K.Sink sink.old sink.new (gathered output.old)
        (serving engine.old).journal (serving engine.new).journal (why result) }
    ensures stops { OnStop (why result)
        (StopsLine (says.Client client cmd) (serving engine.old) (serving engine.new) (why result)) }
    ensures engine { YoungGoesOnRun engine.old engine.new (why result) }
    ensures enters { OnOk result (Enters (Base (says.Client client cmd)) engine.old engine.new) }
    ensures sink { SinkGoesOn K.written K.count sink.old sink.new
        (gathered output.old) (gathered output.new)
        (serving engine.old).journal (serving engine.new).journal (why result) }
{
    match ask_engine(alloc, engine, client, cmd) {
        Ok(()) => {
            let journal = engine.journal();
            let last = journal.len() - 1;
            match tell_reply(&journal[last], output, sink) {
                Ok(()) => Ok(()),
                Err(_) => Err(Stop::Writing),
            }
        }
        Err(stop) => Err(stop),
    }
}

// Makes an event of the collector.
fn collect_once<D: Disk, F: Fn(&[u64]) -> usize + Drop>(
    alloc: Global,
    engine: &mut YoungEngine<D, F>,
) -> Result<(), Stop>
    requires running { halt_in engine.old ≡ None }
    requires chooser { IsChooser F.Fn (chooser engine.old) }
    ensures answers { AnswersPart [] 1 1 (serving engine.old) (serving engine.new) (why result) }
    ensures stays { (serving engine.new).journal ≡ (serving engine.old).journal }
    ensures course { (serving engine.new).course ≡ (serving engine.old).course }
    ensures counts { OnErr result (KeepsCounts (serving engine.old) (serving engine.new)) }
    ensures engine { YoungGoesOnRun engine.old engine.new (why result) }
    ensures nursery { KeepsNursery engine.old engine.new }
    ensures unwritten { IsGathered (why result) }
{
    engine.keep_their_images();
    stop_after(engine.collect(alloc))
}

// Writes a page of the copy in progress, if one is left.
fn flush_once<D: Disk, F: Drop>(alloc: Global, engine: &mut YoungEngine<D, F>) -> Result<(), Stop>
    requires running { halt_in engine.old ≡ None }
    ensures answers { AnswersPart [] 1 0 (serving engine.old) (serving engine.new) (why result) }
    ensures stays { (serving engine.new).journal ≡ (serving engine.old).journal }
    ensures course { (serving engine.new).course ≡ (serving engine.old).course }
    ensures counts { OnErr result (KeepsCounts (serving engine.old) (serving engine.new)) }
    ensures engine { YoungGoesOnRun engine.old engine.new (why result) }
    ensures nursery { KeepsNursery engine.old engine.new }
    ensures unwritten { IsGathered (why result) }
{
    engine.keep_their_images();
    stop_after(engine.flush(alloc))
}

// Makes an event of this kind.
fn make_once<D: Disk, F: Fn(&[u64]) -> usize + Drop>(
    alloc: Global,
    engine: &mut YoungEngine<D, F>,
    kind: Kind,
) -> Result<(), Stop>
    requires running { halt_in engine.old ≡ None }
    requires chooser { IsChooser F.Fn (chooser engine.old) }
    ensures answers { AnswersPart [] 1 (steps_of (line_of kind 1))
        (serving engine.old) (serving engine.new) (why result) }
    ensures stays { (serving engine.new).journal ≡ (serving engine.old).journal }
    ensures course { (serving engine.new).course ≡ (serving engine.old).course }
    ensures counts { OnErr result (KeepsCounts (serving engine.old) (serving engine.new)) }
    ensures engine { YoungGoesOnRun engine.old engine.new (why result) }
    ensures nursery { KeepsNursery engine.old engine.new }
    ensures unwritten { IsGathered (why result) }
{
    match kind {
        Kind::Collect => collect_once(alloc, engine),
        Kind::Flush => flush_once(alloc, engine),
    }
}

/// Makes so many events of this kind.
pub(crate) fn make_events<D: Disk, F: Fn(&[u64]) -> usize + Drop>(
    alloc: Global,
    engine: &mut YoungEngine<D, F>,
    kind: Kind,
    count: u32,
) -> Result<(), Stop>
    requires running { halt_in engine.old ≡ None }
    requires chooser { IsChooser F.Fn (chooser engine.old) }
    ensures answers { AnswersPart [] count (steps_of (line_of kind count))
        (serving engine.old) (serving engine.new) (why result) }
    ensures stays { (serving engine.new).journal ≡ (serving engine.old).journal }
    ensures course { (serving engine.new).course ≡ (serving engine.old).course }
    ensures stops { OnStop (why result)
        (StopsLine (line_of kind count) (serving engine.old) (serving engine.new) (why result)) }
    ensures engine { YoungGoesOnRun engine.old engine.new (why result) }
    ensures nursery { KeepsNursery engine.old engine.new }
    ensures unwritten { IsGathered (why result) }
{
    engine.keep_their_images();
    for _ in 0..count {
        match make_once(alloc, engine, kind) {
            Ok(()) => {}
            Err(stop) => return Err(stop),
        }
    }
    Ok(())
}

/// Makes one sweep.
pub(crate) fn make_sweep<D: Disk, F: Drop>(
    alloc: Global,
    engine: &mut YoungEngine<D, F>,
) -> Result<(), Stop>
    requires running { halt_in engine.old ≡ None }
    ensures answers { AnswersPart [] 1 0 (serving engine.old) (serving engine.new) (why result) }
    ensures stays { (serving engine.new).journal ≡ (serving engine.old).journal }
    ensures course { (serving engine.new).course ≡ (serving engine.old).course }
    ensures stops { OnStop (why result)
        (StopsLine (says.Flush 1) (serving engine.old) (serving engine.new) (why result)) }
    ensures engine { YoungGoesOnRun engine.old engine.new (why result) }
    ensures enters { OnOk result (Enters Swept engine.old engine.new) }
    ensures unwritten { IsGathered (why result) }
{
    engine.keep_their_images();
    stop_after(engine.sweep(alloc))
}
