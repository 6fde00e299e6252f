//! A run in threads: the source is read, the store is opened, and workers share an engine over its copy.

ghost use Rattle.std.specs.Prelude.{◌≡◌, List, ℕ, [], None, IfSome};
ghost use Rattle.pm_place.specs.Choosers.{IsChooser};
ghost use Rattle.pm_model.specs.Text.{text};
ghost use Rattle.pm_engine.specs.Shown.{KeepsStart, chooser, disk_in, past_of, serving, tally_in, unmade_in};
ghost use Rattle.pm_engine.specs.Events.Causes.{CountsDisk, why};
ghost use Rattle.pm_engine.specs.Events.Running.{IsFresh, RunsOnDisk};
ghost use Rattle.pm_runs.specs.declared.ends.ended.Detail.TheVariants.{Fine};
ghost use Rattle.pm_runs.specs.declared.writes.Writes.TheVariants.{Replies};
ghost use Rattle.pm_serial.specs.Acknowledged.{AcknowledgesLast};
ghost use Rattle.pm_serial.specs.Stepping.{IsOfSink};
ghost use Rattle.pm_serial.specs.Together.{AnswersClients, AnswersInSomeOrder};
ghost use Rattle.pm_serial.specs.Writing.{WroteRun, tail_of};
ghost use Rattle.pm_runs.specs.Threads.Running.{AnswersBy};
ghost use Rattle.pm_runs.specs.Threads.Together.{ServesBy, ServesTogether};
ghost use Rattle.pm_runs.specs.Ends.Ends.{IsUnwritten, status_of, stop_in};
ghost use Rattle.pm_runs.specs.Ends.Journals.{ServesLines};
ghost use Rattle.pm_runs.specs.Ends.Causes.{ShowsCauses};
ghost use Rattle.pm_runs.specs.Runs.{RunsBy, RunsStore};
ghost use Rattle.pm_runs.specs.Engines.{RunsEngine};

use crate::ends::{Alone, Engine, end_unopened, end_with, ended_by, not_opened, read_source};
use crate::threads::run_script;
use crate::way::Way;
use pm_callers::run_passes;
use pm_disk::Disk;
use pm_io::{Sink, Source};
use pm_place::Placement;
use pm_script::Script;
use pm_serial::Stop;
use pm_turns::Gate;
use std::alloc::Global;
use std::mem;
use std::sync::Wait;
use std::thread::Threads;

/// A law of a disk: what may be left since this moment may be left at it.
pub fn images_since_now<D: Disk>(disk: &D)
    ensures { (left : List ℕ) → D.since disk.now (D.moment disk.now) left → D.image disk.now left }
{}

// Makes what a script asks of an engine that was just opened, by workers that share it this way, and writes the replies.
fn run_workers<
    R: Threads + Wait + Sync,
    D: Disk + Drop + Send,
    F: Fn(&[u64]) -> usize + Drop + Send,
    K: Sink,
    G: Gate + Sync,
>(
    rt: &R,
    alloc: Global,
    way: Way,
    script: Script,
    engine: Engine<D, F>,
    sink: &mut K,
    gate: &G,
) -> (Result<(), Stop>, Engine<D, F>)
    requires fresh { IsFresh (serving engine) }
    requires unmade { unmade_in engine ≡ None }
    requires chooser { IsChooser F.Fn (chooser engine) }
    ensures answers { AnswersClients script (serving result.1) (why result.0) }
    ensures order { ∥ AnswersInSomeOrder script (serving result.1) (why result.0) ∥₁ }
    ensures by { AnswersBy way script (serving result.1) (unmade_in result.1) (why result.0) }
    ensures disk { ∥ RunsOnDisk engine result.1 (why result.0) ∥₁ }
    ensures sink { WroteRun K.written K.finished K.count sink.old sink.new
        (text (serving result.1).journal) (tail_of (tally_in (serving result.1))) (why result.0) }
    ensures cause { CountsDisk (why result.0) (D.count (disk_in engine)) (D.count (disk_in result.1)) }
    ensures past { (D.made (disk_in result.1)).past ≡ (D.made (disk_in engine)).past }
    ensures whole { past_of result.1 ≡ [] }
    ensures start { ∥ KeepsStart engine result.1 ∥₁ }
    ensures last { IsOfSink (why result.0) → AnswersClients script (serving result.1) None }
{
    match way {
        Way::Turns => run_script(rt, alloc, script, engine, sink, gate),
        Way::Passes => run_passes(rt, alloc, script, engine, sink, gate),
    }
}

// Runs a script over an engine that was just opened, on a disk with this count of failed calls.
fn run_engine<
    R: Threads + Wait + Sync,
    D: Disk + Drop + Send,
    F: Fn(&[u64]) -> usize + Drop + Send,
    S: Source,
    K: Sink,
    G: Gate + Sync,
>(
    rt: &R,
    alloc: Global,
    way: Way,
    script: Script,
    disk_before: u64,
    engine: Engine<D, F>,
    source: S,
    mut sink: K,
    gate: &G,
) -> Alone<D, S, K>
    requires fresh { IsFresh (serving engine) }
    requires unmade { unmade_in engine ≡ None }
    requires chooser { IsChooser F.Fn (chooser engine) }
    requires count { disk_before ≡ D.count (disk_in engine) }
    ensures status { result.status ≡ status_of result.detail }
    ensures source { result.source ≡ source }
    ensures serves { ServesLines script result.detail result.journal.items result.tally }
    ensures last { IsUnwritten result.detail
        → ServesLines script Fine result.journal.items result.tally }
    ensures runs { ∥ RunsEngine K.Sink Replies engine sink result ∥₁ }
    ensures together { ServesTogether (λ lines. lines ≡ script) result.detail result.journal.items result.tally }
    ensures by { ServesBy way (λ lines. lines ≡ script) result.detail result.journal.items result.tally }
    ensures saved { AcknowledgesLast K.Sink sink result.sink result.journal.items (stop_in result.detail) }
    ensures causes { ShowsCauses D.Disk S.Source K.Sink (disk_in engine) source sink result }
{
    let sink_before = sink.faults();
    let (outcome, engine) = run_workers(rt, alloc, way, script, engine, &mut sink, gate);
    let sink_after = sink.faults();
    engine.keep_their_images();
    let (disk, journal, tally, heap) = engine.into_parts();
    // The process ends behind its run, and gives all memory back at once.
    mem::forget(heap);
    let detail = ended_by(outcome, disk_before, disk.faults(), sink_before, sink_after);
    end_with(detail, journal, Some(tally), None, disk, source, sink)
}

// Opens the store on the disk, and runs the script over its copy.
fn open_and_run<
    R: Threads + Wait + Sync,
    D: Disk + Drop + Send,
    F: Fn(&[u64]) -> usize + Drop + Send,
    S: Source,
    K: Sink,
    G: Gate + Sync,
>(
    rt: &R,
    alloc: Global,
    way: Way,
    script: Script,
    disk: D,
    place: Placement<F>,
    source: S,
    sink: K,
    gate: &G,
) -> Alone<D, S, K>
    requires chooser { IsChooser F.Fn place }
    ensures status { result.status ≡ status_of result.detail }
    ensures source { result.source ≡ source }
    ensures serves { ServesLines script result.detail result.journal.items result.tally }
    ensures last { IsUnwritten result.detail
        → ServesLines script Fine result.journal.items result.tally }
    ensures store { ∥ RunsStore D.Disk K.Sink place Replies disk sink result ∥₁ }
    ensures together { ServesTogether (λ lines. lines ≡ script) result.detail result.journal.items result.tally }
    ensures by { ServesBy way (λ lines. lines ≡ script) result.detail result.journal.items result.tally }
    ensures saved { IfSome result.tally
        (λ it. AcknowledgesLast K.Sink sink result.sink result.journal.items (stop_in result.detail)) }
    ensures causes { ShowsCauses D.Disk S.Source K.Sink disk source sink result }
{
    let before = disk.faults();
    match Engine::open_store(alloc, disk, place) {
        Ok(engine) => run_engine(rt, alloc, way, script, before, engine, source, sink, gate),
        Err((disk, fault)) => end_unopened(alloc, not_opened(fault), disk, source, sink),
    }
}

/// Reads the source to its end, and runs what it held in threads, whose workers share the engine this way. It waits for the
/// threads.
pub fn run_together<
    R: Threads + Wait + Sync,
    D: Disk + Drop + Send,
    F: Fn(&[u64]) -> usize + Drop + Send,
    S: Source,
    K: Sink,
    G: Gate + Sync,
>(
    rt: &R,
    alloc: Global,
    way: Way,
    disk: D,
    place: Placement<F>,
    mut source: S,
    sink: K,
    gate: &G,
) -> Alone<D, S, K>
    requires chooser { IsChooser F.Fn place }
    ensures status { result.status ≡ status_of result.detail }
    ensures runs { RunsBy D.Disk S.Source K.Sink way place disk source sink result }
    ensures causes { ShowsCauses D.Disk S.Source K.Sink disk source sink result }
{
    images_since_now(&disk);
    match read_source(alloc, &mut source) {
        Ok(script) => open_and_run(rt, alloc, way, script, disk, place, source, sink, gate),
        Err(detail) => end_unopened(alloc, detail, disk, source, sink),
    }
}
