//! A run with a nursery: the source is read as a script, the store is opened, and the lines are run over its copy in their
//! order.
ghost use Rattle.std.specs.Prelude.{◌≡◌, ◌≤◌, IfSome};
ghost use Rattle.pm_types.specs.Counts.{greatest_count};
ghost use Rattle.pm_place.specs.Choosers.{IsChooser};
ghost use Rattle.pm_script.specs.Young.{AreYoungLines};
ghost use Rattle.pm_script.specs.Parted.Asked.{events_asked};
ghost use Rattle.pm_serial.specs.Acknowledged.{Acknowledges};
ghost use Rattle.pm_young.specs.Seen.{chooser, disk_in};
ghost use Rattle.pm_young_run.specs.Asked.{as_lines};
ghost use Rattle.pm_young_run.specs.Running.{IsFreshYoung};
ghost use Rattle.pm_runs.specs.Ends.Ends.{status_of, stop_in};
ghost use Rattle.pm_runs.specs.Ends.Causes.{ShowsCauses};
ghost use Rattle.pm_runs.specs.Young.Engines.{RunsYoungEngine};
ghost use Rattle.pm_runs.specs.Young.Journals.{ServesYoung};
ghost use Rattle.pm_runs.specs.Young.Runs.{OpensYoung, RunsYoung};

use crate::ends::{Alone, end_unopened, end_with, ended_by, not_opened, read_young_source};
use pm_disk::Disk;
use pm_io::{Sink, Source};
use pm_place::Placement;
use pm_script::YoungLine;
use pm_young_run::{YoungEngine, run_young_lines};
use std::alloc::Global;
use std::mem;

// Runs the lines over an engine that was just opened, on a disk with this count of failed calls.
fn run_engine<D: Disk, F: Fn(&[u64]) -> usize + Drop, S: Source, K: Sink>(
    alloc: Global,
    lines: Vec<YoungLine>,
    disk_before: u64,
    mut engine: YoungEngine<D, F>,
    source: S,
    mut sink: K,
) -> Alone<D, S, K>
    requires clients { AreYoungLines lines.items }
    requires few { events_asked (as_lines lines.items) ≤ greatest_count }
    requires fresh { IsFreshYoung engine }
    requires chooser { IsChooser F.Fn (chooser engine) }
    requires count { disk_before ≡ D.count (disk_in engine) }
    ensures status { result.status ≡ status_of result.detail }
    ensures source { result.source ≡ source }
    ensures serves { ServesYoung lines.items result.detail result.journal.items result.young }
    ensures runs { RunsYoungEngine K.Sink lines.items engine sink result }
    ensures saved { Acknowledges K.Sink sink result.sink result.journal.items (stop_in result.detail) }
    ensures causes { ShowsCauses D.Disk S.Source K.Sink (disk_in engine) source sink result }
{
    let sink_before = sink.faults();
    let outcome = run_young_lines(alloc, lines, &mut engine, &mut sink);
    let sink_after = sink.faults();
    engine.keep_their_images();
    let (disk, journal, young, heap) = engine.into_parts();
    // The process ends behind its run, and gives all memory back at once.
    mem::forget(heap);
    let detail = ended_by(outcome, disk_before, disk.faults(), sink_before, sink_after);
    end_with(detail, journal, None, Some(young), disk, source, sink)
}

// Opens the store on the disk, and runs the lines over its copy, in their order. The source is not called.
fn open_and_run<D: Disk, F: Fn(&[u64]) -> usize + Drop, S: Source, K: Sink>(
    alloc: Global,
    lines: Vec<YoungLine>,
    disk: D,
    place: Placement<F>,
    source: S,
    sink: K,
) -> Alone<D, S, K>
    requires clients { AreYoungLines lines.items }
    requires few { events_asked (as_lines lines.items) ≤ greatest_count }
    requires chooser { IsChooser F.Fn place }
    ensures status { result.status ≡ status_of result.detail }
    ensures source { result.source ≡ source }
    ensures serves { ServesYoung lines.items result.detail result.journal.items result.young }
    ensures store { OpensYoung D.Disk K.Sink place lines.items disk sink result }
    ensures saved { IfSome result.young
        (λ it. Acknowledges K.Sink sink result.sink result.journal.items (stop_in result.detail)) }
    ensures causes { ShowsCauses D.Disk S.Source K.Sink disk source sink result }
{
    let before = disk.faults();
    match YoungEngine::open_young(alloc, disk, place) {
        Ok(engine) => run_engine(alloc, lines, before, engine, source, sink),
        Err((disk, fault)) => end_unopened(alloc, not_opened(fault), disk, source, sink),
    }
}

/// Reads the source to its end, and runs what it held with a nursery: new objects are held outside the cars until they
/// escape.
pub fn run_young<D: Disk, F: Fn(&[u64]) -> usize + Drop, S: Source, K: Sink>(
    alloc: Global,
    disk: D,
    place: Placement<F>,
    mut source: S,
    sink: K,
) -> Alone<D, S, K>
    requires chooser { IsChooser F.Fn place }
    ensures status { result.status ≡ status_of result.detail }
    ensures runs { RunsYoung D.Disk S.Source K.Sink place disk source sink result }
    ensures causes { ShowsCauses D.Disk S.Source K.Sink disk source sink result }
{
    match read_young_source(alloc, &mut source) {
        Ok(script) => open_and_run(alloc, script.into_lines(), disk, place, source, sink),
        Err(detail) => end_unopened(alloc, detail, disk, source, sink),
    }
}
