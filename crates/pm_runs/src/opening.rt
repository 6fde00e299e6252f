//! A run: the store is opened, and the lines are run over its copy.
ghost use Rattle.std.specs.Prelude.{◌≡◌, ◌≤◌, IfSome};
ghost use Rattle.pm_types.specs.Counts.{greatest_count};
ghost use Rattle.pm_script.specs.Script.{AreLines};
ghost use Rattle.pm_script.specs.Parted.Asked.{events_asked};
ghost use Rattle.pm_place.specs.Choosers.{IsChooser};
ghost use Rattle.pm_engine.specs.Shown.{chooser, disk_in, serving};
ghost use Rattle.pm_engine.specs.Events.Running.{IsFresh};
ghost use Rattle.pm_runs.specs.Ends.Ends.{IsUnwritten, status_of, stop_in};
ghost use Rattle.pm_runs.specs.Ends.Journals.{ServesAll, ServesInOrder, ServesLines};
ghost use Rattle.pm_runs.specs.Wrote.{AcknowledgesFor, WritesLast};
ghost use Rattle.pm_runs.specs.Ends.Causes.{ShowsCauses};
ghost use Rattle.pm_runs.specs.Runs.{RunsStore};
ghost use Rattle.pm_runs.specs.Engines.{RunsEngine};

use crate::ends::{Alone, Engine, end_unopened, end_with, ended_by, not_opened};
use crate::writes::{Writes, write_lines};
use pm_disk::Disk;
use pm_io::{Sink, Source};
use pm_place::Placement;
use pm_script::Line;
use std::alloc::Global;
use std::mem;

// Runs the lines over an engine that was just opened, on a disk with this count of failed calls.
fn run_engine<D: Disk, F: Fn(&[u64]) -> usize + Drop, S: Source, K: Sink>(
    alloc: Global,
    writes: Writes,
    lines: Vec<Line>,
    disk_before: u64,
    mut engine: Engine<D, F>,
    source: S,
    mut sink: K,
) -> Alone<D, S, K>
    requires clients { AreLines lines.items }
    requires few { events_asked lines.items ≤ greatest_count }
    requires fresh { IsFresh (serving engine) }
    requires chooser { IsChooser F.Fn (chooser engine) }
    requires count { disk_before ≡ D.count (disk_in engine) }
    ensures status { result.status ≡ status_of result.detail }
    ensures source { result.source ≡ source }
    ensures serves { ServesLines lines.items result.detail result.journal.items result.tally }
    ensures order { ServesInOrder lines.items result.detail result.journal.items result.tally }
    ensures last { WritesLast writes → IsUnwritten result.detail
        → ServesAll lines.items result.journal.items result.tally }
    ensures runs { RunsEngine K.Sink writes engine sink result }
    ensures saved { AcknowledgesFor K.Sink writes sink result.sink result.journal.items (stop_in result.detail) }
    ensures causes { ShowsCauses D.Disk S.Source K.Sink (disk_in engine) source sink result }
{
    let sink_before = sink.faults();
    let outcome = write_lines(alloc, writes, lines, &mut engine, &mut sink);
    let sink_after = sink.faults();
    engine.keep_their_images();
    let (disk, journal, tally, heap) = engine.into_parts();
    // The process ends behind its run, and gives all memory back at once.
    mem::forget(heap);
    let detail = ended_by(outcome, disk_before, disk.faults(), sink_before, sink_after);
    end_with(detail, journal, Some(tally), None, disk, source, sink)
}

/// Opens the store on the disk, and runs the lines over its copy, in their order. The source is not called.
pub fn run_lines<D: Disk, F: Fn(&[u64]) -> usize + Drop, S: Source, K: Sink>(
    alloc: Global,
    writes: Writes,
    lines: Vec<Line>,
    disk: D,
    place: Placement<F>,
    source: S,
    sink: K,
) -> Alone<D, S, K>
    requires clients { AreLines lines.items }
    // No count comes to its end over the lines, as over those of a script.
    requires few { events_asked lines.items ≤ greatest_count }
    requires chooser { IsChooser F.Fn place }
    ensures status { result.status ≡ status_of result.detail }
    ensures source { result.source ≡ source }
    ensures serves { ServesLines lines.items result.detail result.journal.items result.tally }
    ensures order { ServesInOrder lines.items result.detail result.journal.items result.tally }
    ensures last { WritesLast writes → IsUnwritten result.detail
        → ServesAll lines.items result.journal.items result.tally }
    ensures store { RunsStore D.Disk K.Sink place writes disk sink result }
    // Acknowledged is told: unless the sink failed, the text through each reply `saved` is finished.
    ensures saved { IfSome result.tally
        (λ it. AcknowledgesFor K.Sink writes sink result.sink result.journal.items (stop_in result.detail)) }
    ensures causes { ShowsCauses D.Disk S.Source K.Sink disk source sink result }
{
    let before = disk.faults();
    match Engine::open_store(alloc, disk, place) {
        Ok(engine) => run_engine(alloc, writes, lines, before, engine, source, sink),
        Err((disk, fault)) => end_unopened(alloc, not_opened(fault), disk, source, sink),
    }
}
