//! A run in the order of the lines: the source is read as a script, and the script is run.
ghost use Rattle.std.specs.Prelude.{◌≡◌};
ghost use Rattle.pm_place.specs.Choosers.{IsChooser};
ghost use Rattle.pm_runs.specs.Ends.Ends.{status_of};
ghost use Rattle.pm_runs.specs.Ends.Causes.{ShowsCauses};
ghost use Rattle.pm_runs.specs.Runs.{RunsScript};

use crate::ends::{Alone, end_unopened, read_source};
use crate::opening::run_lines;
use crate::writes::Writes;
use pm_disk::Disk;
use pm_io::{Sink, Source};
use pm_place::Placement;
use std::alloc::Global;

/// Reads the source to its end, and runs what it held.
pub fn run_source<D: Disk, F: Fn(&[u64]) -> usize + Drop, S: Source, K: Sink>(
    alloc: Global,
    disk: D,
    place: Placement<F>,
    mut source: S,
    sink: K,
) -> Alone<D, S, K>
    requires chooser { IsChooser F.Fn place }
    ensures status { result.status ≡ status_of result.detail }
    ensures runs { RunsScript D.Disk S.Source K.Sink place disk source sink result }
    ensures causes { ShowsCauses D.Disk S.Source K.Sink disk source sink result }
{
    match read_source(alloc, &mut source) {
        Ok(script) => run_lines(
            alloc,
            Writes::Replies,
            script.into_lines(),
            disk,
            place,
            source,
            sink,
        ),
        Err(detail) => end_unopened(alloc, detail, disk, source, sink),
    }
}
