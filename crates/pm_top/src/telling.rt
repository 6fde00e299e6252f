//! What is told of a store: its report, its dump, or a path in it.
ghost use Rattle.std.specs.Prelude.{◌≡◌};
ghost use Rattle.pm_runs.specs.Ends.Ends.{status_of};
ghost use Rattle.pm_runs.specs.Ends.Causes.{ShowsCauses};
ghost use Rattle.pm_top.specs.Commands.{TellsStore};

use pm_disk::Disk;
use pm_inspect::tell::{Teller, tell_store};
use pm_io::{Sink, Source};
use pm_runs::{Alone, end_unopened, not_opened, write_text};
use std::alloc::Global;

/// Writes what is told of the store on the disk.
pub(crate) fn write_told<D: Disk, S: Source, K: Sink, T: Teller>(
    alloc: Global,
    teller: &T,
    disk: D,
    source: S,
    mut sink: K,
) -> Alone<D, S, K>
    ensures status { result.status ≡ status_of result.detail }
    ensures causes { ShowsCauses D.Disk S.Source K.Sink disk source sink result }
    ensures tells { TellsStore D.Disk K.Sink (T.says teller.now) disk source sink result }
{
    let (disk, told) = tell_store(alloc, disk, teller);
    let detail = match told {
        Ok(text) => write_text(&mut sink, text.as_slice()),
        Err(fault) => not_opened(fault),
    };
    end_unopened(alloc, detail, disk, source, sink)
}
