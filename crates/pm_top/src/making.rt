//! Making a store.
ghost use Rattle.std.specs.Prelude.{◌≡◌};
ghost use Rattle.pm_runs.specs.Ends.Ends.{status_of, not_made};
ghost use Rattle.pm_runs.specs.Ends.Causes.{ShowsCauses};
ghost use Rattle.pm_top.specs.Commands.{MakesStore};

use pm_disk::Disk;
use pm_io::{Sink, Source};
use pm_runs::{Alone, Detail, end_unopened};
use pm_shadow::init;
use pm_types::InitFault;
use std::alloc::Global;

/// How the program ends where no store is made.
pub(crate) fn not_made(fault: InitFault) -> Detail
    ensures { result ≡ not_made fault }
{
    match fault {
        InitFault::NotEmpty(bytes) => Detail::NotEmpty(bytes),
        InitFault::Disk { before, after } => Detail::Device {
            before,
            after,
            opened: false,
        },
        InitFault::Memory(refused) => Detail::Memory {
            opened: false,
            refused,
        },
    }
}

/// Makes a store on the disk, where that is empty.
pub(crate) fn make_store<D: Disk, S: Source, K: Sink>(
    alloc: Global,
    mut disk: D,
    source: S,
    sink: K,
) -> Alone<D, S, K>
    ensures status { result.status ≡ status_of result.detail }
    ensures causes { ShowsCauses D.Disk S.Source K.Sink disk source sink result }
    ensures makes { MakesStore D.Disk disk source sink result }
{
    match init(alloc, &mut disk) {
        Ok(()) => end_unopened(alloc, Detail::Fine, disk, source, sink),
        Err(fault) => end_unopened(alloc, not_made(fault), disk, source, sink),
    }
}
