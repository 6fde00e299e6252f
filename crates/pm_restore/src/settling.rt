//! Settling a dump as copy 1 of a new store.
ghost use Rattle.std.specs.Prelude.{OnOk, ◌+◌};
ghost use Rattle.pm_disk.specs.Made.{MadeAtMost};
ghost use Rattle.pm_dump.specs.Sound.{IsSoundDump};
ghost use Rattle.pm_saving.specs.Paging.{left};
ghost use Rattle.pm_shadow.specs.Pages.{disk_of, state};
ghost use Rattle.pm_save.specs.Progress.Answers.{HasSaveCause, OnMemory, TellsOn};
ghost use Rattle.pm_restore.specs.Restored.{IsNewStore, IsRestored, LeavesEither, LeavesEmpty, dump_progress};

use crate::PackedDump;
use pm_disk::Disk;
use pm_dump::Dump;
use pm_save::progress::SaveFault;
use pm_shadow::Pages;
use std::alloc::Global;

/// Settles a dump as copy 1 of a store that was just made: each car is made from its objects when its page is written,
/// and let go then. Beside the dump stand the cars that were written, packed, and 8 bytes a car for its first place.
///
/// # Errors
///
/// `Disk` where the disk failed, and `Memory` where memory ran out before all of the copy was written: copy 0 stands
/// then.
pub fn settle_dump<D: Disk>(
    alloc: Global,
    pages: &mut Pages<D>,
    dump: &Dump,
) -> Result<(), SaveFault>
    requires sound { IsSoundDump dump.now }
    requires new { IsNewStore (state pages.old) (D.contents (disk_of pages.old)) }
    ensures restored { OnOk result (IsRestored dump.now pages.old pages.new) }
    // Since the call began an image stands for the empty copy 0, or for copy 1;
    ensures leaves { LeavesEither dump.now pages.old pages.new }
    // and where memory ran out for copy 0.
    ensures memory { OnMemory result (LeavesEmpty pages.old pages.new) }
    ensures told { TellsOn (D.contents (disk_of pages.old)) (D.contents (disk_of pages.new)) }
    // Whatever is answered, no more calls are made than settling takes, and none reads past the end.
    ensures most { MadeAtMost (left (dump_progress dump.now) + 2) 2 (D.made (disk_of pages.old)) (D.made (disk_of pages.new)) }
    ensures cause { HasSaveCause (D.count (disk_of pages.old)) (D.count (disk_of pages.new)) result }
{
    let packed = PackedDump::new(alloc, dump)?;
    let mut writer = packed.begin(alloc)?;
    writer.settle_from(alloc, &packed, pages)?;
    Ok(())
}
