//! Writing the next page of the copy in progress.

ghost use Rattle.std.specs.Prelude.{◌≡◌, IfOk, IfSome, IsSome, OnErr};
ghost use Rattle.pm_disk.specs.Disk.{IfTold, LeavesOnly};
ghost use Rattle.pm_shadow.specs.Images.{Holds};
ghost use Rattle.pm_shadow.specs.Pages.{state, disk_of};
ghost use Rattle.pm_saving.specs.Paging.{next_page};
ghost use Rattle.pm_saving.specs.Tied.{HasPage};
ghost use Rattle.pm_save.specs.Progress.Seen.{progress_seen};
ghost use Rattle.pm_save.specs.Progress.Kept.{IsKept};
ghost use Rattle.pm_save.specs.Progress.Answers.{HasSaveCause, Makes, OnMemory, TellsOn};
ghost use Rattle.pm_save.specs.Progress.Putting.{IsReady};
ghost use Rattle.pm_save.specs.Writer.Steps.{IsStep};

use crate::progress::{
    Frozen, InProgress, SaveFault, a_published_copy_is_the_settled_one, find_next, note_written,
    pages_of_a_copy_are_written_in_order, put_page, ready_next,
    the_next_page_is_written_beside_the_current_copy,
};
use crate::writer::Writer;
use pm_disk::Disk;
use pm_graphs::settled::PackedPage;
use pm_shadow::Pages;
use pm_types::Flushed;
use std::alloc::Global;

/// Writes the next page of a copy in progress, where one is left.
fn flush<D: Disk, C: Frozen>(
    alloc: Global,
    settled: &[PackedPage],
    frozen: &C,
    it: &mut InProgress,
    pages: &mut Pages<D>,
) -> Result<Flushed, SaveFault>
    requires kept { IsKept settled.now it.old }
    requires may { IfSome (next_page (C.cars frozen.now) (progress_seen settled.now it.old)) HasPage }
    requires ready { IsReady (state pages.old) settled.now }
    ensures kept { IsKept settled.now it.new }
    ensures step { IfOk result (IsStep (C.cars frozen.now) (progress_seen settled.now it.old)
        (progress_seen settled.now it.new)
        (state pages.old) (state pages.new) (D.contents (disk_of pages.old)) (D.contents (disk_of pages.new))) }
    ensures err { OnErr result (progress_seen settled.now it.new ≡ progress_seen settled.now it.old) }
    ensures memory { OnMemory result ((state pages.new ≡ state pages.old) × (disk_of pages.new ≡ disk_of pages.old)) }
    ensures leaves { IfTold (D.contents (disk_of pages.old)) (λ told. LeavesOnly D.moment D.since
        (disk_of pages.old) (disk_of pages.new) (Holds (state pages.old) told)) }
    ensures told { TellsOn (D.contents (disk_of pages.old)) (D.contents (disk_of pages.new)) }
    ensures cause { HasSaveCause (D.count (disk_of pages.old)) (D.count (disk_of pages.new)) result }
    ensures made { Makes (D.made (disk_of pages.old)) (D.made (disk_of pages.new)) result }
    // A fault comes only where a page is left.
    ensures fault { OnErr result (IsSome (next_page (C.cars frozen.now) (progress_seen settled.now it.old))) }
{
    find_next(it);
    let Some(ready) = ready_next(alloc, settled, frozen, it)? else {
        return Ok(Flushed::AllFlushed);
    };
    let page = put_page(settled, it, pages, &ready.bytes)?;
    note_written(it, ready, page);
    Ok(Flushed::Wrote(page))
}

impl Writer {
    ghost use Rattle.std.specs.Prelude.{◌≡◌, ◌<◌, Some, IfOk, OnErr};
    ghost use Rattle.pm_saving.specs.Paging.{left_of};
    ghost use Rattle.pm_shadow.specs.Pages.{state, disk_of};
    ghost use Rattle.pm_saving.specs.Tied.{IsTied};
    ghost use Rattle.pm_save.specs.Writer.Shown.{writing};
    ghost use Rattle.pm_save.specs.Progress.Answers.{HasSaveCause, IsFlushed, Makes, IsStill, KeepsCopy, OnMemory, Spares, TellsOn, UnlessDisk};

    /// Writes the next page of the copy in progress, whose cars are these, on the lowest page that is free.
    /// `AllFlushed` exactly where nothing of it is left to be written; nothing changed then.
    ///
    /// # Errors
    ///
    /// `Disk` where the disk failed, and `Memory` where memory ran out. After `Memory` all is as it was.
    pub fn flush_from<D: Disk, C: Frozen>(
        &mut self,
        alloc: Global,
        frozen: &C,
        pages: &mut Pages<D>,
    ) -> Result<Flushed, SaveFault>
        requires tied { IsTied (writing self.old) (Some (C.cars frozen.now)) (state pages.old) (D.contents
            (disk_of pages.old)) }
        ensures flushed { IfOk result (IsFlushed (writing self.old) (writing self.new) (C.cars frozen.now)
            (state pages.old) (state pages.new) (D.contents (disk_of pages.old)) (D.contents (disk_of pages.new))) }
        // What holds between calls holds again.
        ensures tied { UnlessDisk result (IsTied (writing self.new) (Some (C.cars frozen.now)) (state pages.new)
            (D.contents (disk_of pages.new))) }
        ensures memory { OnMemory result (IsStill (writing self.old) (writing self.new) (state pages.old)
            (state pages.new)
            (D.contents (disk_of pages.old)) (D.contents (disk_of pages.new))) }
        // The current copy stands where it stood,
        ensures has { UnlessDisk result (KeepsCopy (state pages.old) (state pages.new) (D.contents
            (disk_of pages.old)) (D.contents (disk_of pages.new))) }
        // and a crash at any moment of the call leaves it.
        ensures leaves { Spares D.contents D.moment D.since (state pages.old) (disk_of pages.old) (disk_of pages.new) }
        ensures told { TellsOn (D.contents (disk_of pages.old)) (D.contents (disk_of pages.new)) }
        ensures cause { HasSaveCause (D.count (disk_of pages.old)) (D.count (disk_of pages.new)) result }
        // One write was made for a page, and no read reached past the end of what the disk told.
        ensures made { Makes (D.made (disk_of pages.old)) (D.made (disk_of pages.new)) result }
        // A fault comes only where a page is left, and leaves the copies as they were.
        ensures fault { OnErr result (0 < left_of (writing self.old).progress) }
        ensures err { OnErr result (writing self.new ≡ writing self.old) }
    {
        pages_of_a_copy_are_written_in_order();
        the_next_page_is_written_beside_the_current_copy();
        a_published_copy_is_the_settled_one();
        let Some(it) = &mut self.progress else {
            return Ok(Flushed::AllFlushed);
        };
        flush(alloc, &self.settled, frozen, it, pages)
    }
}
