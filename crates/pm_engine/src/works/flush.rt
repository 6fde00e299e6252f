//! Writing the next page of the copy in progress.

ghost use Rattle.std.specs.Prelude.{◌≡◌, ◌<◌, None, IfOk, OnErr};

use crate::works::works::Works;
use pm_disk::Disk;
use pm_save::SaveFault;
use pm_types::Flushed;
use std::alloc::Global;

impl<D: Disk, F: Drop> Works<D, F> {
    ghost use Rattle.pm_saving.specs.Paging.{left_of};
    ghost use Rattle.pm_save.specs.Progress.Answers.{OnMemory, Spares, UnlessDisk};
    ghost use Rattle.pm_save.specs.Writer.Settling.{IsCausedBy};
    ghost use Rattle.pm_engine.specs.Works.Working.{FlushesOn, IsAsItWas, IsTiedIn, LastsIn, Rests, disk_at, place_in, room_in, saving_in, state_in};

    /// Writes the next page of the copy in progress, if one is left.
    ///
    /// # Errors
    ///
    /// `Disk` where the disk failed; `Memory`, after which nothing has changed.
    pub fn flush(&mut self, alloc: Global) -> Result<Flushed, SaveFault>
        requires tied { IsTiedIn self.old }
        ensures flushes { IfOk result (FlushesOn self.old self.new) }
        ensures tied { UnlessDisk result (IsTiedIn self.new) }
        ensures rests { OnErr result (Rests self.old self.new) }
        ensures lasts { UnlessDisk result (LastsIn self.old self.new) }
        ensures spares { Spares D.contents D.moment D.since (state_in self.old) (disk_at self.old) (disk_at self.new) }
        // One write at most is made, and no sync.
        ensures causes { IsCausedBy 1 0 self.old.pages self.new.pages result }
        ensures memory { OnMemory result (IsAsItWas self.old self.new) }
        ensures fault { OnErr result (0 < left_of (saving_in self.old).progress) }
        ensures idle { (saving_in self.old).progress ≡ None → disk_at self.new ≡ disk_at self.old }
        ensures place { place_in self.new ≡ place_in self.old }
        ensures room { room_in self.new ≡ room_in self.old }
    {
        if self.saver.number().is_none() {
            self.events = self.events.saturating_add(1);
            return Ok(Flushed::AllFlushed);
        }
        let flushed = self.saver.flush_one(alloc, &self.space, &mut self.pages)?;
        self.events = self.events.saturating_add(1);
        Ok(flushed)
    }
}
