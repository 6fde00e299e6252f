//! `settle`: making the copy in progress the settled one.

ghost use Rattle.std.specs.Prelude.{◌≡◌, IfOk, true};

use crate::works::works::Works;
use pm_disk::Disk;
use pm_save::SaveFault;
use pm_types::{Cmd, Reply};
use std::alloc::Global;

impl<D: Disk, F: Drop> Works<D, F> {
    ghost use Rattle.pm_save.specs.Progress.Answers.{UnlessDisk};
    ghost use Rattle.pm_save.specs.Writer.Settling.{IsCausedBy, settling_syncs, settling_writes};
    ghost use Rattle.pm_engine.specs.Works.Working.{FailsSo, IsTiedIn, MayLeave, SettlesIt, place_in, saving_in, state_in};

    /// `settle`: the copy in progress is written to its end and published, if there is one. Its entry takes no memory
    /// where there is room for it.
    ///
    /// # Errors
    ///
    /// `Disk` where the disk failed; `Memory`, after which the copy is in progress still.
    pub(crate) fn settle(&mut self, alloc: Global, client: u32) -> Result<Reply, SaveFault>
        requires tied { IsTiedIn self.old }
        ensures settles { IfOk result (SettlesIt client self.old self.new) }
        ensures tied { UnlessDisk result (IsTiedIn self.new) }
        ensures fails { FailsSo true self.old self.new result }
        ensures leaves { MayLeave self.old self.new result }
        ensures causes { IsCausedBy (settling_writes (saving_in self.old) (state_in self.old))
            (settling_syncs (state_in self.old)) self.old.pages self.new.pages result }
        ensures place { place_in self.new ≡ place_in self.old }
    {
        self.pages.keep_the_current_copy();
        self.journal.reserve(1)?;
        if self.saver.number().is_none() {
            self.append(client, Cmd::Settle, Reply::Idle);
            return Ok(Reply::Idle);
        }
        let number = self.saver.settle(alloc, &mut self.space, &mut self.pages)?;
        self.append(client, Cmd::Settle, Reply::Saved(number));
        Ok(Reply::Saved(number))
    }
}
