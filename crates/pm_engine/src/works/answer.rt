//! The answer to each command of a client: the dispatch of commands.

ghost use Rattle.std.specs.Prelude.{◌≡◌, ◌<◌, IfOk, OnErr, true, false};

use crate::works::works::Works;
use pm_disk::Disk;
use pm_save::SaveFault;
use pm_types::{Cmd, NoMemory, Reply};
use std::alloc::Global;

impl<D: Disk, F: Drop> Works<D, F> {
    ghost use Rattle.pm_types.specs.declared.limits.TheConstants.{CLIENTS};
    ghost use Rattle.pm_save.specs.Progress.Answers.{UnlessDisk};
    ghost use Rattle.pm_save.specs.Writer.Settling.{IsCausedBy, settling_syncs, settling_writes};
    ghost use Rattle.pm_model.specs.Frames.{is_settle};
    ghost use Rattle.pm_engine.specs.Works.Working.{Answers, FailsSo, IsLeft, IsTiedIn, LeavesDisk, MayLeave, StaysStill, place_in, saving_in, state_in};

    /// Answers a command that calls no disk: every one but `settle`. After want of memory all is as it was.
    fn answer_still(&mut self, alloc: Global, client: u32, cmd: Cmd) -> Result<Reply, NoMemory>
        requires client { client < CLIENTS }
        requires other { is_settle cmd ≡ false }
        requires tied { IsTiedIn self.old }
        ensures answers { IfOk result (Answers client cmd self.old self.new) }
        ensures tied { IsTiedIn self.new }
        ensures err { OnErr result (IsLeft self.old self.new) }
        ensures still { StaysStill self.old self.new }
        ensures place { place_in self.new ≡ place_in self.old }
    {
        match cmd {
            Cmd::Save => self.save(alloc, client),
            Cmd::Unsave => self.unsave(client),
            Cmd::Watch => self.watch(client),
            _ => self.act(alloc, client, cmd),
        }
    }

    /// Answers a command of a client. Only `settle` calls the disk.
    ///
    /// # Errors
    ///
    /// `Disk`, for `settle` alone, where the disk failed; `Memory`.
    pub fn answer(&mut self, alloc: Global, client: u32, cmd: Cmd) -> Result<Reply, SaveFault>
        requires client { client < CLIENTS }
        requires tied { IsTiedIn self.old }
        ensures answers { IfOk result (Answers client cmd self.old self.new) }
        ensures tied { UnlessDisk result (IsTiedIn self.new) }
        ensures fails { FailsSo (is_settle cmd) self.old self.new result }
        ensures settle { is_settle cmd ≡ true → MayLeave self.old self.new result }
        ensures other { is_settle cmd ≡ false → LeavesDisk self.old self.new result }
        ensures causes { IsCausedBy (settling_writes (saving_in self.old) (state_in self.old))
            (settling_syncs (state_in self.old)) self.old.pages self.new.pages result }
        ensures place { place_in self.new ≡ place_in self.old }
    {
        match cmd {
            Cmd::Settle => self.settle(alloc, client),
            _ => Ok(self.answer_still(alloc, client, cmd)?),
        }
    }
}
