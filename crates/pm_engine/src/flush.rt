//! Flush events.

ghost use Rattle.std.specs.Prelude.{◌≡◌, None};

use crate::works::SaveFault;
use crate::{Engine, Unmade};
use pm_disk::Disk;
use pm_types::{EngineFault, Flushed};
use std::alloc::Global;

impl<D: Disk, F: Drop> Engine<D, F> {
    ghost use Rattle.pm_engine.specs.Shown.{KeepsStart, serving};
    ghost use Rattle.pm_engine.specs.Calls.{AnswersFlush};

    /// Writes one page of the copy in progress, if one is left.
    ///
    /// # Errors
    ///
    /// `Memory`: nothing has changed. `Disk`: the disk failed, and the engine is stopped. `Reopen` where an earlier call
    /// answered `Disk`, with the count then.
    pub fn flush(&mut self, alloc: Global) -> Result<Flushed, EngineFault>
        ensures call { AnswersFlush self.old self.new result }
        ensures start { KeepsStart self.old self.new }
    {
        match self.stopped {
            Some(count) => Err(EngineFault::Reopen { count }),
            None => self.flush_running(alloc),
        }
    }

    /// The same, while no call has answered that the disk failed.
    fn flush_running(&mut self, alloc: Global) -> Result<Flushed, EngineFault>
        requires running { (serving self.old).stopped ≡ None }
        ensures call { AnswersFlush self.old self.new result }
        ensures start { KeepsStart self.old self.new }
    {
        let before = self.works.pages.faults();
        match self.works.flush(alloc) {
            Ok(flushed) => Ok(flushed),
            Err(SaveFault::Memory(refused)) => {
                self.unmade = Some(Unmade::OfFlusher);
                Err(EngineFault::Memory(refused))
            }
            Err(SaveFault::Disk) => {
                let after = self.works.pages.faults();
                self.stopped = Some(after);
                Err(EngineFault::Disk { before, after })
            }
        }
    }
}
