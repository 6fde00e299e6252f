//! Flush events.

ghost use Rattle.std.specs.Prelude.{◌≡◌, None};

use crate::engine::YoungEngine;
use crate::halt::{Halt, HaltCause};
use pm_disk::Disk;
use pm_engine::works::SaveFault;
use pm_types::{EngineFault, Flushed};
use std::alloc::Global;

impl<D: Disk, F: Drop> YoungEngine<D, F> {
    ghost use Rattle.pm_young.specs.Calls.{AnswersYoungFlush};
    ghost use Rattle.pm_young.specs.Seen.{KeepsStart, halt_in};

    /// Writes one page of the copy in progress, if one is left. What is young stays so, and nothing enters.
    ///
    /// # Errors
    ///
    /// `Memory`: nothing has changed. `Disk`: the disk failed. After either every further call answers `Reopen`, and so
    /// does this one after an earlier one, with the disk's count then.
    pub fn flush(&mut self, alloc: Global) -> Result<Flushed, EngineFault>
        ensures call { AnswersYoungFlush self.old self.new result }
        ensures start { KeepsStart self.old self.new }
    {
        match self.halted {
            Some(halt) => Err(EngineFault::Reopen { count: halt.count }),
            None => self.flush_running(alloc),
        }
    }

    // The same, while every call is answered.
    fn flush_running(&mut self, alloc: Global) -> Result<Flushed, EngineFault>
        requires running { halt_in self.old ≡ None }
        ensures call { AnswersYoungFlush self.old self.new result }
        ensures start { KeepsStart self.old self.new }
    {
        let before = self.works.pages.faults();
        match self.works.flush(alloc) {
            Ok(flushed) => Ok(flushed),
            Err(SaveFault::Memory(refused)) => {
                let count = self.works.pages.faults();
                self.halted = Some(Halt {
                    cause: HaltCause::Memory,
                    count,
                });
                Err(EngineFault::Memory(refused))
            }
            Err(SaveFault::Disk) => {
                let after = self.works.pages.faults();
                self.halted = Some(Halt {
                    cause: HaltCause::Disk,
                    count: after,
                });
                Err(EngineFault::Disk { before, after })
            }
        }
    }
}
