//! Events of the collector.

ghost use Rattle.std.specs.Prelude.{◌≡◌, None};

use crate::engine::YoungEngine;
use crate::halt::{Halt, HaltCause};
use pm_disk::Disk;
use pm_types::{EngineFault, Step};
use std::alloc::Global;

impl<D: Disk, F: Fn(&[u64]) -> usize + Drop> YoungEngine<D, F> {
    ghost use Rattle.pm_place.specs.Choosers.{IsChooser};
    ghost use Rattle.pm_young.specs.Calls.{AnswersYoungCollect};
    ghost use Rattle.pm_young.specs.Seen.{KeepsStart, chooser, halt_in};

    /// Makes the next event of the collector, whichever it is, and answers what it did: `Nothing` where no car stands.
    /// The world stays: no reply is another for it. What is young stays so, and nothing enters. The disk is not called.
    ///
    /// # Errors
    ///
    /// `Memory`: nothing has changed, but every further call answers `Reopen`. `Reopen` where an earlier call answered
    /// `Disk` or `Memory`, with the disk's count then.
    pub fn collect(&mut self, alloc: Global) -> Result<Step, EngineFault>
        requires chooser { IsChooser F.Fn (chooser self.old) }
        ensures call { AnswersYoungCollect F.Fn self.old self.new result }
        ensures start { KeepsStart self.old self.new }
    {
        match self.halted {
            Some(halt) => Err(EngineFault::Reopen { count: halt.count }),
            None => self.collect_running(alloc),
        }
    }

    // The same, while every call is answered.
    fn collect_running(&mut self, alloc: Global) -> Result<Step, EngineFault>
        requires chooser { IsChooser F.Fn (chooser self.old) }
        requires running { halt_in self.old ≡ None }
        ensures call { AnswersYoungCollect F.Fn self.old self.new result }
        ensures start { KeepsStart self.old self.new }
    {
        match self.works.collect(alloc) {
            Ok(step) => Ok(step),
            Err(refused) => {
                self.halted = Some(Halt {
                    cause: HaltCause::Memory,
                    count: self.works.pages.faults(),
                });
                Err(EngineFault::Memory(refused))
            }
        }
    }
}
