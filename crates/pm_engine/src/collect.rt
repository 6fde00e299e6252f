//! Events of the collector.

ghost use Rattle.std.specs.Prelude.{◌≡◌, None};

use crate::{Engine, Unmade};
use pm_disk::Disk;
use pm_types::{EngineFault, Step};
use std::alloc::Global;

impl<D: Disk, F: Fn(&[u64]) -> usize + Drop> Engine<D, F> {
    ghost use Rattle.pm_place.specs.Choosers.{IsChooser};
    ghost use Rattle.pm_engine.specs.Shown.{KeepsStart, chooser, serving};
    ghost use Rattle.pm_engine.specs.Calls.{AnswersCollect};

    /// Makes the next event of the collector, whichever it is, and answers what it did: `Nothing` where no car stands. The
    /// world stays: no reply is another for it. The disk is not called.
    ///
    /// # Errors
    ///
    /// `Memory`: nothing has changed. `Reopen` where an earlier call answered `Disk`, with the count then.
    pub fn collect(&mut self, alloc: Global) -> Result<Step, EngineFault>
        requires chooser { IsChooser F.Fn (chooser self.old) }
        ensures call { AnswersCollect F.Fn self.old self.new result }
        ensures start { KeepsStart self.old self.new }
    {
        match self.stopped {
            Some(count) => Err(EngineFault::Reopen { count }),
            None => self.collect_running(alloc),
        }
    }

    /// The same, while no call has answered that the disk failed.
    fn collect_running(&mut self, alloc: Global) -> Result<Step, EngineFault>
        requires chooser { IsChooser F.Fn (chooser self.old) }
        requires running { (serving self.old).stopped ≡ None }
        ensures call { AnswersCollect F.Fn self.old self.new result }
        ensures start { KeepsStart self.old self.new }
    {
        match self.works.collect(alloc) {
            Ok(step) => Ok(step),
            Err(refused) => {
                self.unmade = Some(Unmade::OfCollector);
                Err(EngineFault::Memory(refused))
            }
        }
    }
}
