//! Sweeps.

ghost use Rattle.std.specs.Prelude.{◌≡◌, None};

use crate::engine::YoungEngine;
use crate::escape::carry_reached;
use crate::halt::{Halt, HaltCause};
use pm_disk::Disk;
use pm_types::EngineFault;
use std::alloc::Global;

impl<D: Disk, F: Drop> YoungEngine<D, F> {
    ghost use Rattle.pm_young.specs.Calls.{Sweeps};
    ghost use Rattle.pm_young.specs.Seen.{KeepsStart, halt_in};

    /// Empties the nursery: the young objects that the world's names and registers reach come into cars, in the order
    /// of their identities, and all others are dropped. The world stays: no reply is another for it. The disk is not
    /// called.
    ///
    /// # Errors
    ///
    /// `Memory`: journal and copies are as they were; what was reached may have come into cars in part, and nothing is
    /// young. `Reopen` where an earlier call answered `Disk` or `Memory`, with the disk's count then.
    pub fn sweep(&mut self, alloc: Global) -> Result<(), EngineFault>
        ensures call { Sweeps self.old self.new result }
        ensures start { KeepsStart self.old self.new }
    {
        match self.halted {
            Some(halt) => Err(EngineFault::Reopen { count: halt.count }),
            None => self.sweep_running(alloc),
        }
    }

    // The same, while every call is answered.
    fn sweep_running(&mut self, alloc: Global) -> Result<(), EngineFault>
        requires running { halt_in self.old ≡ None }
        ensures call { Sweeps self.old self.new result }
        ensures start { KeepsStart self.old self.new }
    {
        self.nursery.sound();
        let carried = carry_reached(
            &mut self.works.space,
            alloc,
            &self.nursery,
            &mut self.entered,
        );
        self.nursery.drop_all();
        match carried {
            Ok(()) => {
                self.works.events = self.works.events.saturating_add(1);
                Ok(())
            }
            Err(refused) => {
                self.halted = Some(Halt {
                    cause: HaltCause::Memory,
                    count: self.works.pages.faults(),
                });
                Err(EngineFault::Memory(refused))
            }
        }
    }
}
