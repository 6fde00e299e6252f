//! Making an event of the collector.

ghost use Rattle.std.specs.Prelude.{◌≡◌, ◌<◌, ◌^◌, IfOk, OnErr, OnOk};

use crate::works::works::Works;
use pm_disk::Disk;
use pm_reclaim::collect_one;
use pm_types::{NoMemory, Step};
use std::alloc::Global;

impl<D: Disk, F: Fn(&[u64]) -> usize + Drop> Works<D, F> {
    ghost use Rattle.pm_place.specs.Choosers.{IsChooser};
    ghost use Rattle.pm_view.specs.Events.{next_row};
    ghost use Rattle.pm_evac.specs.Steps.{IsMade, KeepsWorlds, TakesMemory};
    ghost use Rattle.pm_engine.specs.Works.Working.{CollectsOn, IsLeft, IsTiedIn, place_in, room_in, view_in};

    /// The next event of the collector, whichever it is. Want of memory is answered only of an event that may take
    /// memory; after it all is as it was.
    pub fn collect(&mut self, alloc: Global) -> Result<Step, NoMemory>
        requires chooser { IsChooser F.Fn (place_in self.old) }
        requires tied { IsTiedIn self.old }
        ensures event { IfOk result (IsMade F.Fn (place_in self.old) (view_in self.old) (view_in self.new)) }
        // The count of completed collections is a number of 64 bits, at which it stands still.
        ensures counted { (view_in self.old).completed < 2 ^ 64 }
        ensures worlds { KeepsWorlds (view_in self.old) (view_in self.new) }
        ensures collects { OnOk result (CollectsOn self.old self.new) }
        ensures tied { IsTiedIn self.new }
        ensures err { OnErr result (IsLeft self.old self.new) }
        ensures short { OnErr result (TakesMemory (next_row (view_in self.old))) }
        ensures pages { self.new.pages ≡ self.old.pages }
        ensures place { place_in self.new ≡ place_in self.old }
        ensures room { room_in self.new ≡ room_in self.old }
    {
        let _completed = self.space.completed();
        let step = collect_one(&mut self.space, alloc)?;
        self.events = self.events.saturating_add(1);
        self.steps = self.steps.saturating_add(1);
        Ok(step)
    }
}
