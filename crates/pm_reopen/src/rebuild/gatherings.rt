//! The remembered sets of cars, while they are told.

ghost use Rattle.std.specs.Prelude.{◌≡◌, IfOk, OnOk};
ghost use Rattle.std.specs.Option.{unwrap_or};
ghost use Rattle.std.specs.FinMap as map;
ghost use Rattle.pm_reopen.specs.Rebuild.Remembering.{with_remembered};

use pm_remset::{Gathering, Remset};
use pm_types::{NoMemory, Numbered, RefSource};
use std::alloc::Global;
use std::marker::Model;

/// A remembered set for each car, which is still to be made of what it was told, seen as a finite map from the cars'
/// numbers to the sets.
#[derive(Drop)]
pub(crate) struct Gatherings {
    sets: Numbered<Gathering>,
}

impl Model for Gatherings {
    ghost use Rattle.std.specs.Ordering.{nat_cmp};
    ghost use Rattle.std.specs.FinMap as map;
    ghost use Rattle.std.specs.Coded.{coded_ℕ};
    ghost use Rattle.pm_view.specs.View.{Sources};
    ghost use Rattle.pm_remset.specs.contracts.gathering.Gathering as gathering;

    ghost Value = { map.FinMap nat_cmp Sources };

    ghost coded = { map.code coded_ℕ gathering.the_row.coded };

    ghost view = { λ it. it.sets };
}

impl Gatherings {
    /// No car has a set, and those of so many are to come.
    pub(crate) fn expecting(alloc: Global, many: usize) -> Gatherings
        ensures { result ≡ map.empty }
    {
        Gatherings {
            sets: Numbered::expecting(alloc, many),
        }
    }

    /// The car has a set in which nothing is remembered.
    pub(crate) fn begin(&mut self, alloc: Global, car: u64) -> Result<(), NoMemory>
        ensures { OnOk result (self.new ≡ map.insert self.old car map.empty) }
    {
        self.sets.insert(car, Gathering::new(alloc))?;
        Ok(())
    }

    /// The car's set remembers that the source names this slot of the car, in place of the slot that it named before;
    /// where the car has no set, nothing is done.
    pub(crate) fn remember(
        &mut self,
        car: u64,
        source: RefSource,
        slot: u32,
    ) -> Result<(), NoMemory>
        ensures { OnOk result (self.new ≡ with_remembered self.old car source slot) }
    {
        let Some(set) = self.sets.get_mut(car) else {
            return Ok(());
        };
        set.put(source, slot)
    }

    /// The car's set, which is made now; an empty one where it has none. The car has none from then on.
    pub(crate) fn take_set(&mut self, alloc: Global, car: u64) -> Result<Remset, NoMemory>
        ensures set { IfOk result (λ set. set ≡ unwrap_or (map.get self.old car) map.empty) }
        ensures left { self.new ≡ map.remove self.old car }
    {
        let Some(gathering) = self.sets.remove(car) else {
            return Ok(Remset::new(alloc));
        };
        gathering.into_set(alloc)
    }
}
