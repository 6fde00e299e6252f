//! The frozen cars of a space, each as its page spells it.

ghost use Rattle.std.specs.Prelude.{◌≡◌};
ghost use Rattle.std.specs.FinMap.{get};
ghost use Rattle.pm_saving.specs.Progress.{slots_of};
ghost use Rattle.pm_save.specs.Frozen.{frozen_in};

use crate::writer::{CarPage, Frozen, spell};
use pm_snap::Table;
use pm_space::Held;
use pm_types::{NoMemory, Slot};
use std::alloc::Global;

/// The slots of the car of this number, as it was frozen; none where there is no such car.
fn slots_in(cars: &Table<Held>, number: u64) -> &[(u32, Slot)]
    ensures { result.now ≡ slots_of (get (frozen_in cars.now) number) }
{
    match cars.frozen(number) {
        Some(held) => held.car.slots(),
        None => &[],
    }
}

/// The cars of a space, as they were frozen.
#[derive(Drop)]
pub(crate) struct SpaceCars<'a> {
    /// Its cars.
    pub(crate) cars: &'a Table<Held>,
}

impl<'a> Frozen for SpaceCars<'a> {
    ghost cars = { λ it. frozen_in it.cars.now };

    /// The page of the car of this number, as it was frozen.
    fn page(&self, alloc: Global, number: u64) -> Result<CarPage, NoMemory> {
        let page = spell(alloc, number, slots_in(self.cars, number))?;
        Ok(page)
    }
}
