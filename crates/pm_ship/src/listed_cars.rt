//! Cars that a store lists, as the cars of a copy.
ghost use Rattle.std.specs.Prelude.{◌≡◌, IfOk};
ghost use Rattle.pm_ship.specs.Cars.{cars_kept};

use crate::index::index_of;
use pm_image::Settled;
use pm_save::progress::{CarPage, Frozen, spell};
use pm_types::{NoMemory, Slot};
use std::alloc::Global;
use std::collections::BTreeMap;
use std::marker::Model;

/// Cars as their pages spell them, found by their numbers through a map that is made once. They are seen as the list of
/// them.
#[derive(Drop)]
pub struct ListedCars {
    cars: Settled,
    places: BTreeMap<u64, usize>,
}

impl Model for ListedCars {
    ghost use Rattle.std.specs.Prelude.{List};
    ghost use Rattle.pm_image.specs.declared.settled.KeptPage.{KeptPage};
    ghost use Rattle.pm_save.specs.Writer.Planned.{IsIndex};
    ghost use Rattle.pm_ship.specs.Cars.{AreFoundAlone};

    ghost Value = { List KeptPage };

    ghost view = { λ it. it.cars };

    ghost invariant = { λ it. AreFoundAlone it.cars × IsIndex it.cars it.places };
}

impl ListedCars {
    ghost use Rattle.std.specs.Prelude.{◌≡◌, IfOk};
    ghost use Rattle.std.specs.FinMap.{get};
    ghost use Rattle.pm_saving.specs.Progress.{slots_of};
    ghost use Rattle.pm_ship.specs.Cars.{AreFoundAlone, cars_kept};

    /// These cars, each of which is found by its number as it is. It takes a map of their numbers beside them.
    pub fn new(alloc: Global, cars: Settled) -> Result<ListedCars, NoMemory>
        requires { AreFoundAlone cars }
        ensures { IfOk result (λ listed. listed ≡ cars) }
    {
        let places = index_of(alloc, cars.as_slice())?;
        Ok(ListedCars { cars, places })
    }

    /// The slots of the car of this number, none where there is no such car.
    fn slots_in(&self, number: u64) -> &[(u32, Slot)]
        ensures { result.now ≡ slots_of (get (cars_kept self.now) number) }
    {
        match self.places.get(&number) {
            Some(place) => {
                let car = &self.cars.as_slice()[*place];
                car.image.slots.as_slice()
            }
            None => &[],
        }
    }
}

impl Frozen for ListedCars {
    ghost cars = { cars_kept };

    /// The page of the car of this number.
    fn page(&self, alloc: Global, number: u64) -> Result<CarPage, NoMemory> {
        let page = spell(alloc, number, self.slots_in(number))?;
        Ok(page)
    }
}
