//! Cars with the map of the slots that they list.

ghost use Rattle.std.specs.Prelude.{◌≡◌, IfOk};
ghost use Rattle.pm_graphs.specs.Linking.{lead_cars};

use crate::leads::{Leads, lead_cars};
use pm_image::{KeptPage, Settled};
use pm_types::NoMemory;
use std::alloc::Global;
use std::marker::Model;

/// Cars, and the map of the slots that they list. They are seen as a list of `KeptPage`s; the map is of these cars.
#[derive(Drop)]
pub struct MappedCars {
    cars: Settled,
    leads: Leads,
}

impl Model for MappedCars {
    ghost use Rattle.std.specs.Prelude.{List, ◌≡◌};
    ghost use Rattle.std.specs.Coded.{coded_list};
    ghost use Rattle.pm_image.specs.declared.settled.KeptPage.{KeptPage};
    ghost use Rattle.pm_image.specs.contracts.settled.KeptPage as kept_page;
    ghost use Rattle.pm_graphs.specs.Linking.{lead_cars};

    ghost Value = { List KeptPage };

    ghost coded = { coded_list kept_page.the_row.coded };

    ghost view = { λ it. it.cars };

    ghost invariant = { λ it. it.leads ≡ lead_cars it.cars };
}

impl MappedCars {
    /// These cars, with their map.
    pub(crate) fn of_cars(alloc: Global, cars: Settled) -> Result<MappedCars, NoMemory>
        ensures { IfOk result (λ mapped. mapped ≡ cars) }
    {
        let leads = lead_cars(alloc, cars.as_slice())?;
        Ok(MappedCars { cars, leads })
    }

    /// The cars, lent.
    pub fn as_slice(&self) -> &[KeptPage]
        ensures { result.now ≡ self.now }
    {
        self.cars.as_slice()
    }

    /// Their map, lent.
    pub(crate) fn leads(&self) -> &Leads
        ensures { result.now ≡ lead_cars self.now }
    {
        &self.leads
    }

    /// The cars and their map.
    pub fn into_parts(self) -> (Settled, Leads)
        ensures cars { result.0 ≡ self }
        ensures leads { result.1 ≡ lead_cars self }
    {
        (self.cars, self.leads)
    }
}
