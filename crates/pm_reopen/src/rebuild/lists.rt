//! Lists of cars and of roots, of which a space is built.

use pm_cars::Car;
use pm_types::{Addr, Items, Name};
use std::marker::Model;

/// Cars, each after the number of its train, seen as a list. The room for births that a car has is not seen.
#[derive(Drop)]
pub struct CarList {
    items: Vec<(u64, Car)>,
}

impl Model for CarList {
    ghost use Rattle.std.specs.Prelude.{List, map};
    ghost use Rattle.std.specs.Coded.{coded_list, coded×, coded_ℕ};
    ghost use Rattle.pm_cars.specs.Cars.{car_code};
    ghost use Rattle.pm_copies.specs.Built.{Placed};
    ghost use Rattle.pm_reopen.specs.Rebuild.Lists.{placed_of};

    ghost Value = { List Placed };

    ghost coded = { coded_list (coded× coded_ℕ car_code) };

    ghost view = { λ list. map placed_of list.items.items };
}

impl CarList {
    ghost use Rattle.std.specs.Prelude.{◌≡◌, map};
    ghost use Rattle.pm_reopen.specs.Rebuild.Lists.{placed_of};

    /// These cars.
    pub fn from_vec(items: Vec<(u64, Car)>) -> Self
        ensures { result ≡ map placed_of items.items }
    {
        CarList { items }
    }

    /// The cars, lent.
    pub fn as_slice(&self) -> &[(u64, Car)]
        ensures { map placed_of result.now ≡ self.now }
    {
        self.items.as_slice()
    }

    /// The cars, given back.
    pub fn into_vec(self) -> Vec<(u64, Car)>
        ensures { map placed_of result.items ≡ self }
    {
        self.items
    }
}

/// Names, each with the address of its object.
pub type RootList = Items<(Name, Addr)>;
