//! How the copy of a dump begins.
ghost use Rattle.std.specs.Prelude.{◌≡◌, ◌<◌, ◌^◌, IfOk};
ghost use Rattle.pm_restore.specs.Restored.{open_cars};

use pm_save::progress::{Place, PlacedCar};
use pm_types::NoMemory;
use std::alloc::Global;

/// So many cars, from number 1 on, that are still to be written.
pub(crate) fn unwritten(alloc: Global, count: usize) -> Result<Vec<PlacedCar>, NoMemory>
    ensures cars { IfOk result (λ cars. cars.items ≡ open_cars 1 count) }
    ensures few { IfOk result (λ _. count < 2 ^ 64) }
{
    let mut cars = Vec::with_capacity(alloc, count)?;
    for index in 0..count {
        cars.push(PlacedCar {
            train: 1,
            number: index as u64 + 1,
            place: Place::Unwritten,
        })?;
    }
    Ok(cars)
}
