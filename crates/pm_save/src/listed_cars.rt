//! Which cars and roots a copy lists that begins.

ghost use Rattle.std.specs.Prelude.{◌≡◌, Some, IsSome, IsSomeAnd, IfOk, OnOk};
ghost use Rattle.std.specs.List.{flat_map};
ghost use Rattle.pm_trains.specs.Trains.{cars_at, train_of};
ghost use Rattle.pm_copies.specs.Listed.{listed, listed_car};
ghost use Rattle.pm_space.specs.Shown.{view};
ghost use Rattle.pm_save.specs.Writer.Planned.{IsIndex, IsPlanned, PlansOn};

use crate::clean::{index_of, place_of};
use crate::writer::PlacedCar;
use pm_graphs::settled::PackedPage;
use pm_space::{Parts, is_aside};
use pm_trains::a_car_is_found_where_it_stands;
use pm_types::NoMemory;
use std::alloc::Global;
use std::collections::BTreeMap;

/// Puts a car that is in this train behind those of the list, unless it is set aside.
fn plan_car<F: Drop>(
    parts: &Parts<F>,
    settled: &[PackedPage],
    index: &BTreeMap<u64, usize>,
    train: u64,
    number: u64,
    cars: &mut Vec<PlacedCar>,
) -> Result<(), NoMemory>
    requires index { IsIndex settled.now index.now }
    requires train { train_of parts.now.trains.trains number ≡ Some train }
    ensures { OnOk result (PlansOn settled.now (listed_car (view parts.now) train number)
        cars.old.items cars.new.items) }
{
    if is_aside(&parts.trains, parts.phase, number) {
        return Ok(());
    }
    match parts.cars.get(number) {
        Some(held) => {
            let place = place_of(settled, index, number, &held.car);
            cars.push(PlacedCar {
                train,
                number,
                place,
            })?;
            Ok(())
        }
        None => Ok(()),
    }
}

/// Puts the cars of this train that are not set aside behind those of the list.
fn plan_train<F: Drop>(
    parts: &Parts<F>,
    settled: &[PackedPage],
    index: &BTreeMap<u64, usize>,
    train: u64,
    cars: &mut Vec<PlacedCar>,
) -> Result<(), NoMemory>
    requires index { IsIndex settled.now index.now }
    requires train { IsSome (cars_at parts.now.trains.trains train) }
    ensures { OnOk result (IsSomeAnd (cars_at parts.now.trains.trains train)
        (λ numbers. PlansOn settled.now (flat_map (listed_car (view parts.now) train) numbers)
        cars.old.items cars.new.items)) }
{
    parts.trains.sound();
    a_car_is_found_where_it_stands();
    let numbers = parts.trains.cars(train);
    for number in numbers {
        plan_car(parts, settled, index, train, *number, cars)?;
    }
    Ok(())
}

/// The cars that a copy of the space lists: those of each train that are not set aside, the oldest train first.
pub(crate) fn plan_cars<F: Drop>(
    alloc: Global,
    parts: &Parts<F>,
    settled: &[PackedPage],
) -> Result<Vec<PlacedCar>, NoMemory>
    ensures { IfOk result (λ cars. IsPlanned settled.now (listed (view parts.now)) cars.items) }
{
    parts.trains.sound();
    let index = index_of(alloc, settled)?;
    let mut cars = Vec::new(alloc);
    for place in 0..parts.trains.len() {
        let train = parts.trains.nth(place);
        plan_train(parts, settled, &index, train, &mut cars)?;
    }
    Ok(cars)
}
