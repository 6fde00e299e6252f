//! The table of the cars of a space, and what they have beside them.

ghost use Rattle.std.specs.Prelude.{◌≡◌, ◌<◌, [], map, IfOk, OnOk, None};
ghost use Rattle.std.specs.List.{AllByRecursion};
ghost use Rattle.std.specs.FinMap as finite;
ghost use Rattle.pm_copies.specs.Built.{Placed, IsFull, CarsDiffer, built_cars};
ghost use Rattle.pm_space.specs.Shown.{cars_of};
ghost use Rattle.pm_reopen.specs.Rebuild.Lists.{placed_of};
ghost use Rattle.pm_reopen.specs.Rebuild.Linking.{AreLinked};
ghost use Rattle.pm_reopen.specs.Rebuild.Remembering.{Remember};

use crate::rebuild::CarList;
use crate::rebuild::gatherings::Gatherings;
use pm_cars::Car;
use pm_snap::Table;
use pm_space::{Held, LinkTable};
use pm_types::NoMemory;
use std::alloc::Global;

/// A remembered set for each of these cars, in which nothing is remembered yet.
pub(crate) fn gather_cars(alloc: Global, cars: &[(u64, Car)]) -> Result<Gatherings, NoMemory>
    ensures { IfOk result (λ sets. Remember (built_cars (map placed_of cars.now)) sets []) }
{
    let mut sets = Gatherings::expecting(alloc, cars.len());
    let mut left = cars.len();
    while left > 0 {
        left -= 1;
        sets.begin(alloc, cars[left].1.number())?;
    }
    Ok(sets)
}

/// The remembered sets of these cars, made of what they were told, and an empty queue for each.
pub(crate) fn link_cars(
    alloc: Global,
    cars: &[(u64, Car)],
    mut sets: Gatherings,
) -> Result<LinkTable, NoMemory>
    requires differ { CarsDiffer (map placed_of cars.now) }
    ensures { IfOk result (AreLinked (built_cars (map placed_of cars.now)) sets) }
{
    let mut links = LinkTable::expecting(alloc, cars.len());
    let mut left = cars.len();
    while left > 0 {
        left -= 1;
        let number = cars[left].1.number();
        let set = sets.take_set(alloc, number)?;
        links.add(alloc, number, set, 0)?;
    }
    Ok(links)
}

// Puts a car beside the others, under its number.
fn put_car(table: &mut Table<Held>, car: Car) -> Result<(), NoMemory>
    requires from_one { 0 < car.car.number }
    requires is_new { finite.get (cars_of table.old) car.car.number ≡ None }
    ensures cars { OnOk result (cars_of table.new ≡ finite.insert (cars_of table.old) car.car.number car.car) }
    ensures frozen { OnOk result (table.new.frozen ≡ table.old.frozen) }
{
    let number = car.number();
    let added = table.add_at(number, Held { car });
    match added {
        Ok(()) => {}
        Err((_, refused)) => return Err(refused),
    }
    Ok(())
}

/// The table of these cars, each under its number.
pub(crate) fn put_cars(alloc: Global, cars: CarList) -> Result<Table<Held>, NoMemory>
    requires full { AllByRecursion (λ (one : Placed). IsFull one.1) cars }
    requires differ { CarsDiffer cars }
    ensures cars { IfOk result (λ table. cars_of table ≡ built_cars cars) }
    ensures frozen { IfOk result (λ table. table.frozen ≡ None) }
{
    let mut left = cars.into_vec();
    let mut table = Table::expecting(alloc, left.len());
    while let Some((_, car)) = left.pop() {
        put_car(&mut table, car)?;
    }
    Ok(table)
}
