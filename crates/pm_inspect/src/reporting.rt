ghost use Rattle.std.specs.Prelude.{◌≡◌, ◌++◌, IfOk, OnOk, Some, IsSome};
ghost use Rattle.std.specs.List.{flat_map};
ghost use Rattle.pm_trains.specs.Trains.{cars_at};
ghost use Rattle.pm_space.specs.Shown.{view};
ghost use Rattle.pm_inspect.specs.Report.{store_line, line_of_car, car_line, trains_text, total_line, report_text};
ghost use Rattle.pm_inspect.specs.Report.{EndsWithTrain};

use crate::counting::{car_count, live_total, queued, remembered};
use crate::lines::append_line;
use pm_cars::Car;
use pm_space::{Parts, Space};
use pm_types::NoMemory;
use std::alloc::Global;

// Appends the line of the store.
fn append_store<F>(out: &mut Vec<u8>, parts: &Parts<F>, epoch: u32) -> Result<(), NoMemory>
    ensures { OnOk result (out.new.items ≡ out.old.items ++ store_line epoch (view parts.now)) }
{
    let columns = [epoch as u64, parts.next, parts.roots.len()];
    append_line(out, b"store", &columns)
}

// Appends the line of a car that stands.
fn append_standing<F>(
    out: &mut Vec<u8>,
    parts: &Parts<F>,
    number: u64,
    car: &Car,
) -> Result<(), NoMemory>
    ensures { OnOk result (out.new.items ≡ out.old.items ++ line_of_car (view parts.now) number (Some car.now.car)) }
{
    let live = car.live() as u64;
    let moved = car.moved() as u64;
    let used = car.used() as u64;
    let remembered = remembered(parts, number);
    let queued = queued(parts, number);
    let columns = [number, live, moved, used, remembered, queued];
    append_line(out, b"car", &columns)
}

// Appends the line of a car, where it stands.
fn append_car<F>(out: &mut Vec<u8>, parts: &Parts<F>, number: u64) -> Result<(), NoMemory>
    ensures { OnOk result (out.new.items ≡ out.old.items ++ car_line (view parts.now) number) }
{
    match parts.cars.get(number) {
        Some(held) => append_standing(out, parts, number, &held.car),
        None => Ok(()),
    }
}

// Appends the lines of cars.
fn append_cars<F>(out: &mut Vec<u8>, parts: &Parts<F>, cars: &[u64]) -> Result<(), NoMemory>
    ensures { OnOk result (out.new.items ≡ out.old.items ++ flat_map (car_line (view parts.now)) cars.now) }
{
    for car in cars {
        append_car(out, parts, *car)?;
    }
    Ok(())
}

// Appends the line of a train, and those of its cars.
fn append_train<F>(out: &mut Vec<u8>, parts: &Parts<F>, train: u64) -> Result<(), NoMemory>
    requires { IsSome (cars_at parts.now.trains.trains train) }
    ensures { OnOk result (EndsWithTrain (view parts.now) train out.old.items out.new.items) }
{
    let cars = parts.trains.cars(train);
    let columns = [train, cars.len() as u64];
    append_line(out, b"train", &columns)?;
    append_cars(out, parts, cars)
}

// Appends the lines of all trains, the oldest first.
fn append_trains<F>(out: &mut Vec<u8>, parts: &Parts<F>) -> Result<(), NoMemory>
    ensures { OnOk result (out.new.items ≡ out.old.items ++ trains_text (view parts.now)) }
{
    parts.trains.sound();
    for place in 0..parts.trains.len() {
        let train = parts.trains.nth(place);
        append_train(out, parts, train)?;
    }
    Ok(())
}

// Appends the line of all together.
fn append_total<F>(out: &mut Vec<u8>, parts: &Parts<F>) -> Result<(), NoMemory>
    ensures { OnOk result (out.new.items ≡ out.old.items ++ total_line (view parts.now)) }
{
    let columns = [parts.trains.len(), car_count(parts), live_total(parts)];
    append_line(out, b"total", &columns)
}

/// The report of a space whose last settled copy has this number. It looks at each car twice, and at no object.
pub fn report<F>(alloc: Global, space: &Space<F>, epoch: u32) -> Result<Vec<u8>, NoMemory>
    ensures { IfOk result (λ text. text.items ≡ report_text (view space.now.parts) epoch) }
{
    let mut out = Vec::new(alloc);
    append_store(&mut out, &space.parts, epoch)?;
    append_trains(&mut out, &space.parts)?;
    append_total(&mut out, &space.parts)?;
    Ok(out)
}
