//! Putting cars into trains.

ghost use Rattle.std.specs.Prelude.{◌≡◌, ◌↔◌, ◌<◌, IsTrue, IsSome, IfOk, OnOk, None, map};
ghost use Rattle.pm_trains.specs.Trains.{HasCar, train_of, youngest};
ghost use Rattle.pm_copies.specs.Built.{CarsDiffer, built_trains};
ghost use Rattle.pm_reopen.specs.Rebuild.Lists.{placed_of};
ghost use Rattle.pm_reopen.specs.Rebuild.Trains.{goes_on, with_kept, closed};

use pm_cars::Car;
use pm_trains::{MOST_TRAINS, Trains, a_new_train_is_the_youngest, an_appended_car_is_the_last};
use pm_types::NoMemory;
use std::alloc::Global;

// A car of this train goes into the train of the one before it, or it is the first.
fn goes_on(last: Option<u64>, train: u64) -> bool
    ensures { result ≡ goes_on last train }
{
    match last {
        Some(last) => last == train,
        None => true,
    }
}

// One more train can be opened.
fn can_open(trains: &Trains) -> bool
    ensures { IsTrue result ↔ (youngest trains.now.trains < MOST_TRAINS) }
{
    trains.youngest() < MOST_TRAINS
}

// Puts a car into the youngest train where it goes on, and else into a new one.
fn put_car(
    alloc: Global,
    trains: &mut Trains,
    last: Option<u64>,
    train: u64,
    car: u64,
) -> Result<(), NoMemory>
    requires has { IsSome last → HasCar trains.old.trains (youngest trains.old.trains) }
    requires is_new { train_of trains.old.trains car ≡ None }
    ensures trains { OnOk result (trains.new ≡ with_kept last (train, car) trains.old) }
    ensures has { OnOk result (HasCar trains.new.trains (youngest trains.new.trains)) }
{
    a_new_train_is_the_youngest();
    an_appended_car_is_the_last();
    if goes_on(last, train) {
        let youngest = trains.youngest();
        return trains.append_car(youngest, car);
    }
    if !can_open(trains) {
        // No list is so long.
        return Err(NoMemory::uncountable(trains.youngest()));
    }
    trains.append_new(alloc, car)?;
    Ok(())
}

// Opens a train behind the last one, if there is one with a car.
fn close(alloc: Global, trains: &mut Trains, last: Option<u64>) -> Result<(), NoMemory>
    requires { IsSome last → HasCar trains.old.trains (youngest trains.old.trains) }
    ensures { OnOk result (trains.new ≡ closed last trains.old) }
{
    if last.is_none() {
        return Ok(());
    }
    if !can_open(trains) {
        // No list is so long.
        return Err(NoMemory::uncountable(trains.youngest()));
    }
    trains.rotate(alloc)?;
    Ok(())
}

/// The trains of these cars: cars of one number that stand side by side are in one train, the trains are numbered from 1
/// in their order, and an open train without a car follows.
pub(crate) fn make_trains(alloc: Global, cars: &[(u64, Car)]) -> Result<Trains, NoMemory>
    requires { CarsDiffer (map placed_of cars.now) }
    ensures { IfOk result (λ trains. trains ≡ built_trains (map placed_of cars.now)) }
{
    let mut trains = Trains::expecting(alloc, cars.len())?;
    let mut last = None;
    for one in cars {
        put_car(alloc, &mut trains, last, one.0, one.1.number())?;
        last = Some(one.0);
    }
    close(alloc, &mut trains, last)?;
    Ok(trains)
}
