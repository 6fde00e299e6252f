ghost use Rattle.std.specs.Prelude.{◌≡◌, ◌<◌, ℕ, true, [], None, IsSome, IfOk, OnErr};
ghost use Rattle.std.specs.FinMap as map;
ghost use Rattle.pm_snap.specs.Snapped.{with_value, without, is_ready, IsLowestUnused};
ghost use Rattle.pm_trains.specs.Trains.{cars_at, youngest, HasCar};
ghost use Rattle.pm_view.specs.Rows.{with_car, IsVacant};
ghost use Rattle.pm_space.specs.Linked.{sets_of, queues_of, HasRoom, KeepsRoom};
ghost use Rattle.pm_space.specs.Shown.{view, empty_held, IsLinked, IsPrepared, with_car_in_new_train, KeepsReady, KeepsRest};
ghost use Rattle.pm_trains.specs.declared.trains.TheConstants.{MOST_TRAINS};

use crate::held::Held;
use crate::links::LinkTable;
use crate::parts::Parts;
use pm_cars::Car;
use pm_remset::Remset;
use pm_snap::Table;
use pm_trains::a_new_train_is_the_youngest;
use pm_types::NoMemory;
use std::alloc::Global;

// A car with no slot, and with room for one birth.
fn new_held(alloc: Global, number: u64) -> Result<Held, NoMemory>
    ensures { IfOk result (λ held. held ≡ empty_held number) }
{
    let mut car = Car::new(alloc, number);
    car.reserve()?;
    Ok(Held { car })
}

// Adds an empty car under the lowest number that no car has, with its links: room for one birth, and room in
// its queue for so many changes. It is in no train yet. After want of memory all is as it was.
fn add_car(
    cars: &mut Table<Held>,
    links: &mut LinkTable,
    alloc: Global,
    room: u64,
) -> Result<u64, NoMemory>
    requires { (car : ℕ) → map.get cars.old.current car ≡ None → map.get links.old car ≡ None }
    ensures lowest { IfOk result (IsLowestUnused cars.old.current) }
    ensures cars { IfOk result (λ number. cars.new ≡ with_value cars.old number (empty_held number)) }
    ensures sets { IfOk result (λ number. sets_of links.new ≡ map.insert (sets_of links.old) number map.empty) }
    ensures queues { IfOk result (λ number. queues_of links.new ≡ map.insert (queues_of links.old) number []) }
    ensures room { IfOk result (λ number. HasRoom links.new number room) }
    ensures others { IfOk result (λ number. map.remove links.new number ≡ links.old) }
    ensures err_cars { OnErr result (cars.new ≡ cars.old) }
    ensures err_links { OnErr result (links.new ≡ links.old) }
{
    let number = cars.vacant();
    let held = new_held(alloc, number)?;
    links.add(alloc, number, Remset::new(alloc), room)?;
    match cars.add_at(number, held) {
        Ok(()) => Ok(number),
        Err((_, fault)) => {
            links.remove(number);
            Err(fault)
        }
    }
}

// Takes a car out again, with its links, where that takes no memory.
fn take_out(cars: &mut Table<Held>, links: &mut LinkTable, number: u64)
    requires there { IsSome (map.get cars.old.current number) }
    requires ready { is_ready cars.old number ≡ true }
    ensures cars { cars.new ≡ without cars.old number }
    ensures links { links.new ≡ map.remove links.old number }
{
    let Ok(_) = cars.remove(number) else {
        unreachable!()
    };
    links.remove(number);
}

/// Opens a car at the end of a train, under the lowest number that no car has, and answers that number: it
/// has no slot, an empty remembered set and an empty queue. It is ready, and has room for one birth, and its
/// queue for so many changes. Cars that are ready stay so; room that was made before and what is frozen stay.
/// After want of memory all is as it was.
pub fn open_car<F>(
    parts: &mut Parts<F>,
    alloc: Global,
    train: u64,
    room: u64,
) -> Result<u64, NoMemory>
    requires train { IsSome (cars_at parts.old.trains.trains train) }
    requires linked { IsLinked (view parts.old) }
    ensures vacant { IfOk result (IsVacant (view parts.old).cars) }
    ensures ok { IfOk result (λ number. view parts.new ≡ with_car (view parts.old) train number) }
    ensures prepared { IfOk result (λ number. IsPrepared parts.new number room) }
    ensures err { OnErr result (view parts.new ≡ view parts.old) }
    ensures linked { IsLinked (view parts.new) }
    ensures kept { KeepsRoom parts.old.links parts.new.links }
    ensures ready { KeepsReady parts.old.cars parts.new.cars }
    ensures rest { KeepsRest parts.old parts.new }
{
    let number = add_car(&mut parts.cars, &mut parts.links, alloc, room)?;
    match parts.trains.append_car(train, number) {
        Ok(()) => Ok(number),
        Err(fault) => {
            take_out(&mut parts.cars, &mut parts.links, number);
            Err(fault)
        }
    }
}

/// Opens a new train, in which nothing was born, with a car, as `open_car` opens one at the end of a train
/// that stands, and answers the car's number. The youngest train has a car. After want of memory all is as
/// it was.
pub fn open_car_in_new_train<F>(
    parts: &mut Parts<F>,
    alloc: Global,
    room: u64,
) -> Result<u64, NoMemory>
    requires youngest { HasCar parts.old.trains.trains (youngest parts.old.trains.trains) }
    requires small { youngest parts.old.trains.trains < MOST_TRAINS }
    requires linked { IsLinked (view parts.old) }
    ensures vacant { IfOk result (IsVacant (view parts.old).cars) }
    ensures ok { IfOk result (λ number. view parts.new ≡ with_car_in_new_train (view parts.old) number) }
    ensures prepared { IfOk result (λ number. IsPrepared parts.new number room) }
    ensures err { OnErr result (view parts.new ≡ view parts.old) }
    ensures linked { IsLinked (view parts.new) }
    ensures kept { KeepsRoom parts.old.links parts.new.links }
    ensures ready { KeepsReady parts.old.cars parts.new.cars }
    ensures rest { KeepsRest parts.old parts.new }
{
    parts.trains.sound();
    a_new_train_is_the_youngest();
    let number = add_car(&mut parts.cars, &mut parts.links, alloc, room)?;
    match parts.trains.append_new(alloc, number) {
        Ok(_) => Ok(number),
        Err(fault) => {
            take_out(&mut parts.cars, &mut parts.links, number);
            Err(fault)
        }
    }
}
