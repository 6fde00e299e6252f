ghost use Rattle.std.specs.Prelude.{◌≡◌, ◌≤◌, ◌<◌, IsSome, IfOk, OnOk, OnErr};
ghost use Rattle.std.specs.FinMap.{get};
ghost use Rattle.pm_trains.specs.declared.trains.TheConstants.{BIRTHS};
ghost use Rattle.pm_trains.specs.Trains.{HasCar, youngest};
ghost use Rattle.pm_view.specs.Rows.{with_open_train};
ghost use Rattle.pm_space.specs.Linked.{KeepsRoom};
ghost use Rattle.pm_space.specs.Places.{FitsIn};
ghost use Rattle.pm_space.specs.Shown.{view, IsLinked, IsPrepared, KeepsRest};
ghost use Rattle.pm_mutate.specs.Births.Births.{IsOpenedFor, HasCarWhereFull};
ghost use Rattle.pm_types.specs.declared.limits.TheConstants.{CAR_ROOM};

use pm_space::{Parts, make_room_for_birth, open_car, open_car_in_new_train, tail_for};
use pm_trains::{BIRTHS, MOST_TRAINS, a_new_train_is_the_youngest};
use pm_types::NoMemory;
use std::alloc::Global;

// Prepares a car that stands for a birth: it is ready, with memory for the birth, and its queue has room for a
// change.
fn prepare<F>(parts: &mut Parts<F>, car: u64) -> Result<(), NoMemory>
    requires there { IsSome (get (view parts.old).cars car) }
    ensures view { view parts.new ≡ view parts.old }
    ensures prepared { OnOk result (IsPrepared parts.new car 1) }
    ensures kept { KeepsRoom parts.old.links parts.new.links }
    ensures rest { KeepsRest parts.old parts.new }
{
    parts.links.reserve(car, 1)?;
    make_room_for_birth(&mut parts.cars, car)?;
    Ok(())
}

// The car of the open train in which an object of this room is born: its tail, or a new car.
fn place_in_open_train<F>(parts: &mut Parts<F>, alloc: Global, room: u32) -> Result<u64, NoMemory>
    requires linked { IsLinked (view parts.old) }
    requires small { room ≤ CAR_ROOM }
    ensures place { IfOk result (λ car. IsOpenedFor (view parts.old) room (view parts.new) car) }
    ensures fits { IfOk result (λ car. FitsIn (view parts.new).cars car room) }
    ensures prepared { IfOk result (λ car. IsPrepared parts.new car 1) }
    ensures err { OnErr result (view parts.new ≡ view parts.old) }
    ensures linked { IsLinked (view parts.new) }
    ensures births { parts.new.trains.births ≡ parts.old.trains.births }
    ensures kept { KeepsRoom parts.old.links parts.new.links }
    ensures rest { KeepsRest parts.old parts.new }
{
    // For the proof alone: the number that a new car would get is one that no car has.
    let _number = parts.cars.vacant();
    let train = parts.trains.youngest();
    match tail_for(parts, train, room) {
        Some(car) => {
            prepare(parts, car)?;
            Ok(car)
        }
        None => {
            let car = open_car(parts, alloc, train, 1)?;
            Ok(car)
        }
    }
}

// The car in which an object of this room is born, in a new open train.
fn place_in_new_train<F>(parts: &mut Parts<F>, alloc: Global, room: u32) -> Result<u64, NoMemory>
    requires linked { IsLinked (view parts.old) }
    requires small { room ≤ CAR_ROOM }
    requires full { BIRTHS ≤ parts.old.trains.births }
    requires filled { HasCar parts.old.trains.trains (youngest parts.old.trains.trains) }
    ensures place { IfOk result (λ car. IsOpenedFor (with_open_train (view parts.old)) room (view parts.new) car) }
    ensures fits { IfOk result (λ car. FitsIn (view parts.new).cars car room) }
    ensures prepared { IfOk result (λ car. IsPrepared parts.new car 1) }
    ensures err { OnErr result (view parts.new ≡ view parts.old) }
    ensures linked { IsLinked (view parts.new) }
    ensures births { OnOk result (parts.new.trains.births ≡ 0) }
    ensures kept { KeepsRoom parts.old.links parts.new.links }
    ensures rest { KeepsRest parts.old parts.new }
{
    parts.trains.sound();
    a_new_train_is_the_youngest();
    let youngest = parts.trains.youngest();
    if youngest >= MOST_TRAINS {
        return Err(NoMemory::uncountable(youngest));
    }
    let car = open_car_in_new_train(parts, alloc, 1)?;
    Ok(car)
}

/// The car in which an object of this room, in bytes, is born: the tail of the open train where it has room,
/// and else a new car; in a new open train where 1,024 objects were born in the one before. The car is
/// prepared for the birth. After want of memory all is as it was; it is answered too where the open train's
/// number has reached its bound, 2^62.
pub fn place_for<F>(parts: &mut Parts<F>, alloc: Global, room: u32) -> Result<u64, NoMemory>
    requires linked { IsLinked (view parts.old) }
    requires small { room ≤ CAR_ROOM }
    requires filled { HasCarWhereFull parts.old.trains }
    ensures place { IfOk result (λ car. IsOpenedFor (with_open_train (view parts.old)) room (view parts.new) car) }
    ensures fits { IfOk result (λ car. FitsIn (view parts.new).cars car room) }
    ensures prepared { IfOk result (λ car. IsPrepared parts.new car 1) }
    ensures err { OnErr result (view parts.new ≡ view parts.old) }
    ensures linked { IsLinked (view parts.new) }
    ensures births { OnOk result (parts.new.trains.births < BIRTHS) }
    ensures kept { KeepsRoom parts.old.links parts.new.links }
    ensures rest { KeepsRest parts.old parts.new }
{
    if parts.trains.births() < BIRTHS {
        let car = place_in_open_train(parts, alloc, room)?;
        return Ok(car);
    }
    let car = place_in_new_train(parts, alloc, room)?;
    Ok(car)
}
