ghost use Rattle.std.specs.Prelude.{◌≡◌, ℕ, ◌≤◌, true, IsSome, IsSomeAnd, IfSome, IfOk, OnOk, OnErr};
ghost use Rattle.std.specs.FinMap.{get};
ghost use Rattle.pm_trains.specs.Trains.{cars_at};
ghost use Rattle.pm_snap.specs.Snapped.{is_ready};
ghost use Rattle.pm_types.specs.declared.object.Slot.TheVariants.{Moved};
ghost use Rattle.pm_view.specs.Reading.{object_at};
ghost use Rattle.pm_view.specs.Rows.{place_in, with_slot_at};
ghost use Rattle.pm_space.specs.Linked.{HasRoom};
ghost use Rattle.pm_space.specs.Places.{IsOpened};
ghost use Rattle.pm_space.specs.Shown.{view, cars_of, HasBirthRoom, IsLinked, KeepsReady, KeepsRest};

use pm_snap::Table;
use pm_space::{Held, Parts, make_room_for_birth, open_car};
use pm_types::{Addr, NoMemory, Object};
use std::alloc::Global;

/// The next slot of the car that is given, or the first one of a new car of this number.
pub(crate) fn place_in(cars: &Table<Held>, tail: Option<u64>, number: u64) -> Addr
    ensures { result ≡ place_in (cars_of cars.now) tail number }
{
    let Some(car) = tail else {
        return Addr {
            car: number,
            slot: 0,
        };
    };
    match cars.get(car) {
        Some(held) => Addr {
            car,
            slot: held.car.next_slot(),
        },
        None => Addr { car, slot: 0 },
    }
}

/// Prepares the car that is given for a birth, or else opens one at the end of a train, and answers its number. In the
/// queues there is room as before, for as many changes as are given. After want of memory what is seen is as it was.
pub(crate) fn prepare_place<F>(
    parts: &mut Parts<F>,
    alloc: Global,
    train: u64,
    tail: Option<u64>,
    room: u64,
) -> Result<u64, NoMemory>
    requires train { IsSome (cars_at parts.old.trains.trains train) }
    requires linked { IsLinked (view parts.old) }
    requires tail { IfSome tail (λ car. IsSome (get (view parts.old).cars car)) }
    ensures place { IfOk result (λ car. IsOpened (view parts.old) train tail (view parts.new) car) }
    ensures birth { IfOk result (λ car. HasBirthRoom parts.new.cars car) }
    ensures ready { IfOk result (λ car. is_ready parts.new.cars car ≡ true) }
    ensures others { KeepsReady parts.old.cars parts.new.cars }
    ensures room { OnOk result ((car count : ℕ) → count ≤ room
        → HasRoom parts.old.links car count → HasRoom parts.new.links car count) }
    ensures linked { IsLinked (view parts.new) }
    ensures err { OnErr result (view parts.new ≡ view parts.old) }
    ensures rest { KeepsRest parts.old parts.new }
{
    // For the proof alone: the number that a new car would get is one that no car has.
    let _number = parts.cars.vacant();
    match tail {
        Some(car) => {
            make_room_for_birth(&mut parts.cars, car)?;
            Ok(car)
        }
        None => {
            let car = open_car(parts, alloc, train, room)?;
            Ok(car)
        }
    }
}

/// Takes the object out of a Live slot of a car that is ready, and lets the slot tell where it went.
pub(crate) fn take_away(cars: &mut Table<Held>, from: Addr, to: Addr) -> Object
    requires ready { is_ready cars.old from.car ≡ true }
    requires live { IsSome (object_at (cars_of cars.old) from) }
    ensures object { IsSomeAnd (object_at (cars_of cars.old) from) (λ object. result ≡ object) }
    ensures cars { cars_of cars.new ≡ with_slot_at (cars_of cars.old) from (Moved to) }
    ensures births { (car : ℕ) → HasBirthRoom cars.old car → HasBirthRoom cars.new car }
    ensures others { KeepsReady cars.old cars.new }
    ensures frozen { cars.new.frozen ≡ cars.old.frozen }
{
    let Ok(held) = cars.change(from.car) else {
        // A car that is ready is changed without memory.
        unreachable!()
    };
    held.car.mark_moved(from.slot, to)
}
