ghost use Rattle.std.specs.Prelude.{◌≡◌, ◌≤◌, true, length, IfSome};
ghost use Rattle.std.specs.FinMap.{get};
ghost use Rattle.pm_types.specs.declared.limits.TheConstants.{FIELDS, OBJECT_BYTES, CAR_ROOM};
ghost use Rattle.pm_cars.specs.Cars.{object_room};
ghost use Rattle.pm_snap.specs.Snapped.{is_ready};
ghost use Rattle.pm_view.specs.Rows.{if_fits, tail_for, next_of};
ghost use Rattle.pm_space.specs.Places.{FitsIn, with_object_in};
ghost use Rattle.pm_space.specs.Shown.{view, cars_of, HasBirthRoom};

use crate::held::Held;
use crate::parts::Parts;
use pm_snap::Table;
use pm_types::{Object, room};

/// The room in bytes of an object that is within the limits: 255 fields and 4,096 bytes at most.
pub fn room_of(object: &Object) -> u32
    requires fields { length object.now.fields ≤ FIELDS }
    requires bytes { length object.now.bytes ≤ OBJECT_BYTES }
    ensures room { result ≡ object_room object.now }
    ensures small { result ≤ CAR_ROOM }
{
    let fields = object.fields.as_slice().len() as u32;
    let bytes = object.bytes.as_slice().len() as u32;
    room(fields, bytes)
}

// The car, where it stands and an object of this room, in bytes, fits it.
fn if_fits<F>(parts: &Parts<F>, room: u32, car: u64) -> Option<u64>
    ensures car { result ≡ if_fits (view parts.now) room car }
    ensures fits { IfSome result (λ it. FitsIn (view parts.now).cars it room) }
{
    match parts.cars.get(car) {
        Some(held) => { if held.car.fits(room) { Some(car) } else { None } }
        None => None,
    }
}

/// The tail of a train, where there is one and an object of this room, in bytes, fits it.
pub fn tail_for<F>(parts: &Parts<F>, train: u64, room: u32) -> Option<u64>
    ensures tail { result ≡ tail_for (view parts.now) train room }
    ensures fits { IfSome result (λ car. FitsIn (view parts.now).cars car room) }
{
    match parts.trains.tail(train) {
        Some(car) => if_fits(parts, room, car),
        None => None,
    }
}

/// Puts an object into the next slot of a car that is ready, has room for a birth, and in which the object fits. It
/// answers that slot. It takes no memory, and what is frozen stays.
pub fn put_into(cars: &mut Table<Held>, car: u64, object: Object) -> u32
    requires ready { is_ready cars.old car ≡ true }
    requires birth { HasBirthRoom cars.old car }
    requires fits { FitsIn (cars_of cars.old) car (object_room object) }
    ensures cars { cars_of cars.new ≡ with_object_in (cars_of cars.old) car object }
    ensures slot { result ≡ next_of (get (cars_of cars.old) car) }
    ensures frozen { cars.new.frozen ≡ cars.old.frozen }
{
    let Ok(held) = cars.change(car) else {
        unreachable!()
    };
    held.car.birth(object)
}
