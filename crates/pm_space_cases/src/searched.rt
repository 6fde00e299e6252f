//! Objects of a space that are searched by their identities: each slot is looked at.

ghost use Rattle.std.specs.Prelude.{◌≡◌, ◌≢◌, true, false, Some, None, IsSome};
ghost use Rattle.pm_types.specs.declared.source.RefSource.TheVariants.{Field};
ghost use Rattle.pm_trains.specs.Trains.{cars_at};
ghost use Rattle.pm_view.specs.Reading.{id_at, SourceStands};
ghost use Rattle.pm_view.specs.Seen.{seen, IsLive};
ghost use Rattle.pm_space.specs.Shown.{view};
ghost use Rattle.pm_space_cases.specs.Lacking.{Lacks, LacksBelow, LacksIn, LackAll, LacksInTrain};

use pm_space::{Parts, Space, is_aside, object_at};
use pm_trains::a_car_is_found_where_it_stands;
use pm_types::{Addr, Id};

// Whether the object at an address has the identity.
fn is_at<F>(parts: &Parts<F>, at: Addr, id: Id) -> bool
    ensures { result ≡ false → id_at (view parts.now) at ≢ Some id }
{
    match object_at(&parts.cars, at) {
        Some(object) => object.id == id,
        None => false,
    }
}

// The object of a car that has the identity, among its first slots.
fn in_slots<F>(parts: &Parts<F>, car: u64, slots: u32, id: Id) -> Option<Addr>
    ensures { result ≡ None → LacksBelow (view parts.now) id car slots }
{
    for slot in 0..slots {
        let at = Addr { car, slot };
        if is_at(parts, at, id) {
            return Some(at);
        }
    }
    None
}

// The object of a car that has the identity.
fn in_car<F>(parts: &Parts<F>, car: u64, id: Id) -> Option<Addr>
    ensures { result ≡ None → LacksIn (view parts.now) id car }
{
    let Some(held) = parts.cars.get(car) else {
        return None;
    };
    held.car.sound();
    in_slots(parts, car, held.car.next_slot(), id)
}

// The object of these cars that has the identity.
fn in_cars<F>(parts: &Parts<F>, cars: &[u64], id: Id) -> Option<Addr>
    ensures { result ≡ None → LackAll (view parts.now) id cars.now }
{
    for car in cars {
        let found = in_car(parts, *car, id);
        if found.is_some() {
            return found;
        }
    }
    None
}

// The object of a train that has the identity.
fn in_train<F>(parts: &Parts<F>, train: u64, id: Id) -> Option<Addr>
    requires { IsSome (cars_at parts.now.trains.trains train) }
    ensures { result ≡ None → LacksInTrain (view parts.now) id train }
{
    parts.trains.sound();
    a_car_is_found_where_it_stands();
    in_cars(parts, parts.trains.cars(train), id)
}

/// The address of the object that has the identity, also in a car that is set aside.
pub(crate) fn find<F: Drop>(space: &Space<F>, id: Id) -> Option<Addr>
    ensures { result ≡ None → Lacks (view space.now.parts) id }
{
    for place in 0..space.parts.trains.len() {
        let found = in_train(&space.parts, space.parts.trains.nth(place), id);
        if found.is_some() {
            return found;
        }
    }
    None
}

/// Whether an object that stands is at the address.
pub(crate) fn is_live<F: Drop>(space: &Space<F>, at: Addr) -> bool
    ensures { result ≡ true → IsLive (seen (view space.now.parts)) at }
{
    match object_at(&space.parts.cars, at) {
        Some(_) => !is_aside(&space.parts.trains, space.parts.phase, at.car),
        None => false,
    }
}

/// Whether an object that stands is at the address, and has a field of this index.
pub(crate) fn has_field<F: Drop>(space: &Space<F>, at: Addr, index: u32) -> bool
    ensures { result ≡ true → SourceStands (view space.now.parts) (Field at index) }
{
    match object_at(&space.parts.cars, at) {
        Some(object) => {
            object.fields.as_slice().get(index as usize).is_some()
                && !is_aside(&space.parts.trains, space.parts.phase, at.car)
        }
        None => false,
    }
}
