//! The identities of the objects that are in cars.

ghost use Rattle.std.specs.Prelude.{IsSome};
ghost use Rattle.pm_trains.specs.Trains.{cars_at};

use pm_case_text::Fault;
use pm_space::{Parts, Space};
use pm_types::{Id, Slot};
use std::alloc::Global;

// Adds those of these slots.
fn push_in_slots(slots: &[(u32, Slot)], ids: &mut Vec<Id>) -> Result<(), Fault> {
    for (_, slot) in slots {
        if let Slot::Live(object) = slot {
            ids.push(object.id)?;
        }
    }
    Ok(())
}

// Adds those of these cars.
fn push_in_cars<F>(parts: &Parts<F>, cars: &[u64], ids: &mut Vec<Id>) -> Result<(), Fault> {
    for car in cars {
        if let Some(held) = parts.cars.get(*car) {
            push_in_slots(held.car.slots(), ids)?;
        }
    }
    Ok(())
}

// Adds those of a train.
fn push_in_train<F>(parts: &Parts<F>, train: u64, ids: &mut Vec<Id>) -> Result<(), Fault>
    requires { IsSome (cars_at parts.now.trains.trains train) }
{
    push_in_cars(parts, parts.trains.cars(train), ids)
}

/// Those of the heap, car by car, also of cars that are set aside.
pub(crate) fn ids_in<F: Drop>(alloc: Global, heap: &Space<F>) -> Result<Vec<Id>, Fault> {
    let mut ids = Vec::new(alloc);
    for place in 0..heap.parts.trains.len() {
        push_in_train(&heap.parts, heap.parts.trains.nth(place), &mut ids)?;
    }
    Ok(ids)
}
