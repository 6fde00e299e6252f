//! Telling each car which sources outside it name a slot of it.

ghost use Rattle.std.specs.Prelude.{◌≡◌, ◌≤◌, ◌<◌, ◌^◌, ℕ, [], ◌∷◌, map, length, OnOk};
ghost use Rattle.std.specs.List.{flat_map, AllByRecursion};
ghost use Rattle.std.specs.FinMap.{entries};
ghost use Rattle.pm_types.specs.declared.object.Slot.{Slot};
ghost use Rattle.pm_cars.specs.Cars.{slot_room};
ghost use Rattle.pm_view.specs.Sources.{outside};
ghost use Rattle.pm_law_copies.specs.Storing.{field_sources, slot_sources, car_sources, root_source, stored_of};
ghost use Rattle.pm_reopen.specs.Rebuild.Lists.{placed_of, rows};
ghost use Rattle.pm_reopen.specs.Rebuild.Remembering.{Adds};
ghost use Rattle.pm_types.specs.declared.limits.TheConstants.{CAR_BYTES};

use crate::rebuild::gatherings::Gatherings;
use pm_cars::Car;
use pm_roots::Roots;
use pm_types::{Addr, NoMemory, RefSource, Slot};

// The source lies outside the car.
fn is_outside(source: RefSource, car: u64) -> bool
    ensures { result ≡ outside car source }
{
    match source {
        RefSource::Root(_) => true,
        RefSource::Handle { .. } => true,
        RefSource::Field { at, .. } => at.car != car,
    }
}

// The source stores this address, and the car in which that lies remembers it, if the source lies outside the car.
fn tell(sets: &mut Gatherings, source: RefSource, to: Addr) -> Result<(), NoMemory>
    ensures { OnOk result (Adds sets.old sets.new ((source, to) ∷ [])) }
{
    if !is_outside(source, to.car) {
        return Ok(());
    }
    sets.remember(to.car, source, to.slot)
}

// The field of this index stores this.
fn tell_field(
    sets: &mut Gatherings,
    at: Addr,
    index: u32,
    field: Option<Addr>,
) -> Result<(), NoMemory>
    ensures { OnOk result (Adds sets.old sets.new (field_sources at index (field ∷ []))) }
{
    match field {
        Some(to) => tell(sets, RefSource::Field { at, index }, to),
        None => Ok(()),
    }
}

// The object at this address has these fields.
fn tell_fields(sets: &mut Gatherings, at: Addr, fields: &[Option<Addr>]) -> Result<(), NoMemory>
    requires { length fields.now < 2 ^ 32 }
    ensures { OnOk result (Adds sets.old sets.new (field_sources at 0 fields.now)) }
{
    let mut left = fields.len();
    while left > 0 {
        left -= 1;
        tell_field(sets, at, left as u32, fields[left])?;
    }
    Ok(())
}

// This stands in a slot of the car.
fn tell_slot(sets: &mut Gatherings, car: u64, slot: u32, content: &Slot) -> Result<(), NoMemory>
    requires { slot_room content.now ≤ CAR_BYTES }
    ensures { OnOk result (Adds sets.old sets.new (slot_sources car (slot, content.now))) }
{
    match content {
        Slot::Live(object) => tell_fields(sets, Addr { car, slot }, object.fields.as_slice()),
        Slot::Moved(_) => Ok(()),
    }
}

// This stands in the slots of the car.
fn tell_slots(sets: &mut Gatherings, car: u64, slots: &[(u32, Slot)]) -> Result<(), NoMemory>
    requires { AllByRecursion (λ (e : ℕ × Slot). slot_room e.1 ≤ CAR_BYTES) slots.now }
    ensures { OnOk result (Adds sets.old sets.new (flat_map (slot_sources car) slots.now)) }
{
    let mut left = slots.len();
    while left > 0 {
        left -= 1;
        let listed = &slots[left];
        tell_slot(sets, car, listed.0, &listed.1)?;
    }
    Ok(())
}

// This is a car.
fn tell_car(sets: &mut Gatherings, car: &Car) -> Result<(), NoMemory>
    ensures { OnOk result (Adds sets.old sets.new (car_sources (car.now.car.number, car.now.car))) }
{
    car.sound();
    tell_slots(sets, car.number(), car.slots())
}

// These are the cars.
fn tell_cars(sets: &mut Gatherings, cars: &[(u64, Car)]) -> Result<(), NoMemory>
    ensures { OnOk result (Adds sets.old sets.new (flat_map car_sources (rows (map placed_of cars.now)))) }
{
    let mut left = cars.len();
    while left > 0 {
        left -= 1;
        tell_car(sets, &cars[left].1)?;
    }
    Ok(())
}

// These are the roots.
fn tell_roots(sets: &mut Gatherings, roots: &Roots) -> Result<(), NoMemory>
    ensures { OnOk result (Adds sets.old sets.new (map root_source (entries roots.now))) }
{
    let mut left = roots.len();
    while left > 0 {
        left -= 1;
        let (_, number, at) = roots.nth(left);
        tell(sets, RefSource::Root(number), at)?;
    }
    Ok(())
}

/// Tells each car which roots, and which fields of these cars, lie outside it and name a slot of it.
pub(crate) fn remember(
    sets: &mut Gatherings,
    cars: &[(u64, Car)],
    roots: &Roots,
) -> Result<(), NoMemory>
    ensures { OnOk result (Adds sets.old sets.new (stored_of (rows (map placed_of cars.now)) roots.now)) }
{
    tell_roots(sets, roots)?;
    tell_cars(sets, cars)?;
    Ok(())
}
