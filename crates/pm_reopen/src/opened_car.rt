//! Making a car of what its page lists.

ghost use Rattle.std.specs.Prelude.{◌≡◌, ◌+◌, ◌≤◌, map, option_map, IfOk, OnOk};
ghost use Rattle.pm_cars.specs.Cars.{new_car, slot_room, used};
ghost use Rattle.pm_image.specs.CarPages.{Ascend, car_used};
ghost use Rattle.pm_graphs.specs.Linking.{resolved_by};
ghost use Rattle.pm_reopen.specs.Making.{followed_object, with_slot, with_slots};
ghost use Rattle.pm_types.specs.declared.limits.TheConstants.{CAR_BYTES, CAR_HEAD_BYTES, LAST_SLOT};

use pm_cars::{Car, slots_are_counted};
use pm_graphs::{Leads, resolve};
use pm_image::{CarImage, SlotList};
use pm_types::{Addr, Fields, NoMemory, Object, Slot};
use std::alloc::Global;

// A field, followed.
fn follow(leads: &Leads, field: Option<Addr>) -> Option<Addr>
    ensures { result ≡ option_map (resolved_by leads.now) field }
{
    match field {
        Some(at) => Some(resolve(leads, at)),
        None => None,
    }
}

// Fields, each followed.
fn follow_all(leads: &Leads, fields: Fields) -> Fields
    ensures { result ≡ map (option_map (resolved_by leads.now)) fields }
{
    let mut followed = fields.into_vec();
    for index in 0..followed.len() {
        followed[index] = follow(leads, followed[index]);
    }
    Fields::from_vec(followed)
}

// An object, each field of which is followed.
fn follow_object(leads: &Leads, object: Object) -> Object
    ensures { result ≡ followed_object leads.now object }
{
    let Object { id, fields, bytes } = object;
    Object {
        id,
        fields: follow_all(leads, fields),
        bytes,
    }
}

// Opens a slot in a car: its object is put there, each field followed, or the slot is Gone where the object moved away.
// The next slot is the one behind it.
fn open_slot(leads: &Leads, car: &mut Car, slot: u32, content: Slot) -> Result<(), NoMemory>
    requires behind { car.old.car.next ≤ slot }
    requires last { slot ≤ LAST_SLOT }
    requires fits { used car.old.car + slot_room content ≤ CAR_BYTES }
    ensures car { OnOk result (car.new.car ≡ with_slot leads.now car.old.car (slot, content)) }
    ensures used { OnOk result (used car.new.car ≤ used car.old.car + slot_room content) }
{
    match content {
        Slot::Live(object) => {
            let followed = follow_object(leads, object);
            car.reserve()?;
            car.sound();
            slots_are_counted();
            car.place(slot, followed);
        }
        Slot::Moved(_) => car.set_next(slot + 1),
    }
    Ok(())
}

// Opens slots in a car, in order.
fn open_slots(leads: &Leads, car: &mut Car, slots: SlotList) -> Result<(), NoMemory>
    requires ascend { Ascend car.old.car.next slots }
    requires fits { used car.old.car + car_used slots ≤ CAR_BYTES + CAR_HEAD_BYTES }
    ensures { OnOk result (car.new.car ≡ with_slots leads.now car.old.car slots) }
{
    for (slot, content) in slots.into_vec() {
        open_slot(leads, car, slot, content)?;
    }
    Ok(())
}

// A car of this number with no slot, and with memory for so many births.
fn roomy_car(alloc: Global, number: u64, births: usize) -> Result<Car, NoMemory>
    ensures { IfOk result (λ car. car.car ≡ new_car number) }
{
    let mut car = Car::new(alloc, number);
    car.reserve_many(births)?;
    Ok(car)
}

/// The car that opening makes of what a page lists: its objects in their slots, which are moved there, each field
/// followed; no slot is Moved; and the next slot is one more than the greatest that is listed.
pub(crate) fn open_car(alloc: Global, leads: &Leads, image: CarImage) -> Result<Car, NoMemory>
    requires ascend { Ascend 0 image.slots }
    requires fits { car_used image.slots ≤ CAR_BYTES }
    ensures { IfOk result (λ car. car.car ≡ with_slots leads.now (new_car image.number) image.slots) }
{
    let CarImage { number, slots } = image;
    let mut car = roomy_car(alloc, number, slots.as_slice().len())?;
    open_slots(leads, &mut car, slots)?;
    Ok(car)
}
