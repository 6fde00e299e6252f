ghost use Rattle.std.specs.Prelude.{◌≡◌, ℕ, ◌+◌, ◌-◌, ◌<◌, ◌≤◌, ◌↔◌, max, length, IsTrue, IsSomeAnd, IfSome, IfOk, IsOk, OnOk, OnErr, Some, None, option_copied};
ghost use Rattle.std.specs.List.{slice_get};
ghost use Rattle.std.specs.FinMap.{get, entries};
ghost use Rattle.pm_types.specs.declared.object.Slot.TheVariants.{Moved};
ghost use Rattle.pm_cars.specs.declared.look.Look.TheVariants as looks;
ghost use Rattle.pm_cars.specs.Cars.{object_room, slot_room, used, live_count, moved_count, FitsAt, Fits, IsSoundCar, look_of, object_at, IsLive, HasField, HasBytes, IsLowestLive, new_car, placed, with_birth, with_next, told, IsEdited, without_slot, with_field, with_bytes};

use crate::entry::{content_of, exchange, first_live, put_back, take_object};
use crate::look::Look;
use crate::object::{room_of, set_bytes, set_field};
use crate::row::{NOWHERE, Row};
use pm_types::{
    Addr, CAR_BYTES, CAR_HEAD_BYTES, Id, LAST_SLOT, MOVED_BYTES, NoMemory, Object, Slot,
};
use std::alloc::Global;
use std::marker::Model;

/// A car, seen as its number, a finite map from slots to what they hold, and the next slot; and
/// beside these, how many births no longer need memory. A slot is Live (an object), Moved (the
/// address to which its object went), or Gone, and then it is not in the map. Slots are numbered
/// upwards from 0, and no number is given twice.
#[derive(Drop)]
pub struct Car {
    number: u64,
    // The Live and the Moved slots, in their order.
    entries: Row,
    next: u32,
    // The room of the head and of all slots, in bytes.
    used: u32,
    // How many slots are Live.
    live: u32,
    // The place of the first Live entry, or the number of entries.
    first: usize,
    spare: usize,
}

impl Model for Car {
    ghost use Rattle.pm_cars.specs.Cars.{CarAndSpare, car_and_spare_code};

    ghost Value = { CarAndSpare };

    ghost coded = { car_and_spare_code };

    ghost use Rattle.pm_cars.specs.Entries.{slots_of, IsKept};

    ghost view = { λ c. record { car = record { number = c.number; slots = slots_of c.entries.items; next = c.next }; spare = c.spare } };

    ghost invariant = { λ c. IsKept c.entries.items c.next c.used c.live c.first c.spare c.entries.capacity };
}

impl Car {
    /// A car of this number with no slot.
    pub fn new(alloc: Global, number: u64) -> Car
        ensures { result ≡ record { car = new_car number; spare = 0 } }
    {
        Car {
            number,
            entries: Row::new(alloc),
            next: 0,
            used: CAR_HEAD_BYTES,
            live: 0,
            first: 0,
            spare: 0,
        }
    }

    /// What is true of every car: its room is at most 16,384 bytes, the next slot at most 65,536, and
    /// from the next slot on all are Gone. It does nothing, and takes no memory.
    pub fn sound(&self)
        ensures { IsSoundCar self.now.car }
    {
        let _next = self.next;
    }

    /// The car's number.
    pub fn number(&self) -> u64
        ensures { result ≡ self.now.car.number }
    {
        self.number
    }

    /// The slot of the next birth, 65,536 where there is none.
    pub fn next_slot(&self) -> u32
        ensures { result ≡ self.now.car.next }
    {
        self.next
    }

    /// The room that is used, in bytes: that of the head and of all slots.
    pub fn used(&self) -> u32
        ensures { result ≡ used self.now.car }
    {
        self.used
    }

    /// How many slots are Live.
    pub fn live(&self) -> u32
        ensures count { result ≡ live_count self.now.car }
        ensures none { (result ≡ 0) ↔ IsLowestLive self.now.car None }
    {
        self.live
    }

    /// How many slots are Moved.
    pub fn moved(&self) -> u32
        ensures { result ≡ moved_count self.now.car }
    {
        self.entries.len() as u32 - self.live
    }

    /// Whether an object of this room, in bytes, fits: all room together is at most 16,384, and the
    /// next slot at most 65,535.
    pub fn fits(&self, room: u32) -> bool
        ensures { IsTrue result ↔ Fits self.now.car room }
    {
        room <= CAR_BYTES - self.used && self.next <= LAST_SLOT
    }

    /// Takes memory for one birth, where there is none yet: a car with a spare birth takes none.
    /// After want of memory the car is as it was.
    pub fn reserve(&mut self) -> Result<(), NoMemory>
        ensures ok { OnOk result (self.new ≡ record self.old { spare = max 1 self.old.spare }) }
        ensures err { OnErr result (self.new ≡ self.old) }
        ensures succeeds { 0 < self.old.spare → IsOk result }
    {
        if self.spare == 0 {
            self.entries.make_space()?;
            self.spare = 1;
        }
        Ok(())
    }

    /// Takes memory for so many births at once, where there is less. After want of memory the car is as it was.
    pub fn reserve_many(&mut self, births: usize) -> Result<(), NoMemory>
        ensures ok { OnOk result (self.new ≡ record self.old { spare = max births self.old.spare }) }
        ensures err { OnErr result (self.new ≡ self.old) }
    {
        if self.spare < births {
            self.entries.reserve_exact(births)?;
            self.spare = births;
        }
        Ok(())
    }

    /// Puts the object into the next slot, and answers that slot.
    pub fn birth(&mut self, object: Object) -> u32
        requires fits { Fits self.old.car (object_room object) }
        requires spare { 0 < self.old.spare }
        ensures slot { result ≡ self.old.car.next }
        ensures car { self.new ≡ record { car = with_birth self.old.car object; spare = self.old.spare - 1 } }
    {
        let slot = self.next;
        self.place(slot, object);
        slot
    }

    /// Puts the object into this slot, which is the next or a later one.
    pub fn place(&mut self, slot: u32, object: Object)
        requires fits { FitsAt self.old.car slot (object_room object) }
        requires spare { 0 < self.old.spare }
        ensures { self.new ≡ record { car = placed self.old.car slot object; spare = self.old.spare - 1 } }
    {
        self.used += room_of(&object);
        self.entries.push_reserved((slot, Slot::Live(object)));
        self.next = slot + 1;
        self.live += 1;
        self.spare -= 1;
    }

    /// Lets this be the next slot, which is not lower than that of now.
    pub fn set_next(&mut self, slot: u32)
        requires upward { self.old.car.next ≤ slot }
        requires last { slot ≤ LAST_SLOT + 1 }
        ensures { self.new ≡ record self.old { car = with_next self.old.car slot } }
    {
        self.next = slot;
    }

    /// What the slot is.
    pub fn look(&self, slot: u32) -> Look
        ensures look { result ≡ look_of (get self.now.car.slots slot) }
        ensures live { (result ≡ looks.Live) ↔ IsLive self.now.car slot }
    {
        match self.slot(slot) {
            Some(Slot::Live(_)) => Look::Live,
            Some(Slot::Moved(to)) => Look::Moved(*to),
            None => Look::Gone,
        }
    }

    /// The Live and the Moved slots with what they hold, in their order, lent.
    #[tactic(auto, using(crate::proofs::Taken::listed))]
    pub fn slots(&self) -> &[(u32, Slot)]
        ensures { result.now ≡ entries self.now.car.slots }
    {
        self.entries.as_slice()
    }

    /// The slot's object, lent.
    pub fn object(&self, slot: u32) -> &Object
        requires live { IsLive self.now.car slot }
        ensures object { object_at self.now.car slot ≡ Some result.now }
        ensures room { object_room result.now ≤ CAR_BYTES }
    {
        match self.slot(slot) {
            Some(Slot::Live(object)) => object,
            _ => unreachable!(),
        }
    }

    /// The identity of the slot's object.
    pub fn id_at(&self, slot: u32) -> Id
        requires live { IsLive self.now.car slot }
        ensures { IsSomeAnd (object_at self.now.car slot) (λ object. result ≡ object.id) }
    {
        self.object(slot).id
    }

    /// How many fields the slot's object has.
    pub fn count(&self, slot: u32) -> u32
        requires live { IsLive self.now.car slot }
        ensures count { IsSomeAnd (object_at self.now.car slot) (λ object. result ≡ length object.fields) }
        ensures fields { (index : ℕ) → index < result → HasField self.now.car slot index }
    {
        self.object(slot).fields.as_slice().len() as u32
    }

    /// The bytes of the slot's object, lent.
    pub fn bytes(&self, slot: u32) -> &[u8]
        requires live { IsLive self.now.car slot }
        ensures bytes { IsSomeAnd (object_at self.now.car slot) (λ object. result.now ≡ object.bytes) }
        ensures inside { (at count : ℕ) → at + count ≤ length result.now → HasBytes self.now.car slot at count }
    {
        self.object(slot).bytes.as_slice()
    }

    /// A field of the slot's object: null or an address.
    pub fn field(&self, slot: u32, index: u32) -> Option<Addr>
        requires field { HasField self.now.car slot index }
        ensures { IsSomeAnd (object_at self.now.car slot) (λ object. slice_get object.fields index ≡ Some result) }
    {
        self.object(slot).fields.as_slice()[index as usize]
    }

    /// Sets a field of the slot's object.
    pub fn set_field(&mut self, slot: u32, index: u32, value: Option<Addr>)
        requires field { HasField self.old.car slot index }
        ensures { IsEdited self.old self.new slot (λ object. with_field object index value) }
    {
        let object = exchange(&mut self.entries, slot, NOWHERE);
        let changed = set_field(object, index as usize, value);
        put_back(&mut self.entries, slot, changed);
    }

    /// Writes the bytes into the slot's object, from the place `at` on.
    pub fn set_bytes(&mut self, slot: u32, at: u32, from: &[u8])
        requires inside { HasBytes self.old.car slot at (length from.now) }
        ensures { IsEdited self.old self.new slot (λ object. with_bytes object at from.now) }
    {
        let object = exchange(&mut self.entries, slot, NOWHERE);
        let changed = set_bytes(object, at as usize, from);
        put_back(&mut self.entries, slot, changed);
    }

    /// Lets the slot say that its object went to this address, and hands the object back.
    pub fn mark_moved(&mut self, slot: u32, to: Addr) -> Object
        requires live { IsLive self.old.car slot }
        ensures object { object_at self.old.car slot ≡ Some result }
        ensures car { self.new ≡ told self.old slot (Moved to) }
    {
        let object = exchange(&mut self.entries, slot, Slot::Moved(to));
        self.used = self.used + MOVED_BYTES - room_of(&object);
        self.live -= 1;
        self.first = first_live(self.entries.as_slice(), self.first);
        object
    }

    /// Lets the slot be Gone, and hands its object back.
    pub fn drop_slot(&mut self, slot: u32) -> Object
        requires live { IsLive self.old.car slot }
        ensures object { object_at self.old.car slot ≡ Some result }
        ensures car { self.new ≡ record self.old { car = without_slot self.old.car slot } }
    {
        let dropped = take_object(&mut self.entries, slot);
        self.used -= room_of(&dropped);
        self.live -= 1;
        self.first = first_live(self.entries.as_slice(), self.first);
        dropped
    }

    /// The least slot that is Live, `None` exactly where none is.
    pub fn lowest_live(&self) -> Option<u32>
        ensures { IsLowestLive self.now.car result }
    {
        let entries = self.entries.as_slice();
        if self.first < entries.len() {
            Some(entries[self.first].0)
        } else {
            None
        }
    }

    /// The same car again, also in its spare births.
    pub fn copy(&self, alloc: Global) -> Result<Car, NoMemory>
        ensures { IfOk result (λ copied. copied ≡ self.now) }
    {
        let entries = self.entries.copy(alloc, self.spare)?;
        Ok(Car {
            number: self.number,
            entries,
            next: self.next,
            used: self.used,
            live: self.live,
            first: self.first,
            spare: self.spare,
        })
    }

    // What the slot holds.
    fn slot(&self, slot: u32) -> Option<&Slot>
        ensures content { option_copied result ≡ get self.now.car.slots slot }
        ensures small { IfSome result (λ content. slot_room content.now ≤ CAR_BYTES) }
    {
        content_of(&self.entries, slot)
    }
}
