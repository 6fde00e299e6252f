ghost use Rattle.std.specs.Prelude.{◌≡◌, ◌≤◌, ◌↔◌, [], length, IsTrue, IfOk};
ghost use Rattle.std.specs.FinSet as set;
ghost use Rattle.pm_types.specs.declared.limits.TheConstants.{FIELDS, PAGE_BYTES, CAR_HEAD_BYTES};
ghost use Rattle.pm_image.specs.CarPages.{HasCarPage, car_spelling, car_used, one_car, padded};

use crate::settled::known::know_records;
use crate::settled::matching::spell;
use pm_image::RECORDS_AT;
use pm_layout::size;
use pm_types::{NoMemory, Slot};
use std::alloc::Global;
use std::marker::Model;

/// A car as the used bytes of its page, seen as the car that they spell. It takes as much memory as those, and a
/// `CarImage` about a third more.
#[derive(Debug, Drop)]
pub struct PackedCar {
    number: u64,
    // How many slots are listed.
    count: usize,
    // Their records, one after another.
    records: Vec<u8>,
}

impl Model for PackedCar {
    ghost use Rattle.pm_image.specs.declared.car.CarImage.{CarImage};
    ghost use Rattle.pm_graphs.specs.Settled.Packed.{IsPacked, unpacked};

    ghost Value = { CarImage };

    ghost view = { λ it. record { number = it.number; slots = unpacked it.count it.records.items } };

    ghost invariant = { λ it. IsPacked it.count it.records.items };
}

// How many bytes of a car's page are used.
fn used(slots: &[(u32, Slot)]) -> usize
    requires has { HasCarPage (one_car FIELDS) set.empty (record { number = 0; slots = slots.now }) }
    ensures used { result ≡ car_used slots.now }
    ensures from { CAR_HEAD_BYTES ≤ result }
    ensures to { result ≤ PAGE_BYTES }
{
    let mut used = RECORDS_AT;
    for entry in slots {
        used += 4 + size(&entry.1) as usize;
    }
    used
}

impl PackedCar {
    /// Number 0, with no slot. It takes no memory.
    pub fn empty(alloc: Global) -> PackedCar
        ensures { result ≡ record { number = 0; slots = [] } }
    {
        PackedCar {
            number: 0,
            count: 0,
            records: Vec::new(alloc),
        }
    }

    /// The car of this number with these slots, packed. The slots and its page, of 16,384 bytes, are lent.
    ///
    /// # Errors
    ///
    /// `NoMemory` where memory ran out.
    pub fn pack(
        alloc: Global,
        number: u64,
        slots: &[(u32, Slot)],
        page: &[u8],
    ) -> Result<PackedCar, NoMemory>
        requires has { HasCarPage (one_car FIELDS) set.empty (record { number = number; slots = slots.now }) }
        requires page { page.now ≡ padded (car_spelling (record { number = number; slots = slots.now })) }
        requires whole { length page.now ≡ PAGE_BYTES }
        ensures { IfOk result (λ packed. packed ≡ record { number = number; slots = slots.now }) }
    {
        know_records(slots);
        let end = used(slots);
        let records = Vec::from_slice(alloc, &page[RECORDS_AT..end])?;
        Ok(PackedCar {
            number,
            count: slots.len(),
            records,
        })
    }

    /// The number of the car.
    pub fn number(&self) -> u64
        ensures { result ≡ self.now.number }
    {
        self.number
    }

    /// Whether these are the slots that the car lists, with what they hold, in their order. It takes no memory.
    pub fn has_slots(&self, slots: &[(u32, Slot)]) -> bool
        ensures { IsTrue result ↔ (slots.now ≡ self.now.slots) }
    {
        self.count == slots.len() && spell(&self.records, slots)
    }
}
