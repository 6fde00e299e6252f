ghost use Rattle.std.specs.Prelude.{◌≡◌, ◌+◌, ◌≤◌, ◌++◌, length, drop, IfOk};
ghost use Rattle.std.specs.List.{flat_map, AllByRecursion};
ghost use Rattle.std.specs.FinSet as set;
ghost use Rattle.byteorder.specs.Endian.{big_bytes};
ghost use Rattle.pm_types.specs.declared.limits.TheConstants.{FIELDS, CAR_HEAD_BYTES};
ghost use Rattle.pm_layout.specs.Spelling.{HasSpelling, slot_size};
ghost use Rattle.pm_image.specs.CarPages.{HasCarPage, car_magic, car_spelling, one_car, padded, record_spelling};

use crate::car::MAGIC;
use crate::{CarImage, RECORDS_AT};
use byteorder::{BigEndian, ByteOrder};
use pm_layout::{fill_slot, size};
use pm_types::{NoMemory, PAGE_BYTES, Slot};
use std::alloc::Global;

// Writes the head of a car's page over as many bytes: the magic, the car's number, and how many slots are listed.
fn fill_head(out: &mut [u8], number: u64, count: u16)
    requires { length out.old ≡ CAR_HEAD_BYTES }
    ensures { out.new ≡ car_magic ++ (big_bytes 8 number ++ big_bytes 2 count) }
{
    let (magic, numbers) = out.split_at_mut(4);
    magic.copy_from_slice(&MAGIC);
    BigEndian::write_u64(numbers, number);
    BigEndian::write_u16(&mut numbers[8..], count);
}

// Writes the slot with its number before it over as many bytes.
fn fill_record(out: &mut [u8], number: u32, slot: &Slot)
    requires has { HasSpelling FIELDS slot.now }
    requires size { length out.old ≡ 4 + slot_size slot.now }
    ensures { out.new ≡ record_spelling (number, slot.now) }
{
    let (front, rest) = out.split_at_mut(4);
    BigEndian::write_u32(front, number);
    fill_slot(rest, slot);
}

// Writes slots with their numbers over the first bytes. Those behind them stay.
fn fill_records(out: &mut [u8], records: &[(u32, Slot)])
    requires has { AllByRecursion (λ entry. HasSpelling FIELDS entry.1) records.now }
    requires room { length (flat_map record_spelling records.now) ≤ length out.old }
    ensures { out.new ≡ flat_map record_spelling records.now
        ++ drop (length (flat_map record_spelling records.now)) out.old }
{
    let mut at = 0;
    for record in records {
        let end = at + 4 + size(&record.1) as usize;
        fill_record(&mut out[at..end], record.0, &record.1);
        at = end;
    }
}

/// The page that spells a car of this number with these slots, which are lent: 16,384 bytes, of which those after the
/// records are 0. `NoMemory` where memory ran out.
#[tactic(auto, unfolding(crate::specs::CarPages::car_spelling))]
pub fn write_slots(alloc: Global, number: u64, slots: &[(u32, Slot)]) -> Result<Vec<u8>, NoMemory>
    requires { HasCarPage (one_car FIELDS) set.empty (record { number = number; slots = slots.now }) }
    ensures spelled { IfOk result (λ page. page.items
        ≡ padded (car_spelling (record { number = number; slots = slots.now }))) }
    ensures whole { IfOk result (λ page. length page.items ≡ PAGE_BYTES) }
{
    let mut page = Vec::from_slice(alloc, &[0; PAGE_BYTES])?;
    let (head, records) = page.as_mut_slice().split_at_mut(RECORDS_AT);
    fill_head(head, number, slots.len() as u16);
    fill_records(records, slots);
    Ok(page)
}

/// The page that spells the car: 16,384 bytes, of which those after the records are 0.
pub fn write_car(alloc: Global, image: &CarImage) -> Result<Vec<u8>, NoMemory>
    requires { HasCarPage (one_car FIELDS) set.empty image.now }
    ensures spelled { IfOk result (λ page. page.items ≡ padded (car_spelling image.now)) }
    ensures whole { IfOk result (λ page. length page.items ≡ PAGE_BYTES) }
{
    let page = write_slots(alloc, image.number, image.slots.as_slice())?;
    Ok(page)
}
