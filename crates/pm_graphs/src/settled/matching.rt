// Whether bytes spell slots: they are followed text by text, and nothing is made of them.

ghost use Rattle.std.specs.Prelude.{◌≡◌, ◌<◌, true, false, IfSome, option_map};
ghost use Rattle.std.specs.List.{flat_map, AllByRecursion};
ghost use Rattle.pm_types.specs.declared.limits.TheConstants.{FIELDS};
ghost use Rattle.pm_layout.specs.Spelling.{HasCar, HasSpelling, IsAddress, IsInRange, address, field, spelling};
ghost use Rattle.pm_image.specs.CarPages.{record_spelling};
ghost use Rattle.pm_graphs.specs.Settled.Behind.{IsBehindOf};
ghost use Rattle.pm_graphs.specs.Settled.Packed.{IsRecord};

use crate::settled::behind::{behind, behind_address, behind_byte, behind_head, behind_u32};
use pm_layout::MOVED;
use pm_types::{Addr, FIELDS, OBJECT_BYTES, Object, Slot};

// The bytes behind an address, which has a car.
fn behind_target(bytes: &[u8], to: Addr) -> Option<&[u8]>
    ensures behind { IsBehindOf (0 < to.car) bytes.now (address to) (option_map (λ rest. rest.now) result) }
    ensures range { IsAddress to }
{
    if to.car == 0 {
        return None;
    }
    behind_address(bytes, to)
}

// The bytes behind a field, which is null or has a car.
fn behind_field(bytes: &[u8], reference: Option<Addr>) -> Option<&[u8]>
    ensures behind { IsBehindOf (HasCar reference) bytes.now (field reference) (option_map (λ rest. rest.now) result) }
    ensures range { IfSome reference IsAddress }
{
    match reference {
        Some(to) => behind_target(bytes, to),
        None => behind_address(bytes, Addr { car: 0, slot: 0 }),
    }
}

// The bytes behind fields, one after another.
fn behind_fields<'a>(bytes: &'a [u8], fields: &[Option<Addr>]) -> Option<&'a [u8]>
    ensures behind { IsBehindOf (AllByRecursion HasCar fields.now) bytes.now (flat_map field fields.now)
        (option_map (λ rest. rest.now) result) }
    ensures range { IfSome result (λ rest. AllByRecursion (λ reference. IfSome reference IsAddress) fields.now) }
{
    let mut rest = bytes;
    for reference in fields {
        let Some(next) = behind_field(rest, *reference) else {
            return None;
        };
        rest = next;
    }
    Some(rest)
}

// The bytes behind an object, which has a spelling.
fn behind_object<'a>(bytes: &'a [u8], object: &Object) -> Option<&'a [u8]>
    ensures behind { IsBehindOf (HasSpelling FIELDS (Slot.Live object.now)) bytes.now (spelling (Slot.Live object.now))
        (option_map (λ rest. rest.now) result) }
    ensures range { IfSome result (λ rest. IsInRange (Slot.Live object.now)) }
{
    let fields = object.fields.as_slice();
    let data = object.bytes.as_slice();
    if object.id == 0 || fields.len() > FIELDS as usize || data.len() > OBJECT_BYTES {
        return None;
    }
    let Some(rest) = behind_head(bytes, object.id, fields.len() as u16, data.len() as u16) else {
        return None;
    };
    let Some(rest) = behind_fields(rest, fields) else {
        return None;
    };
    behind(rest, data)
}

// The bytes behind a Moved slot, which has a spelling.
fn behind_moved(bytes: &[u8], to: Addr) -> Option<&[u8]>
    ensures behind { IsBehindOf (HasSpelling FIELDS (Slot.Moved to)) bytes.now (spelling (Slot.Moved to))
        (option_map (λ rest. rest.now) result) }
    ensures range { IsInRange (Slot.Moved to) }
{
    let Some(rest) = behind_byte(bytes, MOVED) else {
        return None;
    };
    behind_target(rest, to)
}

// The bytes behind a slot, which has a spelling.
fn behind_slot<'a>(bytes: &'a [u8], slot: &Slot) -> Option<&'a [u8]>
    ensures behind { IsBehindOf (HasSpelling FIELDS slot.now) bytes.now (spelling slot.now)
        (option_map (λ rest. rest.now) result) }
    ensures range { IfSome result (λ rest. IsInRange slot.now) }
{
    match slot {
        Slot::Live(object) => behind_object(bytes, object),
        Slot::Moved(to) => behind_moved(bytes, *to),
    }
}

// The bytes behind a slot with its number.
fn behind_record<'a>(bytes: &'a [u8], number: u32, slot: &Slot) -> Option<&'a [u8]>
    ensures behind { IsBehindOf (IsRecord (number, slot.now)) bytes.now (record_spelling (number, slot.now))
        (option_map (λ rest. rest.now) result) }
{
    let Some(rest) = behind_u32(bytes, number) else {
        return None;
    };
    behind_slot(rest, slot)
}

// The bytes behind slots with their numbers, one after another.
fn behind_records<'a>(bytes: &'a [u8], slots: &[(u32, Slot)]) -> Option<&'a [u8]>
    ensures { IsBehindOf (AllByRecursion IsRecord slots.now) bytes.now (flat_map record_spelling slots.now)
        (option_map (λ rest. rest.now) result) }
{
    let mut rest = bytes;
    for (number, slot) in slots {
        let Some(next) = behind_record(rest, *number, slot) else {
            return None;
        };
        rest = next;
    }
    Some(rest)
}

/// Whether the bytes are the records of these slots, one after another and no more.
pub(crate) fn spell(bytes: &[u8], slots: &[(u32, Slot)]) -> bool
    ensures yes { result ≡ true → (bytes.now ≡ flat_map record_spelling slots.now) × AllByRecursion IsRecord slots.now }
    ensures no { result ≡ false → AllByRecursion IsRecord slots.now
        → bytes.now ≡ flat_map record_spelling slots.now → ⊥ }
{
    match behind_records(bytes, slots) {
        Some(rest) => rest.is_empty(),
        None => false,
    }
}
