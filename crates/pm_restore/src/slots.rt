//! The slots of a car, made from the objects of a dump.
ghost use Rattle.std.specs.Prelude.{◌≡◌, ◌<◌, ◌≤◌, ◌-◌, length, map, option_map, slice_get, slice_range};
ghost use Rattle.std.specs.Prelude.{Some, IfOk, IfSome};
ghost use Rattle.pm_dump.specs.Sound.{IsListed, IsSoundDump};
ghost use Rattle.pm_restore.specs.Packing.Packing.{address_of, packed_slot, packed_slots};
ghost use Rattle.pm_restore.specs.Firsts.{firsts_of};
ghost use Rattle.pm_restore.specs.Parts.{AreListed};

use crate::Placing;
use pm_dump::Dump;
use pm_types::{Addr, Bytes, Fields, NoMemory, Object, Slot};
use std::alloc::Global;

/// What a field holds: the address of the object of its identity, if it is not null.
fn address_in(dump: &Dump, placing: &Placing, field: Option<u32>) -> Option<Addr>
    requires sound { IsSoundDump dump.now }
    requires placed { placing.now ≡ firsts_of dump.now.objects }
    requires listed { IfSome field (IsListed dump.now.objects) }
    ensures { result ≡ option_map (address_of dump.now.objects) field }
{
    match field {
        Some(id) => Some(placing.address_of(dump, id)),
        None => None,
    }
}

/// The same fields, each identity as the address of its object.
fn addresses_in(
    alloc: Global,
    dump: &Dump,
    placing: &Placing,
    fields: &[Option<u32>],
) -> Result<Vec<Option<Addr>>, NoMemory>
    requires sound { IsSoundDump dump.now }
    requires placed { placing.now ≡ firsts_of dump.now.objects }
    requires listed { AreListed dump.now.objects fields.now }
    ensures { IfOk result (λ addresses. addresses.items ≡ map (option_map (address_of dump.now.objects)) fields.now) }
{
    let mut addresses = Vec::with_capacity(alloc, fields.len())?;
    for field in fields {
        addresses.push(address_in(dump, placing, *field))?;
    }
    Ok(addresses)
}

/// The object at this place in its slot.
fn slot_at(alloc: Global, dump: &Dump, placing: &Placing, place: usize) -> Result<Slot, NoMemory>
    requires sound { IsSoundDump dump.now }
    requires placed { placing.now ≡ firsts_of dump.now.objects }
    requires there { place < length dump.now.objects }
    ensures { IfOk result (λ slot. option_map (packed_slot (address_of dump.now.objects))
        (slice_get dump.now.objects place) ≡ Some slot) }
{
    let object = dump.object(place);
    let fields = addresses_in(alloc, dump, placing, object.fields)?;
    let bytes = object.bytes.to_vec(alloc)?;
    Ok(Slot::Live(Object {
        id: object.id,
        fields: Fields::from_vec(fields),
        bytes: Bytes::from_vec(bytes),
    }))
}

/// The slots of a car that has the objects from this place to that.
pub(crate) fn slots_between(
    alloc: Global,
    dump: &Dump,
    placing: &Placing,
    from: usize,
    end: usize,
) -> Result<Vec<(u32, Slot)>, NoMemory>
    requires sound { IsSoundDump dump.now }
    requires placed { placing.now ≡ firsts_of dump.now.objects }
    requires up { from ≤ end }
    requires within { end ≤ length dump.now.objects }
    requires few { end - from ≤ 1000 }
    ensures { IfOk result (λ slots. slots.items ≡ packed_slots (address_of dump.now.objects) 0
        (slice_range dump.now.objects from end)) }
{
    let mut slots = Vec::with_capacity(alloc, end - from)?;
    for place in from..end {
        let slot = slot_at(alloc, dump, placing, place)?;
        slots.push(((place - from) as u32, slot))?;
    }
    Ok(slots)
}
