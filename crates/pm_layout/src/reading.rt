ghost use Rattle.std.specs.Prelude.{◌≡◌, ℕ, ◌+◌, ◌*◌, ◌≤◌, length, slice_index, IfOk, Ok};
ghost use Rattle.pm_layout.specs.Spelling.{IsInRange, IsSpelled};
ghost use Rattle.pm_layout.specs.Reading.{Gives, number_from, end_at, live_end, ident_at, field_count_at, byte_count_at, address_at, field_at, fields_at, live_at, target_at, moved_at, slot_at};
ghost use Rattle.pm_types.specs.declared.limits.TheConstants.{FIELDS};
ghost use Rattle.pm_types.specs.declared.object.Slot.{Slot};

use crate::LayoutFault;
use crate::kind::{LIVE, MOVED};
use crate::number::{u16_at, u32_at, u64_at};
use pm_types::{Addr, Bytes, Fields, LAST_ID, OBJECT_BYTES, Object, Slot};
use std::alloc::Global;

// The place after a Live slot, which is inside the bytes.
#[tactic(auto, unfolding(crate::specs::Reading::end_at))]
fn end_at(bytes: &[u8], at: usize) -> Result<usize, LayoutFault>
    requires { at ≤ length bytes.now }
    ensures exact { result ≡ end_at bytes.now at }
    ensures inside { IfOk result (λ end. (end ≡ live_end bytes.now at) × (end ≤ length bytes.now)) }
{
    let left = bytes.len() - at;
    if left < 13 {
        return Err(LayoutFault::Short(at as u64));
    }
    let fields = u16_at(bytes, at + 9) as usize;
    let count = u16_at(bytes, at + 11) as usize;
    let size = 13 + 12 * fields + count;
    if left < size {
        return Err(LayoutFault::Short(at as u64));
    }
    Ok(at + size)
}

// An identity is eight bytes, of which the first four are 0.
#[tactic(auto, unfolding(crate::specs::Reading::ident_at))]
fn ident_at(bytes: &[u8], place: usize) -> Result<u32, LayoutFault>
    requires { place + 8 ≤ length bytes.now }
    ensures { result ≡ ident_at bytes.now place }
{
    let id = u64_at(bytes, place);
    if id == 0 || id > LAST_ID as u64 {
        return Err(LayoutFault::Ident(place as u64));
    }
    Ok(id as u32)
}

#[tactic(auto, unfolding(crate::specs::Reading::field_count_at))]
fn field_count_at(most: u32, bytes: &[u8], place: usize) -> Result<u32, LayoutFault>
    requires { place + 2 ≤ length bytes.now }
    ensures exact { result ≡ field_count_at most bytes.now place }
    ensures number { IfOk result (λ n. n ≡ number_from 2 bytes.now place) }
{
    let n = u16_at(bytes, place) as u32;
    if n > most {
        return Err(LayoutFault::Fields {
            at: place as u64,
            n,
        });
    }
    Ok(n)
}

#[tactic(auto, unfolding(crate::specs::Reading::byte_count_at))]
fn byte_count_at(bytes: &[u8], place: usize) -> Result<u32, LayoutFault>
    requires { place + 2 ≤ length bytes.now }
    ensures exact { result ≡ byte_count_at bytes.now place }
    ensures number { IfOk result (λ n. n ≡ number_from 2 bytes.now place) }
{
    let n = u16_at(bytes, place) as u32;
    if n as usize > OBJECT_BYTES {
        return Err(LayoutFault::Count {
            at: place as u64,
            n,
        });
    }
    Ok(n)
}

/// The address in the twelve bytes from a place on, which are inside the bytes, whatever its numbers are.
pub fn address_at(bytes: &[u8], place: usize) -> Addr
    requires { place + 12 ≤ length bytes.now }
    ensures { result ≡ address_at bytes.now place }
{
    let car = u64_at(bytes, place);
    let slot = u32_at(bytes, place + 8);
    Addr { car, slot }
}

// A field is null where its car is 0, and then its slot is 0 too.
#[tactic(auto, unfolding(crate::specs::Reading::field_at))]
fn field_at(bytes: &[u8], place: usize) -> Result<Option<Addr>, LayoutFault>
    requires { place + 12 ≤ length bytes.now }
    ensures { result ≡ field_at bytes.now place }
{
    let address = address_at(bytes, place);
    if address.car > 0 {
        return Ok(Some(address));
    }
    if address.slot == 0 {
        return Ok(None);
    }
    Err(LayoutFault::Null(place as u64))
}

// So many fields, which are inside the bytes.
fn fields_at(alloc: Global, bytes: &[u8], count: u32, start: usize) -> Result<Fields, LayoutFault>
    requires { start + 12 * count ≤ length bytes.now }
    ensures { Gives result (fields_at bytes.now count start) }
{
    let mut fields = Vec::with_capacity(alloc, count as usize)?;
    let mut place = start;
    for _ in 0..count {
        let field = field_at(bytes, place)?;
        fields.push(field)?;
        place += 12;
    }
    Ok(Fields::from_vec(fields))
}

// The address that a Moved slot keeps is never null.
#[tactic(auto, unfolding(crate::specs::Reading::target_at))]
fn target_at(bytes: &[u8], place: usize) -> Result<Addr, LayoutFault>
    requires { place + 12 ≤ length bytes.now }
    ensures { result ≡ target_at bytes.now place }
{
    let address = address_at(bytes, place);
    if address.car == 0 {
        return Err(LayoutFault::Null(place as u64));
    }
    Ok(address)
}

#[tactic(auto, unfolding(crate::specs::Reading::moved_at))]
fn moved_at(bytes: &[u8], at: usize) -> Result<(Slot, usize), LayoutFault>
    requires { at ≤ length bytes.now }
    ensures { result ≡ moved_at bytes.now at }
{
    if bytes.len() - at < 13 {
        return Err(LayoutFault::Short(at as u64));
    }
    let to = target_at(bytes, at + 1)?;
    Ok((Slot::Moved(to), at + 13))
}

// The lengths are looked at first; then the slot is read from left to right.
#[tactic(auto, unfolding(crate::specs::Reading::live_at))]
fn live_at(alloc: Global, most: u32, bytes: &[u8], at: usize) -> Result<(Slot, usize), LayoutFault>
    requires { at ≤ length bytes.now }
    ensures { Gives result (live_at most bytes.now at) }
{
    let end = end_at(bytes, at)?;
    let id = ident_at(bytes, at + 1)?;
    let count = field_count_at(most, bytes, at + 9)?;
    let len = byte_count_at(bytes, at + 11)?;
    let fields = fields_at(alloc, bytes, count, at + 13)?;
    let text = bytes[end - len as usize..end].to_vec(alloc)?;
    let object = Object {
        id,
        fields,
        bytes: Bytes::from_vec(text),
    };
    Ok((Slot::Live(object), end))
}

// A slot of at most so many fields.
#[tactic(auto, unfolding(crate::specs::Reading::slot_at))]
fn slot_at(alloc: Global, most: u32, bytes: &[u8], at: usize) -> Result<(Slot, usize), LayoutFault>
    requires { at ≤ length bytes.now }
    ensures exact { Gives result (slot_at most bytes.now at) }
    ensures moved { slice_index bytes.now at ≡ 2 → result ≡ slot_at most bytes.now at }
{
    if at == bytes.len() {
        return Err(LayoutFault::Short(at as u64));
    }
    match bytes[at] {
        LIVE => live_at(alloc, most, bytes, at),
        MOVED => moved_at(bytes, at),
        byte => Err(LayoutFault::Kind {
            at: at as u64,
            byte,
        }),
    }
}

/// The slot of at most so many fields that is spelled from the place `at` on, and the place after it.
/// Places are counted in bytes. Whatever stands before the slot and after it is not looked at.
pub fn read_slot(
    alloc: Global,
    bytes: &[u8],
    at: usize,
    most: u32,
) -> Result<(Slot, usize), LayoutFault>
    requires at { at ≤ length bytes.now }
    requires most { most ≤ FIELDS }
    // What is read is spelled there.
    ensures found { IfOk result (λ x. IsSpelled most bytes.now at x.0 x.1) }
    // What is spelled there is read, unless memory runs out.
    ensures only { (slot : Slot) (next : ℕ) → IsInRange slot → IsSpelled most bytes.now at slot next
        → Gives result (Ok (slot, next)) }
    // Which fault it is.
    ensures exact { Gives result (slot_at most bytes.now at) }
    // A Moved slot is read without memory.
    ensures moved { slice_index bytes.now at ≡ 2 → result ≡ slot_at most bytes.now at }
{
    slot_at(alloc, most, bytes, at)
}
