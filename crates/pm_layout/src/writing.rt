ghost use Rattle.std.specs.Prelude.{◌≡◌, ◌+◌, ◌*◌, ◌++◌, ◌∷◌, length, OnOk, OnErr, IsOk};
ghost use Rattle.std.specs.List.{flat_map};
ghost use Rattle.byteorder.specs.Endian.{big_bytes};
ghost use Rattle.pm_layout.specs.Spelling.{HasSpelling, IsWithinLimits, address, field, spelling, slot_size};
ghost use Rattle.pm_layout.specs.Room.{HasRoom, Appends};

use crate::kind::{LIVE, MOVED};
use crate::number::put_bytes;
use byteorder::{BigEndian, ByteOrder};
use pm_types::{Addr, FIELDS, NoMemory, Object, Slot};

/// How many bytes the slot is spelled in.
pub fn size(slot: &Slot) -> u32
    requires { IsWithinLimits FIELDS slot.now }
    ensures counted { result ≡ slot_size slot.now }
    ensures spelled { result ≡ length (spelling slot.now) }
{
    match slot {
        Slot::Live(object) => {
            let fields = object.fields.as_slice().len() as u32;
            let bytes = object.bytes.as_slice().len() as u32;
            13 + 12 * fields + bytes
        }
        Slot::Moved(_) => 13,
    }
}

// Writes an address over twelve bytes.
#[tactic(auto, unfolding(crate::specs::Spelling::address))]
fn fill_address(out: &mut [u8], to: &Addr)
    requires { length out.old ≡ 12 }
    ensures { out.new ≡ address to.now }
{
    BigEndian::write_u64(out, to.car);
    BigEndian::write_u32(&mut out[8..], to.slot);
}

/// Appends an address, of twelve bytes, which there is room for.
pub fn put_address(out: &mut Vec<u8>, to: &Addr)
    requires { HasRoom out.old 12 }
    ensures { Appends out.old out.new (address to.now) }
{
    let mut bytes = [0; 12];
    fill_address(&mut bytes, to);
    put_bytes(out, &bytes);
}

// Writes a field over twelve bytes.
#[tactic(auto, unfolding(crate::specs::Spelling::field))]
fn fill_field(out: &mut [u8], reference: &Option<Addr>)
    requires { length out.old ≡ 12 }
    ensures { out.new ≡ field reference.now }
{
    match reference {
        Some(to) => fill_address(out, to),
        None => out.copy_from_slice(&[0; 12]),
    }
}

// Writes fields over twelve bytes each.
fn fill_fields(out: &mut [u8], fields: &[Option<Addr>])
    requires { length out.old ≡ 12 * length fields.now }
    ensures { out.new ≡ flat_map field fields.now }
{
    for i in 0..fields.len() {
        fill_field(&mut out[12 * i..12 * i + 12], &fields[i]);
    }
}

// Writes the head of an object over thirteen bytes: its kind, its identity, and how many fields and bytes it has.
fn fill_head(out: &mut [u8], id: u32, fields: u16, bytes: u16)
    requires { length out.old ≡ 13 }
    ensures { out.new ≡ 1 ∷ (big_bytes 8 id ++ (big_bytes 2 fields ++ big_bytes 2 bytes)) }
{
    let (kind, numbers) = out.split_at_mut(1);
    kind.copy_from_slice(&[LIVE]);
    BigEndian::write_u64(numbers, id as u64);
    BigEndian::write_u16(&mut numbers[8..], fields);
    BigEndian::write_u16(&mut numbers[10..], bytes);
}

#[tactic(auto, unfolding(crate::specs::Spelling::spelling))]
fn fill_object(out: &mut [u8], object: &Object)
    requires has { HasSpelling FIELDS (Slot.Live object.now) }
    requires size { length out.old ≡ slot_size (Slot.Live object.now) }
    ensures { out.new ≡ spelling (Slot.Live object.now) }
{
    let fields = object.fields.as_slice();
    let bytes = object.bytes.as_slice();
    let (head, rest) = out.split_at_mut(13);
    let (places, data) = rest.split_at_mut(12 * fields.len());
    fill_head(head, object.id, fields.len() as u16, bytes.len() as u16);
    fill_fields(places, fields);
    data.copy_from_slice(bytes);
}

#[tactic(auto, unfolding(crate::specs::Spelling::spelling))]
fn fill_moved(out: &mut [u8], to: &Addr)
    requires { length out.old ≡ 13 }
    ensures { out.new ≡ spelling (Slot.Moved to.now) }
{
    let (kind, address) = out.split_at_mut(1);
    kind.copy_from_slice(&[MOVED]);
    fill_address(address, to);
}

/// Writes the bytes of the slot over bytes, which are as many.
pub fn fill_slot(out: &mut [u8], slot: &Slot)
    requires has { HasSpelling FIELDS slot.now }
    requires size { length out.old ≡ slot_size slot.now }
    ensures { out.new ≡ spelling slot.now }
{
    match slot {
        Slot::Live(object) => fill_object(out, object),
        Slot::Moved(to) => fill_moved(out, to),
    }
}

/// Appends the bytes of the slot. After `NoMemory` nothing was appended. Where `out` has room for them it
/// takes no memory.
pub fn write_slot(slot: &Slot, out: &mut Vec<u8>) -> Result<(), NoMemory>
    requires { HasSpelling FIELDS slot.now }
    ensures ok { OnOk result (out.new.items ≡ out.old.items ++ spelling slot.now) }
    ensures err { OnErr result (out.new.items ≡ out.old.items) }
    ensures room { HasRoom out.old (slot_size slot.now) → IsOk result }
{
    let from = out.len();
    out.resize(from + size(slot) as usize, 0)?;
    fill_slot(&mut out[from..], slot);
    Ok(())
}
