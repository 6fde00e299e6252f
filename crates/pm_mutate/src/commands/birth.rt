ghost use Rattle.std.specs.Prelude.{◌≡◌, ◌≤◌, ◌<◌, ◌||◌, nat_lt, length, Some};
ghost use Rattle.std.specs.FinMap.{get};
ghost use Rattle.pm_types.specs.declared.limits.TheConstants.{CLIENTS, REGISTERS, FIELDS, OBJECT_BYTES};
ghost use Rattle.pm_types.specs.declared.source.RefSource.TheVariants.{Handle};
ghost use Rattle.pm_view.specs.Law.{HeapLaw};
ghost use Rattle.pm_view.specs.Rows.{spread};
ghost use Rattle.pm_space.specs.Linked.{sets_of, AreHoused, HasRoom, HasRoomFor};
ghost use Rattle.pm_space.specs.Shown.{view, KeepsRest, MakesRow};
ghost use Rattle.pm_mutate.specs.Commands.Births.{IsHeldNew, IsRowOfNew};

use crate::births::{be_born, fresh};
use crate::commands::reading::register;
use pm_space::{Parts, make_room, tell_all};
use pm_types::{
    Addr, Bytes, FIELDS, LAST_ID, NoMemory, OBJECT_BYTES, Object, RefSource, Reg, Reply,
};
use std::alloc::Global;

/// Lets a register hold an object, in room that was made before.
pub(crate) fn hold_in_room<F>(parts: &mut Parts<F>, client: u32, register: u32, at: Addr)
    requires client { client < CLIENTS }
    requires register { register < REGISTERS }
    requires housed { AreHoused (sets_of parts.old.links) parts.old.trains.trains }
    requires old_room { HasRoomFor parts.old.links (get (view parts.old).registers (client, register)) }
    requires new_room { HasRoom parts.old.links at.car 1 }
    ensures view { view parts.new ≡ spread (view parts.old) (Handle client register) (Some at) }
    ensures rest { KeepsRest parts.old parts.new }
{
    let old = parts.handles.set(client, register, Some(at));
    tell_all(
        &mut parts.links,
        &parts.trains,
        parts.phase,
        RefSource::Handle { client, register },
        old,
        Some(at),
    );
}

// The object is born under the next identity, and a register holds it.
fn hold_new<F>(
    parts: &mut Parts<F>,
    alloc: Global,
    client: u32,
    reg: Reg,
    object: Object,
) -> Result<Reply, NoMemory>
    requires client { client < CLIENTS }
    requires law { HeapLaw (view parts.old) }
    requires fields { length object.fields ≤ FIELDS }
    requires bytes { length object.bytes ≤ OBJECT_BYTES }
    requires next { parts.old.next ≤ 4294967295 }
    ensures row { MakesRow parts.old parts.new result
        (λ reply. IsHeldNew (view parts.old) client reg object (reply, view parts.new)) }
{
    let old = register(parts, client, reg);
    make_room(&mut parts.links, old, None)?;
    let next = parts.next + 1;
    let id = object.id;
    let at = be_born(parts, alloc, object)?;
    parts.next = next;
    hold_in_room(parts, client, reg.number(), at);
    Ok(Reply::Ident(id))
}

// Whether an object of so many fields and these bytes is over the limits.
fn is_too_large(count: u32, bytes: &Bytes) -> bool
    ensures { result ≡ (nat_lt FIELDS count || nat_lt OBJECT_BYTES (length bytes.now)) }
{
    count > FIELDS || bytes.as_slice().len() > OBJECT_BYTES
}

/// `new`: an object of so many null fields and these bytes is born in the open train, and a register holds it. A
/// new train is opened where 1,024 objects were born in the open one. Want of memory is answered too where the
/// open train's number has reached its bound, 2^62.
pub fn new<F>(
    parts: &mut Parts<F>,
    alloc: Global,
    client: u32,
    reg: Reg,
    count: u32,
    bytes: &Bytes,
) -> Result<Reply, NoMemory>
    requires client { client < CLIENTS }
    requires law { HeapLaw (view parts.old) }
    ensures row { MakesRow parts.old parts.new result
        (λ reply. IsRowOfNew (view parts.old) client reg count bytes.now (reply, view parts.new)) }
{
    // For the proof alone: the number that a new car would get is one that no car has.
    let _number = parts.cars.vacant();
    if is_too_large(count, bytes) {
        return Ok(Reply::TooLarge);
    }
    if parts.next > LAST_ID as u64 {
        return Ok(Reply::IdsSpent);
    }
    let object = fresh(alloc, parts.next as u32, count, bytes.as_slice())?;
    hold_new(parts, alloc, client, reg, object)
}
