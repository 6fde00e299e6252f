ghost use Rattle.std.specs.Prelude.{◌≡◌, ◌<◌, Some};
ghost use Rattle.std.specs.Option.{option_map};
ghost use Rattle.pm_types.specs.declared.limits.TheConstants.{CLIENTS};
ghost use Rattle.pm_types.specs.declared.source.RefSource.TheVariants.{Field};
ghost use Rattle.pm_view.specs.Reading.{resolve, object_at};
ghost use Rattle.pm_view.specs.Rows.{spread};
ghost use Rattle.pm_view.specs.Commands.{register, field_at, set_field, row_store, row_clear, swap_field, named_in, object_held, row_swap};
ghost use Rattle.pm_space.specs.Linked.{sets_of, AreHoused};
ghost use Rattle.pm_space.specs.Shown.{view, MakesRow};

use crate::commands::reading::{field_at, object_held, register};
use pm_space::{Parts, resolve, spread};
use pm_types::{Addr, Id, NoMemory, RefSource, Reg, Reply};

// A field of the object at an address stores this, where there is such a field.
fn set_field<F>(
    parts: &mut Parts<F>,
    at: Addr,
    index: u32,
    value: Option<Addr>,
) -> Result<Reply, NoMemory>
    requires housed { AreHoused (sets_of parts.old.links) parts.old.trains.trains }
    ensures row { MakesRow parts.old parts.new result
        (λ reply. (reply, view parts.new) ≡ set_field (view parts.old) at index value) }
{
    match field_at(&parts.cars, at, index) {
        Some(_) => {
            spread(parts, RefSource::Field { at, index }, value)?;
            Ok(Reply::Done)
        }
        None => Ok(Reply::NoField),
    }
}

/// `store`: a field of the object that a register holds stores what another one holds.
pub fn store<F>(
    parts: &mut Parts<F>,
    client: u32,
    reg: Reg,
    index: u32,
    value: Reg,
) -> Result<Reply, NoMemory>
    requires client { client < CLIENTS }
    requires housed { AreHoused (sets_of parts.old.links) parts.old.trains.trains }
    ensures row { MakesRow parts.old parts.new result
        (λ reply. (reply, view parts.new) ≡ row_store (view parts.old) index
        (register (view parts.old) client reg) (register (view parts.old) client value)) }
{
    let Some(held) = register(parts, client, reg) else {
        return Ok(Reply::NoHandle);
    };
    let Some(stored) = register(parts, client, value) else {
        return Ok(Reply::NoHandle);
    };
    let at = resolve(&parts.cars, held);
    let value = resolve(&parts.cars, stored);
    set_field(parts, at, index, Some(value))
}

/// `clear`: a field of the object that a register holds is null.
pub fn clear<F>(parts: &mut Parts<F>, client: u32, reg: Reg, index: u32) -> Result<Reply, NoMemory>
    requires client { client < CLIENTS }
    requires housed { AreHoused (sets_of parts.old.links) parts.old.trains.trains }
    ensures row { MakesRow parts.old parts.new result
        (λ reply. (reply, view parts.new) ≡ row_clear (view parts.old) index
        (register (view parts.old) client reg)) }
{
    let Some(held) = register(parts, client, reg) else {
        return Ok(Reply::NoHandle);
    };
    let at = resolve(&parts.cars, held);
    set_field(parts, at, index, None)
}

// The identity of the object to which an address leads; `None` where the address is null or leads to none.
fn id_held<F>(parts: &Parts<F>, held: Option<Addr>) -> Option<Id>
    ensures { result ≡ option_map (λ object. object.id) (object_held (view parts.now) held) }
{
    match object_held(parts, held) {
        Some(object) => Some(object.id),
        None => None,
    }
}

// A field that is there and stores the address of the old object stores this one.
fn swap_held<F>(
    parts: &mut Parts<F>,
    at: Addr,
    index: u32,
    stored: Addr,
    old: Addr,
    value: Addr,
) -> Result<Reply, NoMemory>
    requires housed { AreHoused (sets_of parts.old.links) parts.old.trains.trains }
    requires field { field_at (object_at (view parts.old).cars at) index ≡ Some (Some stored) }
    ensures row { MakesRow parts.old parts.new result
        (λ reply. (reply, view parts.new) ≡ swap_field (view parts.old) at index (Some (Some stored))
        (object_held (view parts.old) (Some stored)) (object_held (view parts.old) (Some old)) value) }
{
    let Some(found) = id_held(parts, Some(stored)) else {
        return Ok(Reply::NoHandle);
    };
    let Some(wanted) = id_held(parts, Some(old)) else {
        return Ok(Reply::NoHandle);
    };
    if found != wanted {
        return Ok(Reply::Held(found));
    }
    spread(parts, RefSource::Field { at, index }, Some(value))?;
    Ok(Reply::Done)
}

// A field of the object at an address stores this one, where it stores the old one.
fn swap_at<F>(
    parts: &mut Parts<F>,
    at: Addr,
    index: u32,
    old: Addr,
    value: Addr,
) -> Result<Reply, NoMemory>
    requires housed { AreHoused (sets_of parts.old.links) parts.old.trains.trains }
    ensures row { MakesRow parts.old parts.new result
        (λ reply. let field = field_at (object_at (view parts.old).cars at) index in
        (reply, view parts.new) ≡ swap_field (view parts.old) at index field
        (named_in (view parts.old) field) (object_held (view parts.old) (Some old)) value) }
{
    match field_at(&parts.cars, at, index) {
        Some(Some(stored)) => swap_held(parts, at, index, stored, old, value),
        Some(None) => Ok(Reply::Null),
        None => Ok(Reply::NoField),
    }
}

/// `swap`: a field of the object that a register holds stores what `value` holds, where it stores the object
/// that `old` holds. Objects are compared, and not addresses.
pub fn swap<F>(
    parts: &mut Parts<F>,
    client: u32,
    reg: Reg,
    index: u32,
    old: Reg,
    value: Reg,
) -> Result<Reply, NoMemory>
    requires client { client < CLIENTS }
    requires housed { AreHoused (sets_of parts.old.links) parts.old.trains.trains }
    ensures row { MakesRow parts.old parts.new result
        (λ reply. let v = view parts.old in (reply, view parts.new) ≡ row_swap v index
        (register v client reg) (register v client old) (register v client value)) }
{
    let Some(held) = register(parts, client, reg) else {
        return Ok(Reply::NoHandle);
    };
    let Some(old) = register(parts, client, old) else {
        return Ok(Reply::NoHandle);
    };
    let Some(value) = register(parts, client, value) else {
        return Ok(Reply::NoHandle);
    };
    let at = resolve(&parts.cars, held);
    let value = resolve(&parts.cars, value);
    swap_at(parts, at, index, old, value)
}
