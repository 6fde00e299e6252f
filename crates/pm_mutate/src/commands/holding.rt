ghost use Rattle.std.specs.Prelude.{◌≡◌, ◌<◌, OnOk, OnErr};
ghost use Rattle.std.specs.FinMap.{get};
ghost use Rattle.pm_types.specs.declared.limits.TheConstants.{CLIENTS};
ghost use Rattle.pm_types.specs.declared.source.RefSource.TheVariants.{Handle};
ghost use Rattle.pm_view.specs.Reading.{object_at};
ghost use Rattle.pm_view.specs.Rows.{spread};
ghost use Rattle.pm_view.specs.Commands.{register, hold, row_copy, row_drop, row_find, row_load, load_field, field_at};
ghost use Rattle.pm_space.specs.Linked.{sets_of, AreHoused};
ghost use Rattle.pm_space.specs.Shown.{view, KeepsRest, MakesRow};

use crate::commands::reading::{field_at, register};
use pm_space::{Parts, object_at, resolve, spread};
use pm_types::{Addr, Name, NoMemory, RefSource, Reg, Reply};

// Lets a register store an address, or nothing.
fn set_register<F>(
    parts: &mut Parts<F>,
    client: u32,
    to: Reg,
    at: Option<Addr>,
) -> Result<(), NoMemory>
    requires client { client < CLIENTS }
    requires housed { AreHoused (sets_of parts.old.links) parts.old.trains.trains }
    ensures ok { OnOk result (view parts.new ≡ spread (view parts.old) (Handle client to) at) }
    ensures err { OnErr result (view parts.new ≡ view parts.old) }
    ensures rest { KeepsRest parts.old parts.new }
{
    let register = to.number();
    spread(parts, RefSource::Handle { client, register }, at)
}

// Lets a register hold the object at an address, and answers its identity.
fn hold<F>(parts: &mut Parts<F>, client: u32, to: Reg, at: Addr) -> Result<Reply, NoMemory>
    requires client { client < CLIENTS }
    requires housed { AreHoused (sets_of parts.old.links) parts.old.trains.trains }
    ensures row { MakesRow parts.old parts.new result
        (λ reply. (reply, view parts.new) ≡ hold (view parts.old) client to at
        (object_at (view parts.old).cars at)) }
{
    let Some(object) = object_at(&parts.cars, at) else {
        return Ok(Reply::NoHandle);
    };
    let id = object.id;
    set_register(parts, client, to, Some(at))?;
    Ok(Reply::Ident(id))
}

/// `copy`: a register holds what another one holds.
pub fn copy<F>(parts: &mut Parts<F>, client: u32, to: Reg, reg: Reg) -> Result<Reply, NoMemory>
    requires client { client < CLIENTS }
    requires housed { AreHoused (sets_of parts.old.links) parts.old.trains.trains }
    ensures row { MakesRow parts.old parts.new result
        (λ reply. (reply, view parts.new) ≡ row_copy (view parts.old) client to
        (register (view parts.old) client reg)) }
{
    match register(parts, client, reg) {
        Some(held) => {
            let at = resolve(&parts.cars, held);
            hold(parts, client, to, at)
        }
        None => Ok(Reply::NoHandle),
    }
}

/// `find`: a register holds what a name stands for.
pub fn find<F>(parts: &mut Parts<F>, client: u32, to: Reg, name: &Name) -> Result<Reply, NoMemory>
    requires client { client < CLIENTS }
    requires housed { AreHoused (sets_of parts.old.links) parts.old.trains.trains }
    ensures row { MakesRow parts.old parts.new result
        (λ reply. (reply, view parts.new) ≡ row_find (view parts.old) client to
        (get (view parts.old).roots name.now)) }
{
    match parts.roots.find(name) {
        Some((_, stored)) => {
            let at = resolve(&parts.cars, stored);
            hold(parts, client, to, at)
        }
        None => Ok(Reply::NoRoot),
    }
}

// A register holds what a field stores, and is empty where the field is null.
fn load_field<F>(
    parts: &mut Parts<F>,
    client: u32,
    to: Reg,
    field: Option<Option<Addr>>,
) -> Result<Reply, NoMemory>
    requires client { client < CLIENTS }
    requires housed { AreHoused (sets_of parts.old.links) parts.old.trains.trains }
    ensures row { MakesRow parts.old parts.new result
        (λ reply. (reply, view parts.new) ≡ load_field (view parts.old) client to field) }
{
    match field {
        Some(Some(stored)) => {
            let at = resolve(&parts.cars, stored);
            hold(parts, client, to, at)
        }
        Some(None) => {
            set_register(parts, client, to, None)?;
            Ok(Reply::Null)
        }
        None => Ok(Reply::NoField),
    }
}

/// `load`: a register holds what a field stores of the object that another one holds.
pub fn load<F>(
    parts: &mut Parts<F>,
    client: u32,
    to: Reg,
    reg: Reg,
    index: u32,
) -> Result<Reply, NoMemory>
    requires client { client < CLIENTS }
    requires housed { AreHoused (sets_of parts.old.links) parts.old.trains.trains }
    ensures row { MakesRow parts.old parts.new result
        (λ reply. (reply, view parts.new) ≡ row_load (view parts.old) client to index
        (register (view parts.old) client reg)) }
{
    match register(parts, client, reg) {
        Some(held) => {
            let field = field_at(&parts.cars, resolve(&parts.cars, held), index);
            load_field(parts, client, to, field)
        }
        None => Ok(Reply::NoHandle),
    }
}

/// `drop`: a register is empty.
pub fn forget<F>(parts: &mut Parts<F>, client: u32, reg: Reg) -> Result<Reply, NoMemory>
    requires client { client < CLIENTS }
    requires housed { AreHoused (sets_of parts.old.links) parts.old.trains.trains }
    ensures row { MakesRow parts.old parts.new result
        (λ reply. (reply, view parts.new) ≡ row_drop (view parts.old) client reg
        (register (view parts.old) client reg)) }
{
    match register(parts, client, reg) {
        Some(_) => {
            set_register(parts, client, reg, None)?;
            Ok(Reply::Done)
        }
        None => Ok(Reply::NoHandle),
    }
}
