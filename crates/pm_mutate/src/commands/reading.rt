ghost use Rattle.std.specs.Prelude.{◌≡◌, ◌<◌, IfOk};
ghost use Rattle.std.specs.Option.{option_copied};
ghost use Rattle.pm_types.specs.declared.limits.TheConstants.{CLIENTS};
ghost use Rattle.pm_view.specs.Reading.{object_at};
ghost use Rattle.pm_view.specs.Commands.{register, field_at, object_held, row_id, row_data};
ghost use Rattle.pm_space.specs.Shown.{view, cars_of};

use pm_snap::Table;
use pm_space::{Held, Parts, object_at, resolve};
use pm_types::{Addr, NoMemory, Object, Reg, Reply};
use std::alloc::Global;

/// What a register of a client stores, `None` where it is empty.
pub(crate) fn register<F>(parts: &Parts<F>, client: u32, reg: Reg) -> Option<Addr>
    requires { client < CLIENTS }
    ensures { result ≡ register (view parts.now) client reg }
{
    parts.handles.get(client, reg.number())
}

/// What a field of the object at an address stores; `None` where there is no such field.
pub(crate) fn field_at(cars: &Table<Held>, at: Addr, index: u32) -> Option<Option<Addr>>
    ensures { result ≡ field_at (object_at (cars_of cars.now) at) index }
{
    match object_at(cars, at) {
        Some(object) => object.fields.as_slice().get(index as usize).copied(),
        None => None,
    }
}

/// The object that a register's address leads to, lent; `None` where the register is empty.
pub(crate) fn object_held<F>(parts: &Parts<F>, held: Option<Addr>) -> Option<&Object>
    ensures { option_copied result ≡ object_held (view parts.now) held }
{
    match held {
        Some(at) => object_at(&parts.cars, resolve(&parts.cars, at)),
        None => None,
    }
}

/// The identity of what a register holds.
pub fn id<F>(parts: &Parts<F>, client: u32, reg: Reg) -> Reply
    requires { client < CLIENTS }
    ensures { (result, view parts.now) ≡ row_id (view parts.now)
        (object_held (view parts.now) (register (view parts.now) client reg)) }
{
    match object_held(parts, register(parts, client, reg)) {
        Some(object) => Reply::Ident(object.id),
        None => Reply::NoHandle,
    }
}

/// The bytes of what a register holds.
pub fn data<F>(parts: &Parts<F>, alloc: Global, client: u32, reg: Reg) -> Result<Reply, NoMemory>
    requires { client < CLIENTS }
    ensures { IfOk result (λ reply. (reply, view parts.now) ≡ row_data (view parts.now)
        (object_held (view parts.now) (register (view parts.now) client reg))) }
{
    match object_held(parts, register(parts, client, reg)) {
        Some(object) => {
            let bytes = object.bytes.copy(alloc)?;
            Ok(Reply::Shown(bytes))
        }
        None => Ok(Reply::NoHandle),
    }
}
