//! What registers hold and fields name, in the nursery or else in the space.

ghost use Rattle.std.specs.Prelude.{◌≡◌, ◌<◌};
ghost use Rattle.pm_types.specs.declared.limits.TheConstants.{CLIENTS};
ghost use Rattle.pm_view.specs.Represents.{names};
ghost use Rattle.pm_space.specs.Shown.{view};
ghost use Rattle.pm_young.specs.Reading.{field_here, field_in_space, held_here, held_in_space};

use pm_nursery::Nursery;
use pm_space::{Space, object_at, resolve};
use pm_types::{Addr, Id, Reg};

// The identity of the object to which an address leads; `None` where it is null or leads to none.
fn named<F: Drop>(space: &Space<F>, at: Option<Addr>) -> Option<Id>
    ensures { result ≡ names (view space.now.parts) at }
{
    let Some(at) = at else {
        return None;
    };
    match object_at(&space.parts.cars, resolve(&space.parts.cars, at)) {
        Some(object) => Some(object.id),
        None => None,
    }
}

// What a register holds in the space.
fn held_in_space<F: Drop>(space: &Space<F>, client: u32, reg: Reg) -> Option<Id>
    requires { client < CLIENTS }
    ensures { result ≡ held_in_space (view space.now.parts) client reg }
{
    named(space, space.parts.handles.get(client, reg.number()))
}

// What a field holds of the object that a register holds in the space; `None` where there is no such object or field.
fn field_in_space<F: Drop>(
    space: &Space<F>,
    client: u32,
    reg: Reg,
    index: u32,
) -> Option<Option<Id>>
    requires { client < CLIENTS }
    ensures { result ≡ field_in_space (view space.now.parts) client reg index }
{
    let Some(at) = space.parts.handles.get(client, reg.number()) else {
        return None;
    };
    let Some(object) = object_at(&space.parts.cars, resolve(&space.parts.cars, at)) else {
        return None;
    };
    match object.fields.as_slice().get(index as usize).copied() {
        Some(stored) => Some(named(space, stored)),
        None => None,
    }
}

/// What a register holds: a young object, or one within.
pub(crate) fn held_here<F: Drop>(
    space: &Space<F>,
    nursery: &Nursery,
    client: u32,
    reg: Reg,
) -> Option<Id>
    requires { client < CLIENTS }
    ensures { result ≡ held_here (view space.now.parts) nursery.now client reg }
{
    match nursery.held(client, reg.number()) {
        Some(id) => Some(id),
        None => held_in_space(space, client, reg),
    }
}

/// What a field of the object holds that a register holds, whose identity this is; `None` where there is no such field.
pub(crate) fn field_here<F: Drop>(
    space: &Space<F>,
    nursery: &Nursery,
    client: u32,
    reg: Reg,
    id: Id,
    index: u32,
) -> Option<Option<Id>>
    requires { client < CLIENTS }
    ensures { result ≡ field_here (view space.now.parts) nursery.now client reg id index }
{
    match nursery.get(id) {
        Some(young) => young.fields().get(index as usize).copied(),
        None => field_in_space(space, client, reg, index),
    }
}
