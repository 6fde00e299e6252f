ghost use Rattle.std.specs.Prelude.{◌≡◌, ◌<◌, ◌^◌, IfSome, length};
ghost use Rattle.std.specs.Option.{option_copied};
ghost use Rattle.pm_view.specs.Reading.{stored, followed, slot_at, object_at, field_of};
ghost use Rattle.pm_space.specs.Shown.{view, cars_of, HasFieldAt, IsThere};

use crate::held::Held;
use crate::parts::Parts;
use pm_cars::Look;
use pm_snap::Table;
use pm_types::{Addr, Object, RefSource};

/// Where an address leads: through a Moved slot one step, and else nowhere else.
pub fn resolve(cars: &Table<Held>, at: Addr) -> Addr
    ensures { result ≡ followed (slot_at (cars_of cars.now) at) at }
{
    let Some(held) = cars.get(at.car) else {
        return at;
    };
    match held.car.look(at.slot) {
        Look::Moved(to) => to,
        Look::Live => at,
        Look::Gone => at,
    }
}

/// The object at an address, lent; `None` where there is none.
pub fn object_at(cars: &Table<Held>, at: Addr) -> Option<&Object>
    ensures object { option_copied result ≡ object_at (cars_of cars.now) at }
    ensures small { IfSome result (λ object. length object.now.fields < 2 ^ 32) }
{
    let Some(held) = cars.get(at.car) else {
        return None;
    };
    match held.car.look(at.slot) {
        Look::Live => Some(held.car.object(at.slot)),
        Look::Moved(_) => None,
        Look::Gone => None,
    }
}

// The address in a field of an object that stands.
fn field(cars: &Table<Held>, at: Addr, index: u32) -> Option<Addr>
    requires { HasFieldAt (cars_of cars.now) at index }
    ensures { result ≡ field_of (object_at (cars_of cars.now) at) index }
{
    match cars.get(at.car) {
        Some(held) => held.car.field(at.slot, index),
        None => unreachable!(),
    }
}

/// The address that the source stores.
pub(crate) fn stored<F>(parts: &Parts<F>, source: RefSource) -> Option<Addr>
    requires { IsThere (view parts.now) source }
    ensures { result ≡ stored (view parts.now) source }
{
    match source {
        RefSource::Root(number) => parts.roots.at(number),
        RefSource::Handle { client, register } => parts.handles.get(client, register),
        RefSource::Field { at, index } => field(&parts.cars, at, index),
    }
}
