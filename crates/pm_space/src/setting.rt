ghost use Rattle.std.specs.Prelude.{◌≡◌, IfSome, IsSome, OnOk, OnErr};
ghost use Rattle.pm_types.specs.Mapped.{mapped};
ghost use Rattle.pm_cars.specs.Cars.{with_field};
ghost use Rattle.pm_roots.specs.Bindings.{address_at};
ghost use Rattle.pm_view.specs.Rows.{readdressed, with_object, with_stored, HasValue};
ghost use Rattle.pm_space.specs.Shown.{view, cars_of, HasFieldAt, IsThere, KeepsRest};

use crate::held::Held;
use crate::parts::Parts;
use pm_roots::Roots;
use pm_snap::Table;
use pm_types::{Addr, NoMemory, RefSource};

// Sets the address under a number that some name has.
fn set_root(roots: &mut Roots, number: u64, to: Option<Addr>)
    requires bound { IsSome (address_at roots.old number) }
    requires value { IsSome to }
    ensures { IfSome to (λ a. roots.new ≡ mapped (readdressed number a) roots.old) }
{
    if let Some(at) = to {
        roots.set(number, at);
    }
}

// Sets a field that is there.
fn set_field(cars: &mut Table<Held>, at: Addr, index: u32, to: Option<Addr>) -> Result<(), NoMemory>
    requires { HasFieldAt (cars_of cars.old) at index }
    ensures ok { OnOk result (cars_of cars.new ≡ with_object (cars_of cars.old) at
        (λ object. with_field object index to)) }
    ensures err { OnErr result (cars.new ≡ cars.old) }
    ensures frozen { cars.new.frozen ≡ cars.old.frozen }
{
    let held = cars.change(at.car)?;
    held.car.set_field(at.slot, index, to);
    Ok(())
}

/// Lets the source store the address, of which nobody hears. What is frozen stays. After want of memory all
/// is as it was.
pub fn set<F>(parts: &mut Parts<F>, source: RefSource, to: Option<Addr>) -> Result<(), NoMemory>
    requires there { IsThere (view parts.old) source }
    requires value { HasValue source to }
    ensures ok { OnOk result (view parts.new ≡ with_stored (view parts.old) source to) }
    ensures err { OnErr result (view parts.new ≡ view parts.old) }
    ensures links { parts.new.links ≡ parts.old.links }
    ensures trains { parts.new.trains ≡ parts.old.trains }
    ensures phase { parts.new.phase ≡ parts.old.phase }
    ensures rest { KeepsRest parts.old parts.new }
{
    match source {
        RefSource::Root(number) => {
            set_root(&mut parts.roots, number, to);
            Ok(())
        }
        RefSource::Handle { client, register } => {
            parts.handles.set(client, register, to);
            Ok(())
        }
        RefSource::Field { at, index } => set_field(&mut parts.cars, at, index, to),
    }
}
