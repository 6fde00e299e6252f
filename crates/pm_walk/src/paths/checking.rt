ghost use Rattle.std.specs.Prelude.{◌≡◌, ◌↔◌, IsTrue, IfSome, IfNone};
ghost use Rattle.pm_types.specs.declared.address.Addr.{Addr};
ghost use Rattle.pm_types.specs.declared.source.RefSource.TheVariants.{Field};
ghost use Rattle.pm_view.specs.Reading.{stored};
ghost use Rattle.pm_space.specs.Shown.{view};
ghost use Rattle.pm_walk.specs.Paths.Paths.{IsStep, LeadsOn, LeadsFrom, IsPath};

use crate::identity;
use crate::paths::path::{Path, PathStep};
use pm_space::{Parts, Space, object_at, resolve};
use pm_types::{Addr, Id};

// The address in a field of the object at an address.
fn field_at<F>(parts: &Parts<F>, at: Addr, index: u32) -> Option<Addr>
    ensures { result ≡ stored (view parts.now) (Field at index) }
{
    let object = object_at(&parts.cars, at)?;
    match object.fields.as_slice().get(index as usize) {
        Some(field) => *field,
        None => None,
    }
}

// Where a step leads from the object at an address; `None` where it leads nowhere.
fn follow<F>(parts: &Parts<F>, at: Addr, step: PathStep) -> Option<Addr>
    ensures some { IfSome result (IsStep (view parts.now) at step) }
    ensures none { IfNone result ((next : Addr) → IsStep (view parts.now) at step next → ⊥) }
{
    let to = field_at(parts, at, step.index)?;
    if identity(parts, to) == Some(step.id) {
        Some(resolve(&parts.cars, to))
    } else {
        None
    }
}

// Whether the steps lead from the object at an address, of this identity, to the other identity.
fn leads_on<F>(parts: &Parts<F>, start: Addr, first: Id, steps: &[PathStep], id: Id) -> bool
    ensures { IsTrue result ↔ LeadsOn (view parts.now) start first steps.now id }
{
    let mut at = start;
    let mut here = first;
    for step in steps {
        let Some(next) = follow(parts, at, *step) else {
            return false;
        };
        at = next;
        here = step.id;
    }
    here == id
}

// Whether steps lead from a name's address to an identity.
fn leads_from<F>(parts: &Parts<F>, bound: Addr, steps: &[PathStep], id: Id) -> bool
    ensures { IsTrue result ↔ LeadsFrom (view parts.now) bound steps.now id }
{
    let Some((first, rest)) = steps.split_first() else {
        return false;
    };
    if first.index != 0 || identity(parts, bound) != Some(first.id) {
        return false;
    }
    leads_on(parts, resolve(&parts.cars, bound), first.id, rest, id)
}

/// Whether the path leads through the space to the object of this identity. It takes no memory, and reads one object a
/// step.
pub fn check_path<F>(space: &Space<F>, id: Id, path: &Path) -> bool
    ensures { IsTrue result ↔ IsPath (view space.now.parts) id path.now }
{
    match space.parts.roots.find(path.name()) {
        Some((_, bound)) => leads_from(&space.parts, bound, path.steps(), id),
        None => false,
    }
}
