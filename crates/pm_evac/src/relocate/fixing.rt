ghost use Rattle.std.specs.Prelude.{◌≡◌, IsSome, OnOk, OnErr};
ghost use Rattle.std.specs.FinMap.{get};
ghost use Rattle.pm_view.specs.Collecting.{fixed};
ghost use Rattle.pm_space.specs.Linked.{sets_of, AreHoused};
ghost use Rattle.pm_space.specs.Shown.{view, IsThere, KeepsRest};

use pm_space::{Parts, make_room, set, tell_all};
use pm_types::{Addr, NoMemory, RefSource};

/// A source that a car remembers stores the address to which the object went: it leaves the car's remembered set, and
/// the car of the new address hears of it. After want of memory all is as it was.
pub fn fix<F>(parts: &mut Parts<F>, car: u64, source: RefSource, to: Addr) -> Result<(), NoMemory>
    requires there { IsThere (view parts.old) source }
    requires car { IsSome (get (view parts.old).sets car) }
    requires housed { AreHoused (sets_of parts.old.links) parts.old.trains.trains }
    ensures ok { OnOk result (view parts.new ≡ fixed (view parts.old) car source to) }
    ensures err { OnErr result (view parts.new ≡ view parts.old) }
    ensures rest { KeepsRest parts.old parts.new }
{
    make_room(&mut parts.links, None, Some(to))?;
    set(parts, source, Some(to))?;
    tell_all(
        &mut parts.links,
        &parts.trains,
        parts.phase,
        source,
        None,
        Some(to),
    );
    parts.links.forget(car, source);
    Ok(())
}
