ghost use Rattle.std.specs.Prelude.{◌≡◌, OnOk, OnErr};
ghost use Rattle.pm_view.specs.Collecting.{applied_in};
ghost use Rattle.pm_space.specs.Shown.{view, KeepsRest};

use pm_space::Parts;
use pm_types::NoMemory;

/// The front change of a car's queue goes into the car's remembered set: the set takes it, and then the queue loses
/// it. Where no change waits nothing is done. After want of memory all is as it was.
pub fn apply<F>(parts: &mut Parts<F>, car: u64) -> Result<(), NoMemory>
    ensures ok { OnOk result (view parts.new ≡ applied_in (view parts.old) car) }
    ensures err { OnErr result (view parts.new ≡ view parts.old) }
    ensures rest { KeepsRest parts.old parts.new }
{
    parts.links.apply_front(car)
}
