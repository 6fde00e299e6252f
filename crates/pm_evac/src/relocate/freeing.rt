ghost use Rattle.std.specs.Prelude.{◌≡◌, IsSome, OnOk, OnErr};
ghost use Rattle.std.specs.FinMap.{get};
ghost use Rattle.pm_trains.specs.Trains.{HasCar};
ghost use Rattle.pm_view.specs.Collecting.{finished, without_car};
ghost use Rattle.pm_space.specs.Shown.{view, KeepsRest};
ghost use Rattle.pm_evac.specs.Relocate.Changed.{freed};

use pm_space::Parts;
use pm_types::NoMemory;
use pm_view::Phase;

/// No object of a car moves any more, so the car is swept from now on.
pub fn finish<F>(parts: &mut Parts<F>, car: u64)
    ensures view { view parts.new ≡ finished (view parts.old) car }
    ensures rest { KeepsRest parts.old parts.new }
{
    parts.phase = Phase::Sweeping(car);
}

// Takes a car out that is the first one of a train, with its links. After want of memory all is as it was.
fn take_out<F>(parts: &mut Parts<F>, train: u64, car: u64) -> Result<(), NoMemory>
    requires there { IsSome (get (view parts.old).cars car) }
    requires first { HasCar parts.old.trains.trains train }
    ensures ok { OnOk result (view parts.new ≡ without_car (view parts.old) train car) }
    ensures err { OnErr result (view parts.new ≡ view parts.old) }
    ensures rest { KeepsRest parts.old parts.new }
{
    parts.cars.remove(car)?;
    parts.links.remove(car);
    parts.trains.remove_first(train);
    Ok(())
}

/// A car that is the first one of a train goes, with its remembered set and its queue; where the collection is
/// completed by it that is counted, and none is in progress. After want of memory all is as it was.
pub fn free<F>(parts: &mut Parts<F>, train: u64, car: u64, completes: bool) -> Result<(), NoMemory>
    requires there { IsSome (get (view parts.old).cars car) }
    requires first { HasCar parts.old.trains.trains train }
    ensures ok { OnOk result (view parts.new ≡ freed (view parts.old) train car completes) }
    ensures err { OnErr result (view parts.new ≡ view parts.old) }
    ensures rest { KeepsRest parts.old parts.new }
{
    take_out(parts, train, car)?;
    if completes {
        parts.phase = Phase::Idle;
        parts.completed = parts.completed.saturating_add(1);
    }
    Ok(())
}
