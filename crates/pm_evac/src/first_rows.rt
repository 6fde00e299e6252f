ghost use Rattle.std.specs.Prelude.{◌≡◌, ◌<◌, length, OnOk, OnErr};
ghost use Rattle.pm_trains.specs.Trains.{HasCar};
ghost use Rattle.pm_place.specs.Choosers.{IsChooser};
ghost use Rattle.pm_view.specs.Collecting.{selected};
ghost use Rattle.pm_view.specs.Events.{select, doom, start, next_row, ways_out};
ghost use Rattle.pm_view.specs.Law.{HeapLaw};
ghost use Rattle.pm_space.specs.Shown.{view, KeepsRest, MakesRow};
ghost use Rattle.pm_evac.specs.Noted.{IsAnchored};
ghost use Rattle.pm_evac.specs.Steps.{IsChosenEvent};

use pm_law_collect::there_is_a_train_to_pick;
use pm_next::ways::pick_way;
use pm_space::Parts;
use pm_trains::MOST_TRAINS;
use pm_types::{Addr, NoMemory, Step};
use pm_view::Phase;
use std::alloc::Global;

// A train that has a car is selected, after a new open train was opened where it is the open one. Want of memory is
// answered too where the open train's number is at its bound. After that answer all is as it was.
fn select_train<F>(parts: &mut Parts<F>, alloc: Global, train: u64) -> Result<(), NoMemory>
    requires { HasCar parts.old.trains.trains train }
    ensures ok { OnOk result (view parts.new ≡ selected (view parts.old) train) }
    ensures err { OnErr result (view parts.new ≡ view parts.old) }
    ensures rest { KeepsRest parts.old parts.new }
{
    if train == parts.trains.youngest() {
        if train >= MOST_TRAINS {
            return Err(NoMemory::uncountable(train));
        }
        parts.trains.rotate(alloc)?;
    }
    parts.phase = Phase::Draining(train);
    Ok(())
}

/// Makes the next event where this train is selected: it is drained from now on, and where it is the open one a new one
/// is opened first. Want of memory is answered too where it is the open train and its number is `MOST_TRAINS`. After
/// that answer all is as it was.
pub(crate) fn select_at<F: Fn(&[u64]) -> usize + Drop>(
    parts: &mut Parts<F>,
    alloc: Global,
    train: u64,
) -> Result<Step, NoMemory>
    requires law { HeapLaw (view parts.old) }
    requires row { next_row (view parts.old) ≡ select train }
    ensures row { MakesRow parts.old parts.new result
        (λ step. IsChosenEvent F.Fn parts.old.place (view parts.old) (view parts.new) step) }
{
    select_train(parts, alloc, train)?;
    Ok(Step::Selected { train })
}

/// Makes the next event where this train is doomed: it is given up whole, and an anchor is cleared.
pub(crate) fn doom_at<F: Fn(&[u64]) -> usize + Drop>(parts: &mut Parts<F>, train: u64) -> Step
    requires { next_row (view parts.old) ≡ doom train }
    ensures event { IsChosenEvent F.Fn parts.old.place (view parts.old) (view parts.new) result }
    ensures rest { KeepsRest parts.old parts.new }
{
    parts.guard.clear();
    parts.phase = Phase::Doomed(train);
    Step::Doomed { train }
}

// Where no anchor stands the object at an address is noted, with the train that the chooser picks. It answers whether
// one was. After want of memory all is as it was.
fn note<F: Fn(&[u64]) -> usize + Drop>(
    parts: &mut Parts<F>,
    alloc: Global,
    at: Addr,
) -> Result<bool, NoMemory>
    requires chooser { IsChooser F.Fn parts.old.place }
    requires law { HeapLaw (view parts.old) }
    requires some { 0 < length (ways_out (view parts.old) at) }
    ensures row { MakesRow parts.old parts.new result
        (λ noted. IsAnchored F.Fn parts.old.place (view parts.old) (view parts.new) at noted) }
{
    match parts.guard.anchor() {
        Some(_) => Ok(false),
        None => {
            let train = pick_way(parts, alloc, at)?;
            parts.guard.note(at, train);
            Ok(true)
        }
    }
}

/// Makes the next event where this car begins to be emptied, and where no anchor stands the object at an address is
/// noted, with a train that the chooser picks. After want of memory all is as it was.
pub(crate) fn start_at<F: Fn(&[u64]) -> usize + Drop>(
    parts: &mut Parts<F>,
    alloc: Global,
    car: u64,
    at: Addr,
) -> Result<Step, NoMemory>
    requires chooser { IsChooser F.Fn parts.old.place }
    requires law { HeapLaw (view parts.old) }
    requires row { next_row (view parts.old) ≡ start car at }
    ensures row { MakesRow parts.old parts.new result
        (λ step. IsChosenEvent F.Fn parts.old.place (view parts.old) (view parts.new) step) }
{
    there_is_a_train_to_pick();
    let anchored = note(parts, alloc, at)?;
    parts.phase = Phase::Moving(car);
    Ok(Step::Started { car, anchored })
}
