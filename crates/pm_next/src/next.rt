ghost use Rattle.std.specs.Prelude.{◌≡◌, [], None, IsSome};
ghost use Rattle.pm_trains.specs.Trains.{cars_at, first_car, oldest};
ghost use Rattle.pm_view.specs.declared.phase.Phase.TheVariants.{Draining, Moving};
ghost use Rattle.pm_view.specs.Candidates.{least_outside};
ghost use Rattle.pm_view.specs.Events.{idle_row, draining_row, moving_row, sweeping_row, doomed_rows, next_row, to_note, anchor_in, home, least, lowest_live};
ghost use Rattle.pm_space.specs.Shown.{view, IsLinked};
ghost use Rattle.pm_next.specs.Seen.{seen_row};

use crate::finding::{anchor_in, changed_car, has_change, lowest_live, to_note};
use crate::row::Row;
use crate::skipping::outside;
use crate::sources::{least, stale_now};
use crate::ways::home;
use pm_space::{Parts, Space};
use pm_types::Addr;
use pm_view::Phase;

// Where no collection is in progress: the oldest train that has a car is selected.
fn idle_row<F>(parts: &Parts<F>) -> Row
    ensures { seen_row result ≡ idle_row (oldest (view parts.now).trains.trains) }
{
    match parts.trains.oldest() {
        Some(train) => Row::Select { train },
        None => Row::Nothing,
    }
}

// Once no car of a train has a queued change: the train is doomed where nothing outside it names an object of it, and
// else its first car begins to be emptied.
fn drained_row<F>(parts: &Parts<F>, train: u64) -> Row
    requires linked { IsLinked (view parts.now) }
    requires stands { IsSome (cars_at parts.now.trains.trains train) }
    ensures { seen_row result
        ≡ draining_row train (first_car (view parts.now).trains.trains train) None (to_note (view parts.now) train) }
{
    let Some(at) = to_note(parts, train) else {
        return Row::Doom { train };
    };
    match parts.trains.first_car(train) {
        Some(car) => Row::Start { car, at },
        None => Row::Nothing,
    }
}

// While a train is drained: the first of its cars that has a queued change is looked for first.
fn draining_row<F: Drop>(space: &mut Space<F>, train: u64) -> Row
    requires { (view space.old.parts).phase ≡ Draining train }
    ensures row { seen_row result ≡ next_row (view space.old.parts) }
    ensures parts { space.new.parts ≡ space.old.parts }
{
    match changed_car(space, train) {
        Some(car) => Row::Apply { car },
        None => drained_row(&space.parts, train),
    }
}

// Once a car that is emptied has no queued change and no source to be fixed: the anchor moves, or else the object of
// the least source outside the train, or else that of the least source, and the car is swept where there is none.
fn leaving_row<F>(parts: &Parts<F>, car: u64) -> Row
    requires { IsLinked (view parts.now) }
    ensures { let v = view parts.now in let train = home v car in seen_row result
        ≡ moving_row car train [] None (anchor_in car v.anchor) (least_outside v train car) (least v car) }
{
    if let Some((at, train)) = anchor_in(parts, car) {
        return Row::MoveAnchor { at, train };
    }
    let train = home(parts, car);
    if let Some((_, slot)) = outside(parts, train, car) {
        let at = Addr { car, slot };
        return Row::MoveOut { at };
    }
    match least(parts, car) {
        Some((_, slot)) => {
            let at = Addr { car, slot };
            Row::MoveOn { at, train }
        }
        None => Row::Finish { car },
    }
}

// While a car is emptied: its queued changes come first, and then its sources that name a Moved slot.
fn moving_row<F: Drop>(space: &Space<F>, car: u64) -> Row
    requires { (view space.now.parts).phase ≡ Moving car }
    ensures { seen_row result ≡ next_row (view space.now.parts) }
{
    if has_change(&space.parts.links, car) {
        return Row::Apply { car };
    }
    if let Some((source, to)) = stale_now(space, car) {
        return Row::Fix { car, source, to };
    }
    leaving_row(&space.parts, car)
}

// While a car is swept: its lowest Live slot is, and then the car goes.
fn sweeping_row<F>(parts: &Parts<F>, car: u64) -> Row
    ensures { seen_row result ≡ sweeping_row car (lowest_live (view parts.now) car) }
{
    match lowest_live(parts, car) {
        Some(slot) => {
            let at = Addr { car, slot };
            Row::Sweep { at }
        }
        None => Row::Free { car },
    }
}

// While a doomed train goes: the same of its first car.
fn doomed_row<F>(parts: &Parts<F>, train: u64) -> Row
    ensures { seen_row result
        ≡ doomed_rows (view parts.now) train (first_car (view parts.now).trains.trains train) }
{
    let Some(car) = parts.trains.first_car(train) else {
        return Row::Nothing;
    };
    match lowest_live(parts, car) {
        Some(slot) => {
            let at = Addr { car, slot };
            Row::Sweep { at }
        }
        None => Row::FreeDoomed { train, car },
    }
}

/// The event that comes next. Nothing that is seen of the space changes: while a train is drained the place on its cars
/// before which none has a change goes on.
pub fn next_row<F: Drop>(space: &mut Space<F>) -> Row
    ensures row { seen_row result ≡ next_row (view space.old.parts) }
    ensures parts { space.new.parts ≡ space.old.parts }
{
    match space.parts.phase {
        Phase::Idle => idle_row(&space.parts),
        Phase::Draining(train) => draining_row(space, train),
        Phase::Moving(car) => moving_row(space, car),
        Phase::Sweeping(car) => sweeping_row(&space.parts, car),
        Phase::Doomed(train) => doomed_row(&space.parts, train),
    }
}
