ghost use Rattle.std.specs.Prelude.{◌≡◌, ◌+◌, ◌==◌, ◌&&◌, cond, is_some, IsSome};
ghost use Rattle.std.specs.FinMap as map;
ghost use Rattle.pm_trains.specs.Trains.{train_of};
ghost use Rattle.pm_view.specs.Sources.{outside};
ghost use Rattle.pm_view.specs.Reading.{aside_in};
ghost use Rattle.pm_view.specs.Barrier.{heard, entered, barrier, in_one_car};
ghost use Rattle.pm_space.specs.Linked.{sets_of, HasRoom, HasRoomFor, AreHoused, told_by, UsesRoom, Tells, is_heard, left_for_another};

use crate::links::LinkTable;
use pm_trains::{Trains, a_car_is_found_where_it_stands};
use pm_types::{Addr, Change, RefSource};
use pm_view::Phase;

/// Whether a car that is in a train is set aside.
pub fn is_aside(trains: &Trains, phase: Phase, car: u64) -> bool
    requires { IsSome (train_of trains.now.trains car) }
    ensures { result ≡ aside_in phase trains.now.trains car }
{
    match phase {
        Phase::Idle | Phase::Draining(_) | Phase::Moving(_) => false,
        Phase::Sweeping(from) => from == car,
        Phase::Doomed(train) => {
            trains.sound();
            a_car_is_found_where_it_stands();
            trains.train_of(car) == train
        }
    }
}

// Whether the source lies outside the car.
fn is_outside(source: RefSource, car: u64) -> bool
    ensures { result ≡ outside car source }
{
    match source {
        RefSource::Root(_) => true,
        RefSource::Handle { .. } => true,
        RefSource::Field { at, .. } => at.car != car,
    }
}

// Whether there is such a car, and it hears of the source.
fn hears(links: &LinkTable, trains: &Trains, phase: Phase, source: RefSource, car: u64) -> bool
    requires { AreHoused (sets_of links.now) trains.now.trains }
    ensures { result ≡ (is_some (map.get links.now car) && is_heard (aside_in phase trains.now.trains) source car) }
{
    if !links.has(car) {
        return false;
    }
    is_outside(source, car) && !is_aside(trains, phase, car)
}

// Tells the car which slot of it the source names from now on, or that it names none, where it hears of the
// source.
fn tell(
    links: &mut LinkTable,
    trains: &Trains,
    phase: Phase,
    source: RefSource,
    car: u64,
    slot: Option<u32>,
)
    requires housed { AreHoused (sets_of links.old) trains.now.trains }
    requires room { HasRoom links.old car 1 }
    ensures sets { sets_of links.new ≡ sets_of links.old }
    ensures queues { Tells links.old links.new (heard (aside_in phase trains.now.trains) source car slot) }
    ensures room { UsesRoom links.old links.new (λ other. cond (car == other) 1 0) }
{
    if hears(links, trains, phase, source, car) {
        links.push(car, Change { source, slot });
    }
}

// Whether both addresses lie in one car.
fn are_in_one_car(old: Option<Addr>, new: Option<Addr>) -> bool
    ensures { result ≡ in_one_car old new }
{
    match (old, new) {
        (Some(old), Some(new)) => old.car == new.car,
        _ => false,
    }
}

// Tells the old address's car that the source names no slot there, unless the new address lies in it too.
fn tell_old(
    links: &mut LinkTable,
    trains: &Trains,
    phase: Phase,
    source: RefSource,
    old: Option<Addr>,
    new: Option<Addr>,
)
    requires housed { AreHoused (sets_of links.old) trains.now.trains }
    requires room { HasRoomFor links.old old }
    ensures sets { sets_of links.new ≡ sets_of links.old }
    ensures queues { Tells links.old links.new (left_for_another (aside_in phase trains.now.trains) source old new) }
    ensures room { HasRoomFor links.old new → HasRoomFor links.new new }
    ensures used { UsesRoom links.old links.new (λ car. told_by car old) }
{
    if are_in_one_car(old, new) {
        return;
    }
    if let Some(at) = old {
        tell(links, trains, phase, source, at.car, None);
    }
}

// Tells the new address's car which slot of it the source names from now on.
fn tell_new(
    links: &mut LinkTable,
    trains: &Trains,
    phase: Phase,
    source: RefSource,
    new: Option<Addr>,
)
    requires housed { AreHoused (sets_of links.old) trains.now.trains }
    requires room { HasRoomFor links.old new }
    ensures sets { sets_of links.new ≡ sets_of links.old }
    ensures queues { Tells links.old links.new (entered (aside_in phase trains.now.trains) source new) }
    ensures used { UsesRoom links.old links.new (λ car. told_by car new) }
{
    if let Some(at) = new {
        tell(links, trains, phase, source, at.car, Some(at.slot));
    }
}

/// Tells the cars that hear of it that the source goes from the old address to the new one, in room that was
/// made before: a car in which both lie hears once, and a car that is set aside, or in which the source lies,
/// hears nothing. No remembered set is touched.
pub fn tell_all(
    links: &mut LinkTable,
    trains: &Trains,
    phase: Phase,
    source: RefSource,
    old: Option<Addr>,
    new: Option<Addr>,
)
    requires housed { AreHoused (sets_of links.old) trains.now.trains }
    requires old_room { HasRoomFor links.old old }
    requires new_room { HasRoomFor links.old new }
    ensures sets { sets_of links.new ≡ sets_of links.old }
    ensures queues { Tells links.old links.new (barrier (aside_in phase trains.now.trains) source old new) }
    ensures used { UsesRoom links.old links.new (λ car. told_by car old + told_by car new) }
{
    tell_old(links, trains, phase, source, old, new);
    tell_new(links, trains, phase, source, new);
}
