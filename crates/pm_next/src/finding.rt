ghost use Rattle.std.specs.Prelude.{◌≡◌, None, take, IsSome};
ghost use Rattle.pm_trains.specs.Trains.{cars_at};
ghost use Rattle.pm_view.specs.declared.phase.Phase.TheVariants.{Draining};
ghost use Rattle.pm_view.specs.Events.{has_change, changed_car, to_note, anchor_in, lowest_live};
ghost use Rattle.pm_space.specs.Linked.{queues_of, waiting};
ghost use Rattle.pm_space.specs.Shown.{view, IsLinked};
ghost use Rattle.pm_next.specs.Sought.{first_changed, first_noted};

use crate::skipping::outside;
use pm_space::{LinkTable, Parts, Space};
use pm_types::Addr;

/// Whether a change waits in a car's queue.
pub fn has_change(links: &LinkTable, car: u64) -> bool
    ensures { result ≡ has_change (waiting (queues_of links.now) car) }
{
    let Some(links) = links.get(car) else {
        return false;
    };
    match links.queue.front() {
        Some(_) => true,
        None => false,
    }
}

// The first of these cars that has a queued change, and its place, or one behind the last. None before that place has
// one, and it is sought from a place on before which none has.
fn changed_from(links: &LinkTable, cars: &[u64], from: usize) -> (usize, Option<u64>)
    requires { first_changed links.now (take from cars.now) ≡ None }
    ensures quiet { first_changed links.now (take result.0 cars.now) ≡ None }
    ensures found { result.1 ≡ first_changed links.now cars.now }
{
    let mut at = from;
    while at < cars.len() {
        if has_change(links, cars[at]) {
            return (at, Some(cars[at]));
        }
        at += 1;
    }
    (at, None)
}

/// The first car of the train that is drained, in the train's order, that has a queued change. It looks at the cars
/// from the place on before which none has one, and that place goes on to the car.
pub fn changed_car<F: Drop>(space: &mut Space<F>, train: u64) -> Option<u64>
    requires { (view space.old.parts).phase ≡ Draining train }
    ensures car { result ≡ changed_car (view space.old.parts) train }
    ensures parts { space.new.parts ≡ space.old.parts }
{
    let cars = space.parts.trains.cars(train);
    let (quiet, found) = changed_from(&space.parts.links, cars, space.quiet);
    space.quiet = quiet;
    found
}

// The object that the least source outside a train names in the first of these cars that remembers such a source.
fn first_noted<F>(parts: &Parts<F>, train: u64, cars: &[u64]) -> Option<Addr>
    requires { IsLinked (view parts.now) }
    ensures { result ≡ first_noted (view parts.now) train cars.now }
{
    for car in cars {
        if let Some((_, slot)) = outside(parts, train, *car) {
            return Some(Addr { car: *car, slot });
        }
    }
    None
}

/// The object that is noted where no anchor stands, none where no car of the train remembers a source outside it. It
/// looks at one for each car of the sources inside the train.
pub(crate) fn to_note<F>(parts: &Parts<F>, train: u64) -> Option<Addr>
    requires linked { IsLinked (view parts.now) }
    requires stands { IsSome (cars_at parts.now.trains.trains train) }
    ensures { result ≡ to_note (view parts.now) train }
{
    first_noted(parts, train, parts.trains.cars(train))
}

/// The anchor with its train, where it lies in the car.
pub fn anchor_in<F>(parts: &Parts<F>, car: u64) -> Option<(Addr, u64)>
    ensures { result ≡ anchor_in car (view parts.now).anchor }
{
    let (at, train) = parts.guard.anchor()?;
    if at.car == car {
        Some((at, train))
    } else {
        None
    }
}

/// The lowest Live slot of a car.
pub fn lowest_live<F>(parts: &Parts<F>, car: u64) -> Option<u32>
    ensures { result ≡ lowest_live (view parts.now) car }
{
    match parts.cars.get(car) {
        Some(held) => held.car.lowest_live(),
        None => None,
    }
}
