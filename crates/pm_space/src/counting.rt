ghost use Rattle.std.specs.Prelude.{◌≡◌, cond, nat_le, IsSome, IsSomeAnd};
ghost use Rattle.std.specs.List.{sum_by};
ghost use Rattle.pm_trains.specs.Trains.{train_of, cars_at};
ghost use Rattle.pm_view.specs.Counts.{standing_in, standing, old};
ghost use Rattle.pm_space.specs.Counted.{AreAllHoused};
ghost use Rattle.pm_space.specs.Shown.{view};
ghost use Rattle.pm_types.specs.Counts.{capped};

use crate::barrier::is_aside;
use crate::parts::Parts;
use pm_trains::a_car_is_found_where_it_stands;

// How many objects stand in a car that is in a train.
fn in_car<F>(parts: &Parts<F>, car: u64) -> u64
    requires { IsSome (train_of parts.now.trains.trains car) }
    ensures { result ≡ standing_in (view parts.now) car }
{
    if is_aside(&parts.trains, parts.phase, car) {
        return 0;
    }
    match parts.cars.get(car) {
        Some(held) => held.car.live() as u64,
        None => 0,
    }
}

// How many objects stand in these cars, each of which is in a train.
fn in_cars<F>(parts: &Parts<F>, cars: &[u64]) -> u64
    requires { AreAllHoused parts.now.trains.trains cars.now }
    ensures { result ≡ capped (sum_by (standing_in (view parts.now)) cars.now) }
{
    let mut sum = 0u64;
    for car in cars {
        sum = sum.saturating_add(in_car(parts, *car));
    }
    sum
}

// How many objects stand in a train.
fn in_train<F>(parts: &Parts<F>, train: u64) -> u64
    requires { IsSome (cars_at parts.now.trains.trains train) }
    ensures { IsSomeAnd (cars_at parts.now.trains.trains train)
        (λ cars. result ≡ capped (sum_by (standing_in (view parts.now)) cars)) }
{
    parts.trains.sound();
    a_car_is_found_where_it_stands();
    in_cars(parts, parts.trains.cars(train))
}

// How many objects stand in a train, or none where its number is over this one.
fn in_old_train<F>(parts: &Parts<F>, train: u64, youngest: u64) -> u64
    requires { IsSome (cars_at parts.now.trains.trains train) }
    ensures { IsSomeAnd (cars_at parts.now.trains.trains train)
        (λ cars. result ≡ capped (cond (nat_le train youngest) (sum_by (standing_in (view parts.now)) cars) 0)) }
{
    if train <= youngest {
        in_train(parts, train)
    } else {
        0
    }
}

/// How many objects stand.
pub(crate) fn standing<F>(parts: &Parts<F>) -> u64
    ensures { result ≡ capped (standing (view parts.now)) }
{
    parts.trains.sound();
    let mut sum = 0u64;
    for place in 0..parts.trains.len() {
        let train = parts.trains.nth(place);
        sum = sum.saturating_add(in_train(parts, train));
    }
    sum
}

/// How many objects stand in the trains that are numbered up to this one.
pub(crate) fn old<F>(parts: &Parts<F>, youngest: u64) -> u64
    ensures { result ≡ capped (old (view parts.now) youngest) }
{
    parts.trains.sound();
    let mut sum = 0u64;
    for place in 0..parts.trains.len() {
        let train = parts.trains.nth(place);
        sum = sum.saturating_add(in_old_train(parts, train, youngest));
    }
    sum
}
