ghost use Rattle.std.specs.Prelude.{◌≡◌, length, IsSome, IsSomeAnd};
ghost use Rattle.std.specs.FinMap.{get, len};
ghost use Rattle.pm_trains.specs.Trains.{cars_at};
ghost use Rattle.pm_view.specs.Candidates.{set_of, queue_of};
ghost use Rattle.pm_view.specs.Counts.{live_in};
ghost use Rattle.pm_types.specs.Counts.{capped};
ghost use Rattle.pm_space.specs.Shown.{view};
ghost use Rattle.pm_inspect.specs.Report.{car_count, live_in_cars, live_total, CountsLive};

use pm_space::Parts;

/// How many sources a car remembers.
pub(crate) fn remembered<F>(parts: &Parts<F>, car: u64) -> u64
    ensures { result ≡ len (set_of (view parts.now) car) }
{
    match parts.links.get(car) {
        Some(links) => links.set.len(),
        None => 0,
    }
}

/// How many changes wait for a car.
pub(crate) fn queued<F>(parts: &Parts<F>, car: u64) -> u64
    ensures { result ≡ length (queue_of (view parts.now) car) }
{
    match parts.links.get(car) {
        Some(links) => links.queue.len(),
        None => 0,
    }
}

// How many slots of a car have an object.
fn live_in_car<F>(parts: &Parts<F>, car: u64) -> u64
    ensures { result ≡ live_in (get (view parts.now).cars car) }
{
    match parts.cars.get(car) {
        Some(held) => held.car.live() as u64,
        None => 0,
    }
}

// How many slots of these cars have an object.
fn live_in_cars<F>(parts: &Parts<F>, cars: &[u64]) -> u64
    ensures { result ≡ capped (live_in_cars (view parts.now) cars.now) }
{
    let mut sum = 0u64;
    for car in cars {
        sum = sum.saturating_add(live_in_car(parts, *car));
    }
    sum
}

// How many slots of a train's cars have an object.
fn live_in_train<F>(parts: &Parts<F>, train: u64) -> u64
    requires { IsSome (cars_at parts.now.trains.trains train) }
    ensures { CountsLive (view parts.now) train result }
{
    live_in_cars(parts, parts.trains.cars(train))
}

// How many cars a train has.
fn cars_in_train<F>(parts: &Parts<F>, train: u64) -> u64
    requires { IsSome (cars_at parts.now.trains.trains train) }
    ensures { IsSomeAnd (cars_at parts.now.trains.trains train) (λ cars. result ≡ capped (length cars)) }
{
    parts.trains.cars(train).len() as u64
}

/// How many slots have an object.
pub(crate) fn live_total<F>(parts: &Parts<F>) -> u64
    ensures { result ≡ capped (live_total (view parts.now)) }
{
    parts.trains.sound();
    let mut sum = 0u64;
    for place in 0..parts.trains.len() {
        let train = parts.trains.nth(place);
        sum = sum.saturating_add(live_in_train(parts, train));
    }
    sum
}

/// How many cars the trains have.
pub(crate) fn car_count<F>(parts: &Parts<F>) -> u64
    ensures { result ≡ capped (car_count (view parts.now)) }
{
    parts.trains.sound();
    let mut sum = 0u64;
    for place in 0..parts.trains.len() {
        let train = parts.trains.nth(place);
        sum = sum.saturating_add(cars_in_train(parts, train));
    }
    sum
}
