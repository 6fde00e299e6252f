ghost use Rattle.std.specs.Prelude.{◌≡◌};
ghost use Rattle.pm_types.specs.declared.source.RefSource.TheVariants.{Field};
ghost use Rattle.pm_trains.specs.Trains.{is_among};
ghost use Rattle.pm_remset.specs.Remembered.{first_that};
ghost use Rattle.pm_view.specs.Reading.{cars_of};
ghost use Rattle.pm_view.specs.Candidates.{is_beyond, least_outside};
ghost use Rattle.pm_space.specs.Shown.{view, IsLinked};
ghost use Rattle.pm_next.specs.Sought.{inside_car};

use crate::sources::Entry;
use pm_remset::Remset;
use pm_space::Parts;
use pm_trains::a_car_is_found_where_it_stands;
use pm_types::{Addr, RefSource};

// Whether a car is one of those of a train.
fn is_in_train<F>(parts: &Parts<F>, car: u64, train: u64) -> bool
    requires { IsLinked (view parts.now) }
    ensures { result ≡ is_among car (cars_of parts.now.trains.trains train) }
{
    parts.trains.sound();
    if !parts.links.has(car) {
        return false;
    }
    a_car_is_found_where_it_stands();
    parts.trains.train_of(car) == train
}

// The car of a source that is a field of an object in the train; `None` where the source is another one.
fn inside_car<F>(parts: &Parts<F>, train: u64, source: RefSource) -> Option<u64>
    requires { IsLinked (view parts.now) }
    ensures { result ≡ inside_car parts.now.trains.trains train source }
{
    match source {
        RefSource::Field { at, .. } => {
            if is_in_train(parts, at.car, train) {
                Some(at.car)
            } else {
                None
            }
        }
        RefSource::Root(_) => None,
        RefSource::Handle { .. } => None,
    }
}

// Whether the source is no field of an object in the train.
fn is_beyond<F>(parts: &Parts<F>, train: u64, source: RefSource) -> bool
    requires { IsLinked (view parts.now) }
    ensures { result ≡ is_beyond parts.now.trains.trains train source }
{
    match inside_car(parts, train, source) {
        Some(_) => false,
        None => true,
    }
}

// The least source outside the train that is remembered, sought source by source.
fn scanned<F>(parts: &Parts<F>, set: &Remset, train: u64) -> Option<Entry>
    requires { IsLinked (view parts.now) }
    ensures { result ≡ first_that (λ source _. is_beyond parts.now.trains.trains train source) set.now }
{
    set.next_where(|source: RefSource, _: u32| is_beyond(parts, train, source))
}

// The first field of the lowest slot of a car.
fn first_field(car: u64) -> RefSource
    ensures { result ≡ Field (record { car = car; slot = 0 }) 0 }
{
    RefSource::Field {
        at: Addr { car, slot: 0 },
        index: 0,
    }
}

// The least source outside the train that is remembered. Of the sources inside it one is looked at for each car in
// which they lie.
fn least_beyond<F>(parts: &Parts<F>, set: &Remset, train: u64) -> Option<Entry>
    requires { IsLinked (view parts.now) }
    ensures { result ≡ first_that (λ source _. is_beyond parts.now.trains.trains train source) set.now }
{
    let mut from = RefSource::Root(0);
    loop {
        let Some(found) = set.at_or_after(from) else {
            return None;
        };
        let Some(inside) = inside_car(parts, train, found.0) else {
            return Some(found);
        };
        if inside == u64::MAX {
            return scanned(parts, set, train);
        }
        from = first_field(inside + 1);
    }
}

/// The least source outside a train that a car remembers, with the slot that it names. Of the sources that are fields
/// of objects in the train one is looked at for each car in which they lie.
pub fn outside<F>(parts: &Parts<F>, train: u64, car: u64) -> Option<Entry>
    requires { IsLinked (view parts.now) }
    ensures { result ≡ least_outside (view parts.now) train car }
{
    match parts.links.get(car) {
        Some(links) => least_beyond(parts, &links.set, train),
        None => None,
    }
}
