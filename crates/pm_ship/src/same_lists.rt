//! Whether two stores have the same copy.
ghost use Rattle.std.specs.Prelude.{◌≡◌, ◌↔◌, IsTrue};
ghost use Rattle.pm_image.specs.Graphs.{images_of};
ghost use Rattle.pm_ship.specs.SameLists.{HaveSameLists};

use crate::standby::Standby;
use crate::store::StoreRead;
use pm_graphs::settled::PackedPage;
use pm_image::KeptPage;
use pm_types::{Addr, Name};

/// Whether the two cars have one number and the same slots.
fn is_same_car(kept: &KeptPage, settled: &PackedPage) -> bool
    ensures { IsTrue result ↔ (kept.now.image ≡ settled.now.image) }
{
    let car = settled.car();
    kept.image.number == car.number() && car.has_slots(kept.image.slots.as_slice())
}

/// Whether they are the same cars, place by place.
fn are_same_cars(cars: &[KeptPage], settled: &[PackedPage]) -> bool
    ensures { IsTrue result ↔ (images_of cars.now ≡ images_of settled.now) }
{
    if cars.len() != settled.len() {
        return false;
    }
    for place in 0..cars.len() {
        if !is_same_car(&cars[place], &settled[place]) {
            return false;
        }
    }
    true
}

/// Whether they are the same names, each with the same address.
fn are_same_roots(roots: &[(Name, Addr)], others: &[(Name, Addr)]) -> bool
    ensures { IsTrue result ↔ (roots.now ≡ others.now) }
{
    roots == others
}

/// Whether they are the same trains.
fn are_same_trains(trains: &[u64], others: &[u64]) -> bool
    ensures { IsTrue result ↔ (trains.now ≡ others.now) }
{
    trains == others
}

/// Whether the standby lists the same cars in the same trains, and the same roots.
pub(crate) fn have_same_lists(first: &StoreRead, standby: &Standby) -> bool
    ensures { IsTrue result ↔ HaveSameLists first.now standby.now }
{
    are_same_trains(&first.trains, &standby.trains)
        && are_same_roots(&first.roots, &standby.roots)
        && are_same_cars(first.cars.as_slice(), standby.settled.as_slice())
}
