//! Which cars keep a page of the standby.
ghost use Rattle.std.specs.Prelude.{◌≡◌, ◌<◌, ◌^◌, length, IfOk};
ghost use Rattle.pm_image.specs.Graphs.{images_of};
ghost use Rattle.pm_saving.specs.Beginning.{IsPlacedAs};
ghost use Rattle.pm_save.specs.Progress.Seen.{place_seen};
ghost use Rattle.pm_save.specs.Progress.Kept.{IsWithin};
ghost use Rattle.pm_save.specs.Writer.Planned.{IsIndex, IsPlanned};
ghost use Rattle.pm_ship.specs.Listing.{with_trains};

use pm_graphs::settled::PackedPage;
use pm_image::{CarImage, KeptPage};
use pm_save::progress::{Place, PlacedCar};
use pm_types::NoMemory;
use std::alloc::Global;
use std::collections::BTreeMap;

/// Where a car begins: on the page of the settled car of its number, where it has the same slots, and else on none.
fn place_of(settled: &[PackedPage], places: &BTreeMap<u64, usize>, image: &CarImage) -> Place
    requires { IsIndex settled.now places.now }
    ensures placed { IsPlacedAs settled.now image.now (place_seen settled.now result) }
    ensures within { IsWithin settled.now result }
{
    match places.get(&image.number) {
        Some(place) => {
            if settled[*place].car().has_slots(image.slots.as_slice()) {
                Place::Clean(*place)
            } else {
                Place::Unwritten
            }
        }
        None => Place::Unwritten,
    }
}

/// A car in its train, and where it stands.
fn planned(train: u64, number: u64, place: Place) -> PlacedCar
    ensures planned { result ≡ record { train = train; number = number; place = place } }
    ensures train { train < 2 ^ 64 }
    ensures number { number < 2 ^ 64 }
{
    PlacedCar {
        train,
        number,
        place,
    }
}

/// These cars in these trains, each on the page of the standby's copy that has its content, or still to be written.
pub(crate) fn place_cars(
    alloc: Global,
    settled: &[PackedPage],
    places: &BTreeMap<u64, usize>,
    trains: &[u64],
    cars: &[KeptPage],
) -> Result<Vec<PlacedCar>, NoMemory>
    requires places { IsIndex settled.now places.now }
    requires paired { length trains.now ≡ length cars.now }
    ensures { IfOk result (λ placed. IsPlanned settled.now (with_trains trains.now (images_of cars.now)) placed.items) }
{
    let mut placed = Vec::with_capacity(alloc, cars.len())?;
    for index in 0..cars.len() {
        let image = &cars[index].image;
        let place = place_of(settled, places, image);
        placed.push(planned(trains[index], image.number, place))?;
    }
    Ok(placed)
}
