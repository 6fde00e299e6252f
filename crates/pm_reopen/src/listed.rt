//! Building a space of what a catalog lists.

ghost use Rattle.std.specs.Prelude.{◌≡◌, None, IfOk};
ghost use Rattle.pm_image.specs.Graphs.{images_of};
ghost use Rattle.pm_copies.specs.Listed.{images};
ghost use Rattle.pm_copies.specs.Accepted.{IsAccepted};
ghost use Rattle.pm_copies.specs.Opened.{IsOpened, listed_in};
ghost use Rattle.pm_space.specs.Shown.{view};

use crate::opened_cars::open_cars;
use crate::opened_roots::open_roots;
use crate::rebuild::build;
use pm_graphs::MappedCars;
use pm_image::CatEntry;
use pm_law_copies::opening_builds_a_space;
use pm_place::Placement;
use pm_space::Space;
use pm_types::NoMemory;
use std::alloc::Global;

/// The space that opening makes of what a catalog lists: its entries, the cars of those that list one, in their order,
/// with the map of their slots, and the next identity. The objects are moved into it. No rule of opening refuses them.
///
/// Every address is followed through at most one Moved slot, what had moved is Gone, and cars without an object go;
/// cars and slots keep their numbers, and trains are numbered from 1. Of these cars and roots a space is built. Time and
/// memory grow with the entries, slots and fields, times the logarithm of their number.
///
/// # Errors
///
/// `NoMemory` where memory ran out.
pub fn build_listed<F: Drop>(
    alloc: Global,
    place: Placement<F>,
    entries: &[CatEntry],
    cars: MappedCars,
    next: u64,
) -> Result<Space<F>, NoMemory>
    requires paired { images (listed_in entries.now (images_of cars)) ≡ images_of cars }
    requires accepted { IsAccepted (listed_in entries.now (images_of cars)) entries.now next }
    ensures view { IfOk result (λ space. IsOpened (listed_in entries.now (images_of cars)) entries.now next
        (view space.parts)) }
    ensures frozen { IfOk result (λ space. space.parts.cars.frozen ≡ None) }
    ensures place { IfOk result (λ space. space.parts.place ≡ place) }
{
    opening_builds_a_space();
    let (cars, leads) = cars.into_parts();
    let opened = open_cars(alloc, &leads, entries, cars)?;
    let roots = open_roots(alloc, &leads, entries)?;
    drop(leads);
    let space = build(alloc, place, opened, roots, next)?;
    Ok(space)
}
