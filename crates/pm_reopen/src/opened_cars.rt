//! The cars that a catalog lists, as they are opened, with their trains numbered from 1.

ghost use Rattle.std.specs.Prelude.{◌≡◌, [], ◌∷◌, List, None, map, IfOk, OnOk};
ghost use Rattle.std.specs.List.{AllByRecursion};
ghost use Rattle.std.specs.Vec.Iter.{into_iter_items};
ghost use Rattle.pm_image.specs.declared.catalog.CatEntry.{CatEntry};
ghost use Rattle.pm_image.specs.Graphs.{images_of};
ghost use Rattle.pm_copies.specs.Listed.{Listed};
ghost use Rattle.pm_copies.specs.Accepted.{IsAcceptedCar};
ghost use Rattle.pm_copies.specs.Opened.{has_object, listed_in};
ghost use Rattle.pm_reopen.specs.Rebuild.Lists.{placed_of};
ghost use Rattle.pm_reopen.specs.Listing.{number_after, listed_on};

use crate::opened_car::open_car;
use crate::rebuild::CarList;
use pm_cars::Car;
use pm_graphs::Leads;
use pm_image::{CarImage, CatEntry, KeptPage, Settled};
use pm_types::{NoMemory, Slot};
use std::alloc::Global;
use std::vec::IntoIter;

/// The train of the car that was opened last.
#[derive(Clone, Copy)]
struct LastTrain {
    /// Its number, as it is listed.
    listed: u64,
    /// Its number from then on.
    number: u64,
}

/// The cars that were opened so far.
#[derive(Drop)]
struct OpenedCars {
    /// The cars that have an object, each after the number of its train.
    cars: Vec<(u64, Car)>,
    /// The train of the last of these.
    last: Option<LastTrain>,
}

// Whether one of the slots has an object.
fn has_object(slots: &[(u32, Slot)]) -> bool
    ensures { result ≡ has_object slots.now }
{
    for listed in slots {
        if matches!(&listed.1, Slot::Live(_)) {
            return true;
        }
    }
    false
}

// The number of a train that is listed behind another one, or first.
fn number_after(last: Option<LastTrain>, train: u64) -> Result<u64, NoMemory>
    ensures { IfOk result (λ number. number ≡ number_after last train) }
{
    let Some(last) = last else {
        return Ok(1);
    };
    if last.listed == train {
        return Ok(last.number);
    }
    match last.number.checked_add(1) {
        Some(number) => Ok(number),
        // No list is so long.
        None => Err(NoMemory::uncountable(last.number)),
    }
}

// Opens a car of this train behind the others, if it has an object.
fn open_image(
    alloc: Global,
    leads: &Leads,
    opened: &mut OpenedCars,
    train: u64,
    image: CarImage,
) -> Result<(), NoMemory>
    requires car { IsAcceptedCar image }
    ensures { OnOk result ((others : List Listed)
        → listed_on leads.now (map placed_of opened.new.cars.items) opened.new.last others
        ≡ listed_on leads.now (map placed_of opened.old.cars.items) opened.old.last ((train, image) ∷ others)) }
{
    if !has_object(image.slots.as_slice()) {
        return Ok(());
    }
    let number = number_after(opened.last, train)?;
    let car = open_car(alloc, leads, image)?;
    opened.cars.push((number, car))?;
    opened.last = Some(LastTrain {
        listed: train,
        number,
    });
    Ok(())
}

// Opens the car that an entry lists, which is the first that is left, behind the others.
fn open_entry(
    alloc: Global,
    leads: &Leads,
    opened: &mut OpenedCars,
    entry: &CatEntry,
    left: &mut IntoIter<KeptPage>,
) -> Result<(), NoMemory>
    requires left { AllByRecursion IsAcceptedCar (images_of (into_iter_items left.old)) }
    ensures cars { OnOk result ((others : List CatEntry)
        → listed_on leads.now (map placed_of opened.new.cars.items) opened.new.last
        (listed_in others (images_of (into_iter_items left.new)))
        ≡ listed_on leads.now (map placed_of opened.old.cars.items) opened.old.last
        (listed_in (entry.now ∷ others) (images_of (into_iter_items left.old)))) }
    ensures left { OnOk result (AllByRecursion IsAcceptedCar (images_of (into_iter_items left.new))) }
{
    let CatEntry::Car { train, .. } = entry else {
        return Ok(());
    };
    let Some(kept) = left.next() else {
        return Ok(());
    };
    let KeptPage { image, .. } = kept;
    open_image(alloc, leads, opened, *train, image)
}

/// The cars that entries list and that have an object, in their order: their objects are moved, and the addresses of all
/// are followed through these maps. Their trains are numbered from 1.
pub(crate) fn open_cars(
    alloc: Global,
    leads: &Leads,
    entries: &[CatEntry],
    cars: Settled,
) -> Result<CarList, NoMemory>
    requires cars { AllByRecursion IsAcceptedCar (images_of cars) }
    ensures { IfOk result (λ list. list
        ≡ listed_on leads.now [] None (listed_in entries.now (images_of cars))) }
{
    let mut opened = OpenedCars {
        cars: Vec::new(alloc),
        last: None,
    };
    let mut left = cars.into_vec().into_iter();
    for entry in entries {
        open_entry(alloc, leads, &mut opened, entry, &mut left)?;
    }
    Ok(CarList::from_vec(opened.cars))
}
