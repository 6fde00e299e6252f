//! The entries of a page of the catalog.

ghost use Rattle.std.specs.Prelude.{◌≡◌, ◌+◌, ◌<◌, ◌≤◌, ◌++◌, map, length, IfOk, OnOk};
ghost use Rattle.std.specs.List.{AllByRecursion, slice_range};
ghost use Rattle.pm_copies.specs.Plans.{car_entry, root_entry};
ghost use Rattle.pm_save.specs.Progress.Seen.{car_seen, progress_seen};
ghost use Rattle.pm_save.specs.Progress.Entries.{entries_in, entry_of};
ghost use Rattle.pm_save.specs.Progress.Kept.{IsPlaced, IsWithin};

use crate::progress::place::{InProgress, Place, PlacedCar};
use pm_graphs::settled::PackedPage;
use pm_image::{CatEntry, EntryList};
use pm_types::{Addr, Name, NoMemory};
use std::alloc::Global;

/// The entry of a car on this page, in this train.
fn entry_on(train: u64, kept: &PackedPage) -> CatEntry
    ensures { result ≡ car_entry (train, kept.now) }
{
    CatEntry::Car {
        car: kept.car().number(),
        train,
        page: kept.page(),
        digest: kept.digest(),
    }
}

/// The entry of a car that stands on a page.
fn entry_of(settled: &[PackedPage], one: &PlacedCar) -> CatEntry
    requires within { IsWithin settled.now one.now.place }
    requires placed { IsPlaced one.now }
    ensures { result ≡ entry_of (car_seen settled.now one.now) }
{
    match &one.place {
        Place::Clean(index) => entry_on(one.train, &settled[*index]),
        Place::Written(kept) => entry_on(one.train, kept),
        Place::Unwritten => unreachable!(),
    }
}

/// Puts the entries of cars that stand on pages behind those of the list.
fn push_cars(
    settled: &[PackedPage],
    cars: &[PlacedCar],
    entries: &mut Vec<CatEntry>,
) -> Result<(), NoMemory>
    requires within { AllByRecursion (λ (one : PlacedCar). IsWithin settled.now one.place) cars.now }
    requires placed { AllByRecursion IsPlaced cars.now }
    ensures { OnOk result (entries.new.items ≡ entries.old.items ++ map entry_of (map
        (car_seen settled.now) cars.now)) }
{
    for one in cars {
        entries.push(entry_of(settled, one))?;
    }
    Ok(())
}

/// Puts the entries of roots behind those of the list.
fn push_roots(
    alloc: Global,
    roots: &[(Name, Addr)],
    entries: &mut Vec<CatEntry>,
) -> Result<(), NoMemory>
    ensures { OnOk result (entries.new.items ≡ entries.old.items ++ map root_entry roots.now) }
{
    for (name, at) in roots {
        let name = name.copy(alloc)?;
        entries.push(CatEntry::Root { name, at: *at })?;
    }
    Ok(())
}

/// The entries of a copy between these two places, where each car stands on a page.
pub(crate) fn entries_between(
    alloc: Global,
    settled: &[PackedPage],
    it: &InProgress,
    from: usize,
    to: usize,
) -> Result<EntryList, NoMemory>
    requires in_order { from ≤ to }
    requires there { to ≤ length it.now.cars.items + length it.now.roots.items }
    requires within { AllByRecursion (λ (one : PlacedCar). IsWithin settled.now one.place) it.now.cars.items }
    requires placed { AllByRecursion IsPlaced it.now.cars.items }
    ensures { IfOk result (λ entries. entries ≡ slice_range (entries_in (progress_seen settled.now it.now)) from to) }
{
    let cars = it.cars.len();
    let mut entries = Vec::with_capacity(alloc, to - from)?;
    push_cars(
        settled,
        &it.cars[from.min(cars)..to.min(cars)],
        &mut entries,
    )?;
    push_roots(
        alloc,
        &it.roots[from.saturating_sub(cars)..to.saturating_sub(cars)],
        &mut entries,
    )?;
    Ok(EntryList::from_vec(entries))
}
