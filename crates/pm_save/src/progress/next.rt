//! The next page of a copy in progress.

ghost use Rattle.pm_image.specs.declared.settled.KeptPage.{KeptPage};
ghost use Rattle.pm_save.specs.declared.progress.place.PlacedCar.{PlacedCar};
ghost use Rattle.pm_save.specs.declared.progress.next.Ready.{Ready};
ghost use Rattle.std.specs.Prelude.{◌≡◌, ◌<◌, ◌^◌, List, true, length, take, sum, Some, IfOk, IfSome, IsSome, OnErr, option_map};
ghost use Rattle.std.specs.List.{AllByRecursion, slice_get};
ghost use Rattle.std.specs.FinSet as set;
ghost use Rattle.pm_types.specs.declared.limits.TheConstants.{FIELDS, PAGE_BYTES};
ghost use Rattle.pm_image.specs.CarPages.{HasCarPage, one_car};
ghost use Rattle.pm_copies.specs.Plans.{chain_of, first_of};
ghost use Rattle.pm_saving.specs.Progress.{catalog_left, catalog_of, image_at};
ghost use Rattle.pm_saving.specs.Paging.{car_text, next_page, part_before};
ghost use Rattle.pm_saving.specs.Tied.{HasPage};
ghost use Rattle.pm_save.specs.Progress.Seen.{progress_seen};
ghost use Rattle.pm_save.specs.Progress.Kept.{IsKept, IsPlaced, is_open};
ghost use Rattle.pm_save.specs.Progress.Noted.{HasPlaceFor};
ghost use Rattle.pm_save.specs.Progress.Next.{IsFound, Spells, next_seen};
ghost use Rattle.pm_save.specs.declared.progress.next.Next.TheVariants.{Car};

use crate::progress::Frozen;
use crate::progress::entries::entries_between;
use crate::progress::place::{InProgress, Place, PlacedCar};
use pm_graphs::settled::{PackedCar, PackedPage};
use pm_image::{CatalogPage, EntryList, write_catalog};
use pm_types::NoMemory;
use std::alloc::Global;

/// What comes on a page of a copy.
#[derive(Drop)]
pub enum Next {
    /// A car.
    Car(PackedCar),
    /// Entries of the catalog.
    Part(EntryList),
}

/// A page that is ready to be written.
#[derive(Drop)]
pub struct Ready {
    /// What comes on it.
    pub next: Next,
    /// What it spells: 16,384 bytes.
    pub bytes: Vec<u8>,
}

/// The car stands on no page yet.
pub fn is_open(place: &Place) -> bool
    ensures { result ≡ is_open place.now }
{
    matches!(place, Place::Unwritten)
}

/// The place of the first car that stands on no page, or the number of cars. Those before `from` all stand on one.
fn first_open(cars: &[PlacedCar], from: usize) -> usize
    requires { AllByRecursion IsPlaced (take from cars.now) }
    ensures before { AllByRecursion IsPlaced (take result cars.now) }
    ensures here { IfSome (slice_get cars.now result) (λ (one : PlacedCar). is_open one.place ≡ true) }
{
    let mut place = from;
    while place < cars.len() && !is_open(&cars[place].place) {
        place += 1;
    }
    place
}

/// Finds the first car that stands on no page, from where the last search stopped.
pub fn find_next(it: &mut InProgress)
    requires { AllByRecursion IsPlaced (take it.old.placed it.old.cars.items) }
    ensures found { IsFound it.new }
    ensures rest { it.new ≡ record it.old { placed = it.new.placed } }
{
    it.placed = first_open(&it.cars, it.placed);
}

/// The page of the car of this number, as it was frozen.
fn car_page<C: Frozen>(alloc: Global, frozen: &C, number: u64) -> Result<Ready, NoMemory>
    requires { HasCarPage (one_car FIELDS) set.empty (image_at (C.cars frozen.now) number) }
    ensures next { IfOk result (λ page. page.next ≡ Car (image_at (C.cars frozen.now) number)) }
    ensures text { IfOk result (λ page. page.bytes.items ≡ car_text (image_at (C.cars frozen.now) number)) }
    ensures whole { IfOk result (λ page. length page.bytes.items ≡ PAGE_BYTES) }
{
    let page = frozen.page(alloc, number)?;
    Ok(Ready {
        next: Next::Car(page.car),
        bytes: page.bytes,
    })
}

/// All of these together.
fn total(counts: &[usize]) -> usize
    requires { sum counts.now < 2 ^ 64 }
    ensures { result ≡ sum counts.now }
{
    let mut total = 0;
    for count in counts {
        total += *count;
    }
    total
}

/// The first of the pages of the catalog that were written, 0 where none was.
pub fn first_part(it: &InProgress) -> u64
    ensures { (settled : List KeptPage) → IsKept settled it.now → AllByRecursion IsPlaced it.now.cars.items
        → result ≡ first_of (chain_of (catalog_of (progress_seen settled it.now))) }
{
    it.parts.last().copied().unwrap_or(0)
}

/// Entries before the pages of the catalog that were written.
fn linked(it: &InProgress, entries: EntryList) -> CatalogPage
    ensures entries { result.entries ≡ entries }
    ensures digest { result.digest ≡ it.now.digest }
    ensures next { (settled : List KeptPage) → IsKept settled it.now → AllByRecursion IsPlaced it.now.cars.items
        → result.next ≡ first_of (chain_of (catalog_of (progress_seen settled it.now))) }
{
    let digest = it.digest;
    CatalogPage {
        next: first_part(it),
        digest,
        entries,
    }
}

/// The next page of the catalog, where each car stands on a page: of those that were not written, the last one.
fn part_page(
    alloc: Global,
    settled: &[PackedPage],
    it: &InProgress,
) -> Result<Option<Ready>, NoMemory>
    requires kept { IsKept settled.now it.now }
    requires placed { AllByRecursion IsPlaced it.now.cars.items }
    requires may { IfSome (part_before (catalog_left (progress_seen settled.now it.now))
        (progress_seen settled.now it.now)) HasPage }
    ensures next { IfOk result (λ page. part_before (catalog_left (progress_seen settled.now it.now))
        (progress_seen settled.now it.now) ≡ option_map (λ (page : Ready). next_seen page.next) page) }
    ensures spelled { IfOk result (λ page. IfSome page (Spells (progress_seen settled.now it.now))) }
    ensures place { IfOk result (λ page. IfSome page (λ (ready : Ready). HasPlaceFor it.now ready.next)) }
    // Memory runs out only where one is left.
    ensures err { OnErr result (IsSome (part_before (catalog_left (progress_seen settled.now it.now))
        (progress_seen settled.now it.now))) }
{
    let Some(count) = it.counts.last() else {
        return Ok(None);
    };
    let to = total(&it.counts);
    let entries = entries_between(alloc, settled, it, to - *count, to)?;
    let page = linked(it, entries);
    let bytes = write_catalog(alloc, &page)?;
    Ok(Some(Ready {
        next: Next::Part(page.entries),
        bytes,
    }))
}

/// The next page of a copy, ready to be written, if one is left: that of the first car that stands on none, and then
/// those of the catalog from the last to the first.
pub fn ready_next<C: Frozen>(
    alloc: Global,
    settled: &[PackedPage],
    frozen: &C,
    it: &InProgress,
) -> Result<Option<Ready>, NoMemory>
    requires kept { IsKept settled.now it.now }
    requires found { IsFound it.now }
    requires may { IfSome (next_page (C.cars frozen.now) (progress_seen settled.now it.now)) HasPage }
    ensures next { IfOk result (λ page. next_page (C.cars frozen.now) (progress_seen settled.now it.now)
        ≡ option_map (λ (page : Ready). next_seen page.next) page) }
    ensures spelled { IfOk result (λ page. IfSome page (Spells (progress_seen settled.now it.now))) }
    ensures place { IfOk result (λ page. IfSome page (λ (ready : Ready). HasPlaceFor it.now ready.next)) }
    // Memory runs out only where one is left.
    ensures err { OnErr result (IsSome (next_page (C.cars frozen.now) (progress_seen settled.now it.now))) }
{
    match it.cars.get(it.placed) {
        Some(one) => Ok(Some(car_page(alloc, frozen, one.number)?)),
        None => part_page(alloc, settled, it),
    }
}
