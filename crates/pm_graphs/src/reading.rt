//! Reading the pages of a copy.

ghost use Rattle.std.specs.Prelude.{◌≡◌, ◌<◌, ◌≤◌, ◌++◌, List, Contains, IfOk, IfSome, OnOk, Some, None, [], ◌∷◌, length};
ghost use Rattle.std.specs.List.{AllByRecursion};
ghost use Rattle.std.specs.FinSet as set;
ghost use Rattle.std.specs.Ordering.{nat_cmp};
ghost use Rattle.pm_types.specs.declared.limits.TheConstants.{END_ID, FIELDS, PAGE_BYTES};
ghost use Rattle.pm_disk.specs.Disk.{IfTold};
ghost use Rattle.pm_image.specs.declared.catalog.CatEntry.{CatEntry};
ghost use Rattle.pm_image.specs.CarPages.{HasCarPage};
ghost use Rattle.pm_image.specs.CarAnswers.{a_car};
ghost use Rattle.pm_image.specs.CatalogPages.{HasCatalogPage, meeting_page};
ghost use Rattle.pm_image.specs.Opening.{page_of};
ghost use Rattle.pm_image.specs.Graphs.{undamaged, catalog_of, cars_from, entries_of};
ghost use Rattle.pm_shadow.specs.Pages.{state, disk_of};
ghost use Rattle.pm_graphs.specs.Reading.{Gives, GoesOn, behind, of_page, Counts, Looked, store_of, link_at, car_on, entry_car, with_car, car_list, IsThere, IsEntryThere, IsSound, IsCar, page_numbers, MayFollow, AreRead, LeadsOn};

use crate::chain::Chain;
use crate::fault::ReadFault;
use crate::from_page::FromPage;
use crate::read_cars::{ReadCar, ReadCars, ReadList};
use pm_disk::Disk;
use pm_image::{
    CatEntry, CatalogPage, KeptPage, Met, NumberSet, PageFault, read_car_in, read_catalog_in,
};
use pm_layout::digest;
use pm_shadow::Pages;
use std::alloc::Global;

// A fault of this page.
fn on_page(page: u64, fault: PageFault) -> ReadFault
    ensures { result ≡ of_page page fault }
{
    match fault {
        PageFault::Malformed(at) => ReadFault::Malformed { page, at },
        PageFault::Memory(refused) => ReadFault::Memory(refused),
    }
}

// Fills the buffer with a page, which has this digest.
fn read_kept<D: Disk>(
    pages: &mut Pages<D>,
    page: u64,
    kept: &[u8; 32],
    buffer: &mut [u8],
) -> Result<(), ReadFault>
    requires page { page < (state pages.old).count }
    requires len { length buffer.old ≡ PAGE_BYTES }
    ensures gives { IfTold (D.contents (disk_of pages.old)) (λ bytes. Gives result
        (undamaged (store_of (state pages.old).count bytes) page kept.now)) }
    ensures read { OnOk result (IfTold (D.contents (disk_of pages.old)) (λ bytes. buffer.new ≡ page_of bytes page)) }
    ensures looked { Looked pages.old pages.new }
    ensures counts { Counts (D.count (disk_of pages.old)) (D.count (disk_of pages.new)) result }
{
    pages.read_page(page, buffer)?;
    let found = digest(buffer);
    if *kept != found {
        return Err(ReadFault::Damaged {
            page,
            kept: *kept,
            found,
        });
    }
    Ok(())
}

// The catalog page that stands on a page, which has this digest, with this met before.
fn read_link<D: Disk>(
    alloc: Global,
    pages: &mut Pages<D>,
    page: u64,
    kept: &[u8; 32],
    met: &mut Met,
    buffer: &mut [u8],
) -> Result<CatalogPage, ReadFault>
    requires page { page < (state pages.old).count }
    requires len { length buffer.old ≡ PAGE_BYTES }
    ensures gives { IfTold (D.contents (disk_of pages.old)) (λ bytes. Gives result
        (link_at (store_of (state pages.old).count bytes) met.old page kept.now)) }
    ensures has { IfOk result (λ read. HasCatalogPage (Some (state pages.old).count) met.old read) }
    ensures met { IfOk result (λ read. met.new ≡ meeting_page met.old read) }
    ensures looked { Looked pages.old pages.new }
    ensures counts { Counts (D.count (disk_of pages.old)) (D.count (disk_of pages.new)) result }
{
    read_kept(pages, page, kept, buffer)?;
    let count = pages.page_count();
    match read_catalog_in(alloc, buffer, count, met) {
        Ok(read) => Ok(read),
        Err(fault) => Err(on_page(page, fault)),
    }
}

// The car that stands on a page, which has this digest, with these identities met before. With it comes what is made of
// the page that was read.
fn read_car<D: Disk, P: FromPage>(
    alloc: Global,
    pages: &mut Pages<D>,
    number: u64,
    page: u64,
    kept: &[u8; 32],
    most: u32,
    next: u64,
    met: &mut NumberSet,
    buffer: &mut [u8],
) -> Result<ReadCar<P>, ReadFault>
    requires page { IsThere (state pages.old).count page }
    requires len { length buffer.old ≡ PAGE_BYTES }
    requires most { most ≤ FIELDS }
    requires next { next ≤ END_ID }
    ensures gives { IfTold (D.contents (disk_of pages.old)) (λ bytes. Gives result
        (car_on most next (store_of (state pages.old).count bytes) met.old number page kept.now)) }
    ensures car { IfOk result (λ car. IsCar (state pages.old).count next car) }
    ensures named { IfOk result (λ car. car.image.number ≡ number) }
    ensures reads { IfOk result (λ car. HasCarPage (a_car most next (Some number)) met.old car.image) }
    ensures met { IfOk result (λ car. met.new ≡ with_car met.old (Some car)) }
    ensures looked { Looked pages.old pages.new }
    ensures counts { Counts (D.count (disk_of pages.old)) (D.count (disk_of pages.new)) result }
{
    read_kept(pages, page, kept, buffer)?;
    match read_car_in(alloc, buffer, most, number, next, met) {
        Ok(image) => {
            let car = KeptPage {
                image,
                page,
                digest: *kept,
            };
            Ok(ReadCar::of_page(alloc, car, buffer)?)
        }
        Err(fault) => Err(on_page(page, fault)),
    }
}

// The car that an entry lists, if it lists one.
fn read_entry<D: Disk, P: FromPage>(
    alloc: Global,
    pages: &mut Pages<D>,
    entry: &CatEntry,
    most: u32,
    next: u64,
    met: &mut NumberSet,
    buffer: &mut [u8],
) -> Result<Option<ReadCar<P>>, ReadFault>
    requires page { IsEntryThere (state pages.old).count entry.now }
    requires len { length buffer.old ≡ PAGE_BYTES }
    requires most { most ≤ FIELDS }
    requires next { next ≤ END_ID }
    ensures gives { IfTold (D.contents (disk_of pages.old)) (λ bytes. Gives result
        (entry_car most next (store_of (state pages.old).count bytes) met.old entry.now)) }
    ensures car { IfOk result (λ car. IfSome car (IsCar (state pages.old).count next)) }
    ensures reads { IfOk result (λ car. AreRead most next met.old (entry.now ∷ []) (car_list car)) }
    ensures met { IfOk result (λ car. met.new ≡ with_car met.old car) }
    ensures looked { Looked pages.old pages.new }
    ensures counts { Counts (D.count (disk_of pages.old)) (D.count (disk_of pages.new)) result }
{
    match entry {
        CatEntry::Car {
            car,
            page,
            digest,
            ..
        } => {
            let kept = read_car(alloc, pages, *car, *page, digest, most, next, met, buffer)?;
            Ok(Some(kept))
        }
        CatEntry::Root { .. } => Ok(None),
    }
}

// Puts the cars that entries list behind others, in order, of objects of at most so many fields, of a store with this
// next identity. These identities were met before.
fn read_listed<D: Disk, P: FromPage>(
    alloc: Global,
    pages: &mut Pages<D>,
    entries: &[CatEntry],
    most: u32,
    next: u64,
    met: &mut NumberSet,
    cars: &mut ReadList<P>,
    buffer: &mut [u8],
) -> Result<(), ReadFault>
    requires pages { AllByRecursion (IsEntryThere (state pages.old).count) entries.now }
    requires len { length buffer.old ≡ PAGE_BYTES }
    requires most { most ≤ FIELDS }
    requires next { next ≤ END_ID }
    requires cars { AllByRecursion (IsCar (state pages.old).count next) cars.old }
    ensures gives { IfTold (D.contents (disk_of pages.old)) (λ bytes. (rest : List CatEntry)
        → GoesOn result (behind cars.old (cars_from most next (store_of (state pages.old).count bytes) met.old
        (entries.now ++ rest)))
        (behind cars.new (cars_from most next (store_of (state pages.old).count bytes) met.new rest))) }
    ensures cars { OnOk result (AllByRecursion (IsCar (state pages.old).count next) cars.new) }
    ensures reads { OnOk result ((begun : set.FinSet nat_cmp) (done : List CatEntry)
        → LeadsOn most next begun done cars.old met.old
        → LeadsOn most next begun (done ++ entries.now) cars.new met.new) }
    ensures looked { Looked pages.old pages.new }
    ensures counts { Counts (D.count (disk_of pages.old)) (D.count (disk_of pages.new)) result }
{
    for entry in entries {
        let car = read_entry(alloc, pages, entry, most, next, met, buffer)?;
        cars.push(car)?;
    }
    Ok(())
}

/// The cars that a catalog lists, in order, of objects of at most so many fields, of a store with this next identity,
/// with the map of their slots.
pub(crate) fn read_cars<D: Disk, P: FromPage>(
    alloc: Global,
    pages: &mut Pages<D>,
    catalog: &[(u64, CatalogPage)],
    most: u32,
    next: u64,
    buffer: &mut [u8],
) -> Result<ReadCars<P>, ReadFault>
    requires pages { AllByRecursion (IsEntryThere (state pages.old).count) (entries_of catalog.now) }
    requires len { length buffer.old ≡ PAGE_BYTES }
    requires most { most ≤ FIELDS }
    requires next { next ≤ END_ID }
    ensures gives { IfTold (D.contents (disk_of pages.old)) (λ bytes. Gives result
        (cars_from most next (store_of (state pages.old).count bytes) set.empty (entries_of catalog.now))) }
    ensures cars { IfOk result (λ cars. AllByRecursion (IsCar (state pages.old).count next) cars) }
    ensures reads { IfOk result (λ cars. AreRead most next set.empty (entries_of catalog.now) cars) }
    ensures looked { Looked pages.old pages.new }
    ensures counts { Counts (D.count (disk_of pages.old)) (D.count (disk_of pages.new)) result }
{
    let mut met = NumberSet::new(alloc);
    let mut cars = ReadList::new(alloc);
    for page in catalog {
        let entries = page.1.entries.as_slice();
        read_listed(
            alloc, pages, entries, most, next, &mut met, &mut cars, buffer,
        )?;
    }
    let mapped = cars.mapped(alloc)?;
    Ok(mapped)
}

/// The catalog that the current header names.
pub(crate) fn read_chain<D: Disk>(
    alloc: Global,
    pages: &mut Pages<D>,
    buffer: &mut [u8],
) -> Result<Chain, ReadFault>
    requires first { IsThere (state pages.old).count (state pages.old).header.first }
    requires len { length buffer.old ≡ PAGE_BYTES }
    ensures gives { IfTold (D.contents (disk_of pages.old)) (λ bytes. Gives result
        (catalog_of (store_of (state pages.old).count bytes) (state pages.old).header)) }
    ensures sound { IfOk result (IsSound (state pages.old).count) }
    ensures follow { IfOk result (λ chain. MayFollow set.empty 0 None (entries_of chain)) }
    ensures begins { IfOk result (λ chain. Contains (page_numbers chain) (state pages.old).header.first) }
    ensures looked { Looked pages.old pages.new }
    ensures counts { Counts (D.count (disk_of pages.old)) (D.count (disk_of pages.new)) result }
{
    let header = *pages.header();
    let mut met = Met::beginning_at(alloc, header.first)?;
    let mut chain = Vec::new(alloc);
    let mut page = header.first;
    let mut kept = header.digest;
    for _ in 0..u64::MAX {
        let read = read_link(alloc, pages, page, &kept, &mut met, buffer)?;
        let next = read.next;
        let digest = read.digest;
        chain.push((page, read))?;
        if next == 0 {
            return Ok(Chain::from_vec(chain));
        }
        page = next;
        kept = digest;
    }
    // No chain is as long: a page is never met twice.
    Err(ReadFault::Malformed { page, at: 4 })
}
