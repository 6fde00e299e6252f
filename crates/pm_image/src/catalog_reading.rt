ghost use Rattle.std.specs.Prelude.{◌≡◌, ◌==◌, ◌+◌, ◌≤◌, length, slice_index, Option, Some, None, Result, Ok, Err, IfOk};
ghost use Rattle.std.specs.List.{list_all};
ghost use Rattle.pm_types.specs.declared.limits.TheConstants.{PAGE_BYTES};
ghost use Rattle.pm_image.specs.declared.catalog.CatalogPage.{CatalogPage};
ghost use Rattle.pm_image.specs.declared.fault.PageFault.TheVariants.{Malformed};
ghost use Rattle.pm_image.specs.Answers.{answer, Gives};
ghost use Rattle.pm_image.specs.CarPages.{padded};
ghost use Rattle.pm_image.specs.CatalogReading.{name_at, root_at, next_page_at, next_digest_at, HasRoomForRoots};
ghost use Rattle.pm_image.specs.CatalogPages.{nothing_met, meeting_all, meeting_page, has_next_digest, car_entry_at, root_entry_at, entry_at, entries_at, catalog_at, catalog_spelling, HasCatalogPage, IsCatalogInRange};

use crate::catalog_kind::{
    ADDRESS_BYTES, CAR, CAR_ENTRY_BYTES, CATALOG_MAGIC, COUNT, ENTRIES, NEXT, NEXT_DIGEST, ROOT,
    ROOT_ENTRY_BYTES,
};
use crate::steps::{check_magic, check_rest};
use crate::{CatEntry, CatalogPage, EntryList, Met, PageFault};
use pm_layout::{address_at, digest_at, u16_at, u64_at};
use pm_types::{Name, NameFault};
use std::alloc::Global;

// The byte at a place, or 0 past the end.
fn byte_at(page: &[u8], place: usize) -> u8
    ensures { result ≡ slice_index page.now place }
{
    page.get(place).copied().unwrap_or(0)
}

// The first byte of the field at fault.
fn malformed<T: Drop>(place: usize) -> Result<T, PageFault>
    requires { place ≤ PAGE_BYTES }
    ensures { result ≡ Err (Malformed place) }
{
    Err(PageFault::Malformed(place as u32))
}

// A car's entry, which ends inside the page.
#[tactic(auto, unfolding(crate::specs::CatalogPages::car_entry_at))]
fn car_entry_at(
    count: Option<u64>,
    met: &Met,
    page: &[u8],
    place: usize,
) -> Result<(CatEntry, usize), PageFault>
    requires whole { length page.now ≡ PAGE_BYTES }
    requires inside { place + CAR_ENTRY_BYTES ≤ PAGE_BYTES }
    ensures { result ≡ answer (car_entry_at count met.now page.now place) }
{
    let car = u64_at(page, place + 1);
    let train = u64_at(page, place + 9);
    let at = u64_at(page, place + 17);
    if car == 0 || met.has_car(car) {
        return malformed(place + 1);
    }
    if train < met.train() {
        return malformed(place + 9);
    }
    if !met.is_free_page(count, at) {
        return malformed(place + 17);
    }
    let entry = CatEntry::Car {
        car,
        train,
        page: at,
        digest: digest_at(page, place + 25),
    };
    Ok((entry, place + CAR_ENTRY_BYTES))
}

// The name of so many bytes from a place on, whose length stands at another.
fn name_at(
    alloc: Global,
    page: &[u8],
    at: usize,
    len: usize,
    place: usize,
) -> Result<Name, PageFault>
    requires whole { length page.now ≡ PAGE_BYTES }
    requires counted { at ≤ PAGE_BYTES }
    requires inside { place + len ≤ PAGE_BYTES }
    ensures { Gives result (name_at page.now at len place) }
{
    match Name::read(alloc, &page[place..place + len]) {
        Ok(name) => Ok(name),
        Err(NameFault::Empty) => malformed(at),
        Err(NameFault::TooLong(_)) => malformed(at),
        Err(NameFault::BadByte(ahead)) => malformed(place + ahead as usize),
        Err(NameFault::Memory(refused)) => Err(PageFault::Memory(refused)),
    }
}

// A root of this name, the length of which stands at a place; its address stands at another.
#[tactic(auto, unfolding(crate::specs::CatalogReading::root_at))]
fn root_at(
    count: Option<u64>,
    met: &Met,
    page: &[u8],
    at: usize,
    name: Name,
    place: usize,
) -> Result<(CatEntry, usize), PageFault>
    requires whole { length page.now ≡ PAGE_BYTES }
    requires counted { at ≤ PAGE_BYTES }
    requires inside { place + 12 ≤ PAGE_BYTES }
    ensures { result ≡ answer (root_at count met.now page.now at name place) }
{
    if !met.is_next_name(&name) || !met.has_root_left(count) {
        return malformed(at);
    }
    let address = address_at(page, place);
    if address.car == 0 {
        return malformed(place);
    }
    Ok((CatEntry::Root { name, at: address }, place + ADDRESS_BYTES))
}

// A root's entry, which ends inside the page.
fn root_entry_at(
    alloc: Global,
    count: Option<u64>,
    met: &Met,
    page: &[u8],
    place: usize,
) -> Result<(CatEntry, usize), PageFault>
    requires whole { length page.now ≡ PAGE_BYTES }
    requires inside { place + ROOT_ENTRY_BYTES + slice_index page.now (place + 1) ≤ PAGE_BYTES }
    ensures { Gives result (root_entry_at count met.now page.now place) }
{
    let len = page[place + 1] as usize;
    let name = name_at(alloc, page, place + 1, len, place + 2)?;
    root_at(count, met, page, place + 1, name, place + 2 + len)
}

// The entry at a place, and the place after it.
#[tactic(auto, unfolding(crate::specs::CatalogPages::entry_at))]
fn entry_at(
    alloc: Global,
    count: Option<u64>,
    met: &Met,
    page: &[u8],
    place: usize,
) -> Result<(CatEntry, usize), PageFault>
    requires whole { length page.now ≡ PAGE_BYTES }
    requires inside { place ≤ PAGE_BYTES }
    ensures { Gives result (entry_at count met.now page.now place) }
{
    match byte_at(page, place) {
        CAR => {
            if page.len() < place + CAR_ENTRY_BYTES || met.has_root() {
                return malformed(place);
            }
            car_entry_at(count, met, page, place)
        }
        ROOT => {
            if page.len() < place + ROOT_ENTRY_BYTES + byte_at(page, place + 1) as usize {
                return malformed(place);
            }
            root_entry_at(alloc, count, met, page, place)
        }
        _ => malformed(place),
    }
}

// So many entries from a place on, and the place after the last of them.
fn entries_at(
    alloc: Global,
    count: Option<u64>,
    met: &mut Met,
    page: &[u8],
    len: u16,
    start: usize,
) -> Result<(EntryList, usize), PageFault>
    requires whole { length page.now ≡ PAGE_BYTES }
    requires inside { start ≤ PAGE_BYTES }
    requires room { HasRoomForRoots count met.old.roots start }
    ensures exact { Gives result (entries_at count met.old page.now len start) }
    ensures met { IfOk result (λ read. met.new ≡ meeting_all met.old read.0) }
    ensures inside { IfOk result (λ read. read.1 ≤ PAGE_BYTES) }
{
    let mut entries = Vec::new(alloc);
    let mut place = start;
    for _ in 0..len {
        let (entry, next) = entry_at(alloc, count, met, page, place)?;
        met.meet(alloc, &entry)?;
        entries.push(entry)?;
        place = next;
    }
    Ok((EntryList::from_vec(entries), place))
}

#[tactic(auto, unfolding(crate::specs::CatalogReading::next_page_at))]
fn next_page_at(count: Option<u64>, met: &Met, page: &[u8]) -> Result<u64, PageFault>
    requires { length page.now ≡ PAGE_BYTES }
    ensures { result ≡ answer (next_page_at count met.now.pages page.now) }
{
    let next = u64_at(page, NEXT);
    if next != 0 && !met.is_free_page(count, next) {
        return malformed(NEXT);
    }
    Ok(next)
}

fn is_zero(digest: &[u8; 32]) -> bool
    ensures { result ≡ list_all (λ byte. byte == 0) digest.now }
{
    digest.iter().all(|byte| *byte == 0)
}

// Where there is no next page, its digest is all 0.
fn has_next_digest(next: u64, digest: &[u8; 32]) -> bool
    ensures { result ≡ has_next_digest next digest.now }
{
    next != 0 || is_zero(digest)
}

#[tactic(auto, unfolding(crate::specs::CatalogReading::next_digest_at))]
fn next_digest_at(next: u64, page: &[u8]) -> Result<[u8; 32], PageFault>
    requires { length page.now ≡ PAGE_BYTES }
    ensures { result ≡ answer (next_digest_at next page.now) }
{
    let digest = digest_at(page, NEXT_DIGEST);
    if !has_next_digest(next, &digest) {
        return malformed(NEXT_DIGEST);
    }
    Ok(digest)
}

// The page, with this met before.
fn catalog_at(
    alloc: Global,
    count: Option<u64>,
    met: &mut Met,
    page: &[u8],
) -> Result<CatalogPage, PageFault>
    requires whole { length page.now ≡ PAGE_BYTES }
    requires room { HasRoomForRoots count met.old.roots ENTRIES }
    ensures exact { Gives result (catalog_at count met.old page.now) }
    ensures met { IfOk result (λ read. met.new ≡ meeting_page met.old read) }
{
    check_magic(&CATALOG_MAGIC, page)?;
    let next = next_page_at(count, met, page)?;
    let digest = next_digest_at(next, page)?;
    met.meet_next(next)?;
    let (entries, end) = entries_at(alloc, count, met, page, u16_at(page, COUNT), ENTRIES)?;
    check_rest(page, end)?;
    Ok(CatalogPage {
        next,
        digest,
        entries,
    })
}

/// The catalog page that the bytes spell, read by itself: which pages there are, and how many roots other pages
/// list, is not asked.
pub fn read_catalog(alloc: Global, page: &[u8]) -> Result<CatalogPage, PageFault>
    requires { length page.now ≡ PAGE_BYTES }
    // What is read is spelled so, with zeros to the page's end.
    ensures found { IfOk result (λ read. HasCatalogPage None nothing_met read
        × (page.now ≡ padded (catalog_spelling read))) }
    // What is spelled so is read, unless memory runs out.
    ensures only { (read : CatalogPage) → HasCatalogPage None nothing_met read → IsCatalogInRange read
        → page.now ≡ padded (catalog_spelling read) → Gives result (Ok read) }
    // Which fault it is.
    ensures exact { Gives result (catalog_at None nothing_met page.now) }
{
    let mut met = Met::new(alloc);
    catalog_at(alloc, None, &mut met, page)
}

/// The catalog page that the bytes spell, in a store of so many pages and with this met before. Then its next
/// page and its entries are met. After a fault some of them may be, too: the store is not read on.
pub fn read_catalog_in(
    alloc: Global,
    page: &[u8],
    count: u64,
    met: &mut Met,
) -> Result<CatalogPage, PageFault>
    requires { length page.now ≡ PAGE_BYTES }
    // What is read is spelled so, with zeros to the page's end.
    ensures found { IfOk result (λ read. HasCatalogPage (Some count) met.old read
        × (page.now ≡ padded (catalog_spelling read))) }
    // What is spelled so is read, unless memory runs out.
    ensures only { (read : CatalogPage) → HasCatalogPage (Some count) met.old read → IsCatalogInRange read
        → page.now ≡ padded (catalog_spelling read) → Gives result (Ok read) }
    // Which fault it is.
    ensures exact { Gives result (catalog_at (Some count) met.old page.now) }
    // What is met then.
    ensures met { IfOk result (λ read. met.new ≡ meeting_page met.old read) }
{
    catalog_at(alloc, Some(count), met, page)
}
