//! What is read of a store.
ghost use Rattle.std.specs.Prelude.{◌≡◌, false, true, Contains, IfOk, IfErr, OnOk};
ghost use Rattle.pm_disk.specs.Disk.{IfTold};
ghost use Rattle.pm_shadow.specs.Pages.{state, disk_of};
ghost use Rattle.pm_graphs.specs.Reading.{IsReadWhole, IsThere, Looked, page_numbers};
ghost use Rattle.pm_graphs.specs.Reopening.{IsGraphFault};
ghost use Rattle.pm_reopen.specs.Opening.{IsUnopened};
ghost use Rattle.pm_ship.specs.Offers.{IsFound};
ghost use Rattle.pm_ship.specs.Stores.{IsReadOf, IsTakenFrom};

use crate::entries::part_entries;
use pm_disk::Disk;
use pm_graphs::settled::{PackedPage, PackedPages};
use pm_graphs::{Chain, ReadCars, flatten, read_graph, with_cars};
use pm_image::Settled;
use pm_shadow::Pages;
use pm_types::{Addr, Name, NoMemory, OpenFault};
use std::alloc::Global;

/// What was read of a store: the number of its copy and its next identity, what its catalog lists, and its cars.
#[derive(Drop)]
pub(crate) struct StoreRead {
    /// The number of its copy.
    pub(crate) epoch: u32,
    /// Its next identity.
    pub(crate) next: u64,
    /// The train of each car.
    pub(crate) trains: Vec<u64>,
    /// The cars as their pages spell them, in the order of the catalog.
    pub(crate) cars: Settled,
    /// The roots, each a name with its address, in ascending order of the names.
    pub(crate) roots: Vec<(Name, Addr)>,
    /// The pages that the catalog and the cars stand on.
    pub(crate) pages: Vec<u64>,
}

/// The page is one of a store of so many pages, behind the headers.
fn is_there(page: u64, count: u64) -> bool
    ensures there { result ≡ true → IsThere count page }
    ensures only { IsThere count page → result ≡ true }
{
    2 <= page && page < count
}

/// The catalog behind the current header and the cars that it lists.
fn read_pages<D: Disk>(
    alloc: Global,
    pages: &mut Pages<D>,
) -> Result<(Chain, ReadCars<PackedPage>), OpenFault>
    requires sound { (state pages.old).failed ≡ false }
    ensures whole { IfOk result
        (λ read. IsReadWhole (state pages.old).count (state pages.old).header.next read.0 read.1) }
    ensures first { IfOk result (λ read. Contains (page_numbers read.0) (state pages.old).header.first) }
    ensures found { IfOk result (λ read. IfTold (D.contents (disk_of pages.old)) (λ bytes.
        IsFound (state pages.old) bytes (record { catalog = read.0; cars = read.1 }))) }
    ensures fault { IfErr result (λ fault. IfTold (D.contents (disk_of pages.old)) (λ bytes.
        IsUnopened (state pages.old) bytes fault)) }
    ensures cause { IfErr result (IsGraphFault (D.count (disk_of pages.old)) (D.count (disk_of pages.new))) }
    ensures count { OnOk result (D.count (disk_of pages.new) ≡ D.count (disk_of pages.old)) }
    ensures looked { Looked pages.old pages.new }
{
    pages.keep_their_header();
    pages.keep_the_current_copy();
    let header = *pages.header();
    if !is_there(header.first, pages.page_count()) {
        return Err(OpenFault::Malformed {
            page: pages.slot(),
            at: 24,
        });
    }
    read_graph(alloc, pages)
}

/// What a catalog and its cars have, with the pages that these stand on.
fn take_graph(
    alloc: Global,
    chain: Chain,
    cars: Settled,
    epoch: u32,
    next: u64,
) -> Result<StoreRead, NoMemory>
    ensures { IfOk result (IsTakenFrom chain cars epoch next) }
{
    let (numbers, entries) = flatten(alloc, chain)?;
    let pages = with_cars(numbers, cars.as_slice())?;
    let (trains, roots) = part_entries(alloc, entries)?;
    Ok(StoreRead {
        epoch,
        next,
        trains,
        cars,
        roots,
        pages,
    })
}

/// The same of cars that were read, and these packed.
fn take_read(
    alloc: Global,
    chain: Chain,
    read: ReadCars<PackedPage>,
    epoch: u32,
    next: u64,
) -> Result<(StoreRead, PackedPages), NoMemory>
    ensures taken { IfOk result (λ taken. IsTakenFrom chain read epoch next taken.0) }
    ensures packed { IfOk result (λ taken. taken.1 ≡ taken.0.cars) }
{
    let (cars, packed) = read.into_parts();
    let taken = take_graph(alloc, chain, cars, epoch, next)?;
    Ok((taken, packed))
}

/// Reads the store behind these pages, each page of it once. With it come the same cars, packed. Nothing is written.
///
/// # Errors
///
/// `Damaged` and `Malformed` by the first rule that fails, `Disk` where the disk failed, with its counts of failed calls
/// before and after, and `Memory`.
pub(crate) fn read_store<D: Disk>(
    alloc: Global,
    pages: &mut Pages<D>,
) -> Result<(StoreRead, PackedPages), OpenFault>
    requires sound { (state pages.old).failed ≡ false }
    ensures read { IfOk result (λ read. IsReadOf (state pages.old) (D.contents (disk_of pages.old)) read.0) }
    ensures packed { IfOk result (λ read. read.1 ≡ read.0.cars) }
    ensures fault { IfErr result (λ fault. IfTold (D.contents (disk_of pages.old)) (λ bytes.
        IsUnopened (state pages.old) bytes fault)) }
    ensures cause { IfErr result (IsGraphFault (D.count (disk_of pages.old)) (D.count (disk_of pages.new))) }
    ensures count { OnOk result (D.count (disk_of pages.new) ≡ D.count (disk_of pages.old)) }
    ensures looked { Looked pages.old pages.new }
{
    let epoch = pages.header().epoch;
    let next = pages.header().next;
    let (chain, cars) = read_pages(alloc, pages)?;
    match take_read(alloc, chain, cars, epoch, next) {
        Ok(taken) => Ok(taken),
        Err(refused) => Err(OpenFault::Memory(refused)),
    }
}
