//! The graph behind the current header.

ghost use Rattle.std.specs.Prelude.{◌≡◌, ◌++◌, Contains, IfOk, IfErr, OnOk, map};
ghost use Rattle.pm_disk.specs.Disk.{IfTold};
ghost use Rattle.pm_image.specs.declared.settled.KeptPage.{KeptPage};
ghost use Rattle.pm_image.specs.Graphs.{entries_of, graph_of};
ghost use Rattle.pm_shadow.specs.Pages.{state, disk_of};
ghost use Rattle.pm_graphs.specs.Reading.{Gives, as_graph, Counts, Looked, store_of, IsThere, page_numbers, IsReadWhole};
ghost use Rattle.pm_graphs.specs.Reopening.{IsGraph, IsGraphFault, open_fault};

use crate::chain::Chain;
use crate::fault::ReadFault;
use crate::from_page::FromPage;
use crate::links::check_links;
use crate::read_cars::ReadCars;
use crate::reading::{read_cars, read_chain};
use pm_disk::Disk;
use pm_image::{CatalogPage, EntryList, KeptPage};
use pm_layout::most_fields;
use pm_shadow::Pages;
use pm_types::{NoMemory, OpenFault, PAGE_BYTES};
use std::alloc::Global;

/// The numbers of the pages of a catalog, and what they list, each in order.
pub fn flatten(alloc: Global, chain: Chain) -> Result<(Vec<u64>, EntryList), NoMemory>
    ensures numbers { IfOk result (λ flat. flat.0.items ≡ page_numbers chain) }
    ensures entries { IfOk result (λ flat. flat.1 ≡ entries_of chain) }
{
    let mut numbers = Vec::new(alloc);
    let mut entries = Vec::new(alloc);
    for (page, read) in chain.into_vec() {
        let CatalogPage {
            entries: listed,
            ..
        } = read;
        numbers.push(page)?;
        entries.append(&mut listed.into_vec())?;
    }
    Ok((numbers, EntryList::from_vec(entries)))
}

/// The numbers of pages, and behind them those of the pages of cars.
pub fn with_cars(numbers: Vec<u64>, cars: &[KeptPage]) -> Result<Vec<u64>, NoMemory>
    ensures { IfOk result (λ used. used.items ≡ numbers.items ++ map (λ (kept : KeptPage). kept.page) cars.now) }
{
    let mut used = numbers;
    for kept in cars {
        used.push(kept.page)?;
    }
    Ok(used)
}

// The catalog and the cars behind the current header, each address of which leads where it may.
fn read_whole<D: Disk, P: FromPage>(
    alloc: Global,
    pages: &mut Pages<D>,
) -> Result<(Chain, ReadCars<P>), ReadFault>
    requires { IsThere (state pages.old).count (state pages.old).header.first }
    ensures gives { IfTold (D.contents (disk_of pages.old)) (λ bytes. Gives (as_graph result)
        (graph_of (store_of (state pages.old).count bytes) (state pages.old).header)) }
    ensures whole { IfOk result
        (λ read. IsReadWhole (state pages.old).count (state pages.old).header.next read.0 read.1) }
    ensures begins { IfOk result (λ read. Contains (page_numbers read.0) (state pages.old).header.first) }
    ensures looked { Looked pages.old pages.new }
    ensures counts { Counts (D.count (disk_of pages.old)) (D.count (disk_of pages.new)) result }
{
    pages.keep_their_header();
    let header = *pages.header();
    let most = most_fields(header.version);
    let mut buffer = vec![in alloc; 0; PAGE_BYTES]?;
    let chain = read_chain(alloc, pages, &mut buffer)?;
    let listed = chain.as_slice();
    let cars = read_cars(alloc, pages, listed, most, header.next, &mut buffer)?;
    check_links(listed, cars.mapped())?;
    Ok((chain, cars))
}

// What a fault is for the one who opens a store.
fn open_fault(fault: ReadFault, before: u64, after: u64) -> OpenFault
    ensures { result ≡ open_fault fault before after }
{
    match fault {
        ReadFault::Damaged { page, kept, found } => OpenFault::Damaged { page, kept, found },
        ReadFault::Malformed { page, at } => OpenFault::Malformed { page, at },
        ReadFault::Failed => OpenFault::Disk { before, after },
        ReadFault::Memory(refused) => OpenFault::Memory(refused),
    }
}

/// The catalog behind the current header and the cars that it lists, as their pages spell them, with what is made of
/// the page of each car: the car packed (`PackedPage`), or nothing (`Unpacked`). Only the pages that they stand on are
/// read, each once, and nothing is written.
///
/// # Errors
///
/// The first of these that applies, with its page: of the catalog's pages in the order of the chain, then of the cars'
/// pages in the order of the catalog, `Damaged` where a page has another digest than the one that is kept of it, and
/// `Malformed` where a field of it is at fault, with the place of that field; then of the addresses in the order of
/// cars, records and fields, and of roots, `Malformed` with the place of the first that leads nowhere. `Disk` where the
/// disk failed, with its counts of failed calls before and after; and `Memory`.
pub fn read_graph<D: Disk, P: FromPage>(
    alloc: Global,
    pages: &mut Pages<D>,
) -> Result<(Chain, ReadCars<P>), OpenFault>
    requires { IsThere (state pages.old).count (state pages.old).header.first }
    // Where the disk tells its contents it is the graph behind the header, or the first fault.
    ensures graph { IfTold (D.contents (disk_of pages.old)) (λ bytes. IsGraph result
        (graph_of (store_of (state pages.old).count bytes) (state pages.old).header)) }
    // On any disk the pages are pages of the store, with the one that the header names, each entry follows those before
    // it, the cars are those that are listed, and each address leads where it may.
    ensures whole { IfOk result
        (λ read. IsReadWhole (state pages.old).count (state pages.old).header.next read.0 read.1) }
    ensures begins { IfOk result (λ read. Contains (page_numbers read.0) (state pages.old).header.first) }
    ensures cause { IfErr result (IsGraphFault (D.count (disk_of pages.old)) (D.count (disk_of pages.new))) }
    ensures count { OnOk result (D.count (disk_of pages.new) ≡ D.count (disk_of pages.old)) }
    ensures looked { Looked pages.old pages.new }
{
    let before = pages.faults();
    match read_whole(alloc, pages) {
        Ok(read) => Ok(read),
        Err(fault) => {
            let after = pages.faults();
            Err(open_fault(fault, before, after))
        }
    }
}
