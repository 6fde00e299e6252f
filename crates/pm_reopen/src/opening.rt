//! Opening a store as a space.

ghost use Rattle.std.specs.Prelude.{◌≡◌, true, false, List, Contains, All, IfOk, IfErr, OnOk, OnErr, MatchResult};
ghost use Rattle.std.specs.List.{AllZip};
ghost use Rattle.pm_disk.specs.Disk.{IfTold};
ghost use Rattle.pm_image.specs.declared.settled.KeptPage.{KeptPage};
ghost use Rattle.pm_image.specs.Graphs.{images_of, entries_of, used_pages};
ghost use Rattle.pm_copies.specs.Listed.{images};
ghost use Rattle.pm_copies.specs.Accepted.{IsAccepted};
ghost use Rattle.pm_copies.specs.Opened.{IsOpened, listed_in};
ghost use Rattle.pm_shadow.specs.State.{IsListable};
ghost use Rattle.pm_shadow.specs.Uses.{UsesOnlyListed};
ghost use Rattle.pm_shadow.specs.Copies.{AreUsed};
ghost use Rattle.pm_shadow.specs.Runs.{OnlyLooks};
ghost use Rattle.pm_shadow.specs.Pages.{state, disk_of};
ghost use Rattle.pm_space.specs.Shown.{view};
ghost use Rattle.pm_graphs.specs.Reading.{IsThere};
ghost use Rattle.pm_graphs.specs.Reopening.{IsGraphFault};
ghost use Rattle.pm_reopen.specs.Opening.{OpensStore, MakesSpace, OpensOf, OpensAlone, IsUnfrozen};
ghost use Rattle.pm_reopen.specs.Opening.{KnowsPages, IsUnopened};

use crate::build_listed;
use pm_disk::Disk;
use pm_graphs::settled::PackedPages;
use pm_graphs::{Chain, FromPage, MappedCars, Unpacked, flatten, read_graph, with_cars};
use pm_place::Placement;
use pm_shadow::Pages;
use pm_space::Space;
use pm_types::{NoMemory, OpenFault};
use std::alloc::Global;

// The space of a catalog and its cars, and the pages that these stand on.
fn build_graph<F: Drop>(
    alloc: Global,
    place: Placement<F>,
    chain: Chain,
    cars: MappedCars,
    next: u64,
) -> Result<(Space<F>, Vec<u64>), NoMemory>
    requires paired { images (listed_in (entries_of chain) (images_of cars)) ≡ images_of cars }
    requires accepted { IsAccepted (listed_in (entries_of chain) (images_of cars)) (entries_of chain) next }
    ensures view { IfOk result (λ made. IsOpened (listed_in (entries_of chain) (images_of cars))
        (entries_of chain) next
        (view made.0.parts)) }
    ensures unfrozen { IfOk result (λ made. IsUnfrozen made.0.parts place) }
    ensures pages { IfOk result (λ made. made.1.items ≡ used_pages (record { catalog = chain; cars = cars })) }
{
    let (numbers, entries) = flatten(alloc, chain)?;
    let used = with_cars(numbers, cars.as_slice())?;
    let space = build_listed(alloc, place, entries.as_slice(), cars, next)?;
    Ok((space, used))
}

// The page is one of a store of so many pages, behind the headers.
fn is_there(page: u64, count: u64) -> bool
    ensures there { result ≡ true → IsThere count page }
    ensures only { IsThere count page → result ≡ true }
{
    2 <= page && page < count
}

// These are the pages that the current copy stands on. They are known from then on; where they were, nothing is done.
fn know_pages<D: Disk>(alloc: Global, pages: &mut Pages<D>, used: &[u64]) -> Result<(), NoMemory>
    requires there { (state pages.old).known ≡ false → All (IsListable (state pages.old)) used.now }
    requires first { Contains used.now (state pages.old).header.first }
    requires used { IfTold (D.contents (disk_of pages.old)) (λ bytes. AreUsed (state pages.old) bytes used.now) }
    ensures state { OnOk result (KnowsPages (state pages.old) (state pages.new)) }
    ensures listed { OnOk result ((state pages.old).known ≡ false → UsesOnlyListed used.now (state pages.new).uses) }
    ensures state_err { OnErr result (state pages.new ≡ state pages.old) }
    ensures still { disk_of pages.new ≡ disk_of pages.old }
{
    if pages.is_known() {
        return Ok(());
    }
    pages.commit_list(alloc, used)?;
    Ok(())
}

// Opens the copy behind the current header of a store as a space with this chooser. With it comes what is made of the
// page of each car, in the order of the cars.
fn open_with<D: Disk, F: Drop, P: FromPage>(
    alloc: Global,
    pages: &mut Pages<D>,
    place: Placement<F>,
) -> Result<(Space<F>, Vec<P>), OpenFault>
    requires { (state pages.old).failed ≡ false }
    ensures opened { IfOk result (λ made. (cars : List KeptPage) × AllZip P.is_of made.1.items cars
        × OpensOf (D.contents (disk_of pages.new)) (state pages.old) (state pages.new) made.0.parts place cars) }
    ensures state { MatchResult result (λ made. KnowsPages (state pages.old) (state pages.new))
        (λ fault. state pages.new ≡ state pages.old) }
    ensures fault { IfErr result (λ fault. IfTold (D.contents (disk_of pages.old)) (λ bytes.
        IsUnopened (state pages.old) bytes fault)) }
    ensures cause { IfErr result (IsGraphFault (D.count (disk_of pages.old)) (D.count (disk_of pages.new))) }
    ensures count { OnOk result (D.count (disk_of pages.new) ≡ D.count (disk_of pages.old)) }
    ensures looks { OnlyLooks D.contents D.image D.moment D.since (disk_of pages.old) (disk_of pages.new) }
    ensures made { D.made (disk_of pages.new) ≡ D.made (disk_of pages.old) }
{
    pages.keep_their_header();
    pages.keep_the_current_copy();
    let header = *pages.header();
    if !is_there(header.first, pages.page_count()) {
        return Err(OpenFault::Malformed {
            page: pages.slot(),
            at: 24,
        });
    }
    let (chain, read) = read_graph(alloc, pages)?;
    let (cars, made) = read.into_made();
    let built = build_graph(alloc, place, chain, cars, header.next);
    let (space, used) = match built {
        Ok((space, used)) => (space, used),
        Err(refused) => return Err(OpenFault::Memory(refused)),
    };
    let known = know_pages(alloc, pages, used.as_slice());
    match known {
        Ok(()) => {}
        Err(refused) => return Err(OpenFault::Memory(refused)),
    }
    Ok((space, made))
}

/// Opens the copy behind the current header of a store as a space with this chooser. Its catalog and its cars are read,
/// each page once, and with the space come the cars, each as its page spells it. The pages that they stand on are known
/// from then on. Pages that are known already stay as they are, also those that are claimed or kept for a next copy.
/// Nothing is written, and no page is claimed. No publish of these pages has failed.
///
/// # Errors
///
/// `Damaged` and `Malformed` where the header or a page behind it is at fault: the first rule that fails; `Disk` where
/// the disk failed, with its counts of failed calls before and after; and `Memory`. The pages are as they were then.
pub fn open_space<D: Disk, F: Drop>(
    alloc: Global,
    pages: &mut Pages<D>,
    place: Placement<F>,
) -> Result<(Space<F>, PackedPages), OpenFault>
    requires { (state pages.old).failed ≡ false }
    // The space is what opening makes of the bytes of the disk, the cars are as their pages spell them, and the pages of
    // these and of the catalog are known.
    ensures opened { IfOk result (λ made. IfTold (D.contents (disk_of pages.new)) (λ bytes.
        OpensStore (state pages.old) (state pages.new) bytes (view made.0.parts) made.1)) }
    // Of any disk, the space is what opening makes of cars that no rule refuses, which are these.
    ensures made_of { IfOk result (λ made. MakesSpace (state pages.old) (state pages.new) made.0.parts place made.1) }
    ensures state { MatchResult result (λ made. KnowsPages (state pages.old) (state pages.new))
        (λ fault. state pages.new ≡ state pages.old) }
    // Why none was opened.
    ensures fault { IfErr result (λ fault. IfTold (D.contents (disk_of pages.old)) (λ bytes.
        IsUnopened (state pages.old) bytes fault)) }
    ensures cause { IfErr result (IsGraphFault (D.count (disk_of pages.old)) (D.count (disk_of pages.new))) }
    ensures count { OnOk result (D.count (disk_of pages.new) ≡ D.count (disk_of pages.old)) }
    ensures looks { OnlyLooks D.contents D.image D.moment D.since (disk_of pages.old) (disk_of pages.new) }
    // Not even a sync, and no read past the end of what the disk told.
    ensures made { D.made (disk_of pages.new) ≡ D.made (disk_of pages.old) }
{
    match open_with(alloc, pages, place) {
        Ok((space, packed)) => Ok((space, PackedPages::from_vec(packed))),
        Err(fault) => Err(fault),
    }
}

/// Opens the same space as `open_space`, by the same reads and with the same refusals, where nobody wants the cars
/// beside it: no page is packed. Which cars it was opened of is said by a list that is not handed out.
///
/// # Errors
///
/// `Damaged` and `Malformed` where the header or a page behind it is at fault: the first rule that fails; `Disk` where
/// the disk failed, with its counts of failed calls before and after; and `Memory`. The pages are as they were then.
pub fn open_space_alone<D: Disk, F: Drop>(
    alloc: Global,
    pages: &mut Pages<D>,
    place: Placement<F>,
) -> Result<Space<F>, OpenFault>
    requires { (state pages.old).failed ≡ false }
    // The space is what opening makes of the bytes of the disk, and the pages of their cars and catalog are known. Of
    // any disk, it is what opening makes of cars that no rule refuses, which are those of the bytes where these are told.
    ensures opened { IfOk result (λ space. OpensAlone (D.contents (disk_of pages.new))
        (state pages.old) (state pages.new) space.parts place) }
    ensures state { MatchResult result (λ space. KnowsPages (state pages.old) (state pages.new))
        (λ fault. state pages.new ≡ state pages.old) }
    // Why none was opened.
    ensures fault { IfErr result (λ fault. IfTold (D.contents (disk_of pages.old)) (λ bytes.
        IsUnopened (state pages.old) bytes fault)) }
    ensures cause { IfErr result (IsGraphFault (D.count (disk_of pages.old)) (D.count (disk_of pages.new))) }
    ensures count { OnOk result (D.count (disk_of pages.new) ≡ D.count (disk_of pages.old)) }
    ensures looks { OnlyLooks D.contents D.image D.moment D.since (disk_of pages.old) (disk_of pages.new) }
    // Not even a sync, and no read past the end of what the disk told.
    ensures made { D.made (disk_of pages.new) ≡ D.made (disk_of pages.old) }
{
    let opened: Result<(Space<F>, Vec<Unpacked>), OpenFault> = open_with(alloc, pages, place);
    match opened {
        Ok((space, _)) => Ok(space),
        Err(fault) => Err(fault),
    }
}
