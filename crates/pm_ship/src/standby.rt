//! A standby, and the pages of its copy.
ghost use Rattle.std.specs.Prelude.{◌≡◌, false, All, Contains, IfOk, IfErr, OnOk, OnErr};
ghost use Rattle.pm_disk.specs.Disk.{IfTold};
ghost use Rattle.pm_shadow.specs.Copies.{AreUsed};
ghost use Rattle.pm_shadow.specs.Pages.{state, disk_of};
ghost use Rattle.pm_shadow.specs.State.{IsListable};
ghost use Rattle.pm_shadow.specs.Uses.{UsesOnlyListed};
ghost use Rattle.pm_shadow.specs.Runs.{OnlyLooks};
ghost use Rattle.pm_graphs.specs.Reopening.{IsGraphFault};
ghost use Rattle.pm_reopen.specs.Opening.{IsUnopened};
ghost use Rattle.pm_ship.specs.Stores.{IsKnownFrom, IsPackedFrom, IsReadOf, IsReady, IsStandby};

use crate::index::index_of;
use crate::store::{StoreRead, read_store};
use pm_disk::Disk;
use pm_graphs::settled::PackedPages;
use pm_shadow::Pages;
use pm_types::{Addr, Name, NoMemory, OpenFault};
use std::alloc::Global;
use std::collections::BTreeMap;

/// What was read of a standby.
#[derive(Drop)]
pub(crate) struct Standby {
    /// The train of each car.
    pub(crate) trains: Vec<u64>,
    /// The roots, each a name with its address.
    pub(crate) roots: Vec<(Name, Addr)>,
    /// The cars, each as the used bytes of its page.
    pub(crate) settled: PackedPages,
    /// The place of the first car of each number.
    pub(crate) places: BTreeMap<u64, usize>,
}

/// What was read, with its cars packed, and the pages that it stands on. The cars themselves are let go.
pub(crate) fn pack_store(
    alloc: Global,
    read: StoreRead,
    settled: PackedPages,
) -> Result<(Standby, Vec<u64>), NoMemory>
    requires { settled ≡ read.cars }
    ensures { IfOk result (λ packed. IsPackedFrom read packed.0 packed.1.items) }
{
    let places = index_of(alloc, read.cars.as_slice())?;
    let StoreRead {
        trains,
        roots,
        pages,
        ..
    } = read;
    Ok((
        Standby {
            trains,
            roots,
            settled,
            places,
        },
        pages,
    ))
}

/// These are the pages that the current copy stands on. They are known from then on; where they were, what is claimed or
/// kept for a next copy is given up.
pub(crate) fn know_pages<E: Disk>(
    alloc: Global,
    pages: &mut Pages<E>,
    used: &[u64],
) -> Result<(), NoMemory>
    requires there { (state pages.old).known ≡ false → All (IsListable (state pages.old)) used.now }
    requires first { Contains used.now (state pages.old).header.first }
    requires used { IfTold (E.contents (disk_of pages.old)) (λ bytes. AreUsed (state pages.old) bytes used.now) }
    ensures known { OnOk result (IsKnownFrom (state pages.old) (state pages.new)) }
    ensures listed { OnOk result ((state pages.old).known ≡ false → UsesOnlyListed used.now (state pages.new).uses) }
    ensures state_err { OnErr result (state pages.new ≡ state pages.old) }
    ensures still { disk_of pages.new ≡ disk_of pages.old }
{
    if pages.is_known() {
        pages.abandon();
        return Ok(());
    }
    pages.commit_list(alloc, used)?;
    Ok(())
}

/// What was read of a standby is taken, with its cars packed, and its pages are known from then on.
fn take_standby<E: Disk>(
    alloc: Global,
    pages: &mut Pages<E>,
    read: StoreRead,
    packed: PackedPages,
) -> Result<Standby, NoMemory>
    requires read { IsReadOf (state pages.old) (E.contents (disk_of pages.old)) read }
    requires packed { packed ≡ read.cars }
    requires ready { IsReady (state pages.old) (E.contents (disk_of pages.old)) }
    ensures taken { IfOk result (IsStandby (state pages.old) (state pages.new) (E.contents (disk_of pages.old))) }
    ensures state_err { OnErr result (state pages.new ≡ state pages.old) }
    ensures still { disk_of pages.new ≡ disk_of pages.old }
{
    pages.keep_their_header();
    let (standby, used) = pack_store(alloc, read, packed)?;
    know_pages(alloc, pages, &used)?;
    Ok(standby)
}

/// Reads the standby behind these pages, which are known from then on. Nothing is written.
///
/// # Errors
///
/// Those of `read_store`. The pages are as they were then.
pub(crate) fn read_standby<E: Disk>(
    alloc: Global,
    pages: &mut Pages<E>,
) -> Result<Standby, OpenFault>
    requires { IsReady (state pages.old) (E.contents (disk_of pages.old)) }
    ensures read { IfOk result (IsStandby (state pages.old) (state pages.new) (E.contents (disk_of pages.old))) }
    ensures fault { IfErr result (λ fault. IfTold (E.contents (disk_of pages.old)) (λ bytes.
        IsUnopened (state pages.old) bytes fault)) }
    ensures cause { IfErr result (IsGraphFault (E.count (disk_of pages.old)) (E.count (disk_of pages.new))) }
    ensures count { OnOk result (E.count (disk_of pages.new) ≡ E.count (disk_of pages.old)) }
    ensures state_err { OnErr result (state pages.new ≡ state pages.old) }
    ensures looks { OnlyLooks E.contents E.image E.moment E.since (disk_of pages.old) (disk_of pages.new) }
    ensures made { E.made (disk_of pages.new) ≡ E.made (disk_of pages.old) }
{
    let (read, packed) = read_store(alloc, pages)?;
    match take_standby(alloc, pages, read, packed) {
        Ok(standby) => Ok(standby),
        Err(refused) => Err(OpenFault::Memory(refused)),
    }
}
