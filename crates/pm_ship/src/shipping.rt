//! The call that brings a standby to the last settled copy of a first store.
ghost use Rattle.std.specs.Prelude.{◌≡◌, false, IfOk, IfErr};
ghost use Rattle.pm_shadow.specs.Pages.{state, disk_of};
ghost use Rattle.pm_graphs.specs.Reading.{Looked};
ghost use Rattle.pm_save.specs.Progress.Answers.{TellsOn};
ghost use Rattle.pm_ship.specs.Begun.{MayBeOffered};
ghost use Rattle.pm_ship.specs.SameLists.{Stands};
ghost use Rattle.pm_ship.specs.Stores.{IsReady, IsStill, offered};
ghost use Rattle.pm_ship.specs.Written.{SparesCopy};
ghost use Rattle.pm_ship.specs.Shipped.{HasShipCause, IsShipFault, IsShipped, IsStandbyFault, LeavesEither, LeavesStandby, MayGoAgain, ShipsFirst, UnlessFails, UnlessOther, UnlessStopped, WritesFirst, first_fault, standby_fault};

use crate::next_copy::write_copy;
use crate::same_lists::have_same_lists;
use crate::standby::{Standby, read_standby};
use crate::store::{StoreRead, read_store};
use crate::{ShipFault, Shipped};
use pm_disk::Disk;
use pm_layout::Header;
use pm_shadow::Pages;
use pm_types::OpenFault;
use std::alloc::Global;

/// How the copy of a standby stands to that of the first store.
#[derive(Clone, Copy, Debug, PartialEq, Eq)]
pub(crate) enum Standing {
    /// It has an earlier number.
    Earlier,
    /// It is the same copy under the same number.
    Same,
    /// It is another copy under the same number.
    Foreign,
    /// It has a later number.
    Later,
}

/// How the copy of the standby, behind this header, stands to what was read of the first store.
fn compared(first: &StoreRead, standby: &Standby, header: &Header) -> Standing
    ensures { Stands first.now standby.now header.now result }
{
    if header.epoch < first.epoch {
        return Standing::Earlier;
    }
    if first.epoch < header.epoch {
        return Standing::Later;
    }
    if header.next == first.next && have_same_lists(first, standby) {
        Standing::Same
    } else {
        Standing::Foreign
    }
}

/// What a fault of the first store is for a ship.
pub(crate) fn of_first(fault: OpenFault) -> ShipFault
    ensures { result ≡ first_fault fault }
{
    match fault {
        OpenFault::Disk { before, after } => ShipFault::Disk { before, after },
        OpenFault::Memory(refused) => ShipFault::Memory(refused),
        refusal => ShipFault::From(refusal),
    }
}

/// What a fault of the standby is.
pub(crate) fn of_standby(fault: OpenFault) -> ShipFault
    ensures { result ≡ standby_fault fault }
{
    match fault {
        OpenFault::Disk { before, after } => ShipFault::OtherDisk { before, after },
        OpenFault::Memory(refused) => ShipFault::Memory(refused),
        refusal => ShipFault::To(refusal),
    }
}

/// Ships what was read of the first store. The standby is read, and compared with it.
fn ship_read<E: Disk>(
    alloc: Global,
    first: StoreRead,
    to: &mut Pages<E>,
) -> Result<Shipped, ShipFault>
    requires may { MayBeOffered first }
    requires ready { IsReady (state to.old) (E.contents (disk_of to.old)) }
    ensures shipped { IfOk result (IsShipped (offered first) to.old to.new) }
    ensures fault { IfErr result (IsStandbyFault (offered first) (state to.old) (E.contents (disk_of to.old))) }
    ensures leaves { LeavesStandby (offered first) to.old to.new result }
{
    to.keep_their_header();
    let standby = match read_standby(alloc, to) {
        Ok(standby) => standby,
        Err(fault) => return Err(of_standby(fault)),
    };
    let header = *to.header();
    let epoch = first.epoch;
    match compared(&first, &standby, &header) {
        Standing::Earlier => write_copy(alloc, to, first, standby),
        Standing::Same => Ok(Shipped { epoch, written: 0 }),
        Standing::Foreign => Err(ShipFault::Foreign(header.epoch)),
        Standing::Later => Err(ShipFault::Ahead {
            to: header.epoch,
            from: epoch,
        }),
    }
}

/// Brings the standby behind `to` to the last settled copy of the store behind `from`. Both are read; a car that stands on
/// a page of the standby's copy with the same content keeps that page; the other cars, then the catalog, are written on
/// pages that are free there, and the header is published under the first store's number and with its next identity. The
/// first store is not written. Nothing is written where the standby has the copy already.
///
/// Both are attached, and no publish of either has failed. It may be called again on the same pages. What the standby has
/// claimed or kept for a next copy is given up. Beside the first store's cars in memory stand those of the standby, as the
/// used bytes of their pages; a store of four times as many objects takes four times the time and memory.
///
/// # Errors
///
/// The first of these that applies: `From` and `To` where a page of the first store, or of the standby, is refused, by the
/// first rule that fails; `Ahead` where the standby's copy has a later number; `Foreign` where it has the same number and
/// is another copy. Nothing was written then. `Disk` and `OtherDisk` where a disk failed, with its counts of failed calls
/// before and after, and `Memory`, end the call where they are met.
pub fn ship<D: Disk, E: Disk>(
    alloc: Global,
    from: &mut Pages<D>,
    to: &mut Pages<E>,
) -> Result<Shipped, ShipFault>
    requires sound { (state from.old).failed ≡ false }
    requires ready { IsReady (state to.old) (E.contents (disk_of to.old)) }
    // The standby has the first store's copy then, and so many pages were written for it.
    ensures shipped { IfOk result (ShipsFirst from.old to.old to.new) }
    // Why nothing was shipped.
    ensures fault { IfErr result (IsShipFault from.old to.old) }
    // At every moment of the call an image of the standby stands for its copy before or for the first store's.
    ensures images { LeavesEither from.old to.old to.new }
    // Where it was refused nothing was written, and where memory ran out its copy stands.
    ensures still { IfErr result (λ fault. UnlessStopped fault (IsStill to.old to.new)) }
    ensures spares { IfErr result (λ fault. UnlessOther fault (SparesCopy to.old to.new)) }
    // The same pages may be shipped to again, unless their disk failed.
    ensures again { UnlessFails result (MayGoAgain to.old to.new) }
    ensures told { TellsOn (E.contents (disk_of to.old)) (E.contents (disk_of to.new)) }
    // Whatever is answered, no more calls of the standby's disk were made than shipping takes.
    ensures most { WritesFirst from.old to.old to.new }
    // The first store was only looked at.
    ensures first { Looked from.old from.new }
    ensures cause { HasShipCause (D.count (disk_of from.old)) (D.count (disk_of from.new)) (E.count (disk_of to.old))
        (E.count (disk_of to.new)) result }
{
    from.keep_their_header();
    match read_store(alloc, from) {
        Ok((first, packed)) => {
            drop(packed);
            ship_read(alloc, first, to)
        }
        Err(fault) => Err(of_first(fault)),
    }
}
