//! The copy of what was read, beside that of a standby.
ghost use Rattle.std.specs.Prelude.{◌≡◌, ◌⊎◌, ◌<◌, None, IfOk, IfErr};
ghost use Rattle.pm_image.specs.Graphs.{images_of};
ghost use Rattle.pm_copies.specs.Accepted.{Differ};
ghost use Rattle.pm_save.specs.Writer.Planned.{IsIndex};
ghost use Rattle.pm_save.specs.Writer.Shown.{writing};
ghost use Rattle.pm_shadow.specs.Pages.{state, disk_of};
ghost use Rattle.pm_saving.specs.Tied.{IsTied};
ghost use Rattle.pm_ship.specs.Begun.{BeginsOffered, MayBeOffered, idle};
ghost use Rattle.pm_ship.specs.Stores.{offered};
ghost use Rattle.pm_ship.specs.Written.{IsLaid, WritesAtMost};
ghost use Rattle.pm_ship.specs.Shipped.{IsWritingFault, LeavesWritten, saving_fault};

use crate::placed_cars::place_cars;
use crate::standby::Standby;
use crate::store::StoreRead;
use crate::{ListedCars, ShipFault, Shipped};
use pm_disk::Disk;
use pm_law_saving::a_listed_copy_begins_beside_the_settled_one;
use pm_save::progress::SaveFault;
use pm_save::writer::Writer;
use pm_shadow::Pages;
use pm_types::NoMemory;
use std::alloc::Global;

/// A writer in which the copy of what was read is in progress beside that of the standby, and nothing of it was written;
/// and its cars.
fn begin(
    alloc: Global,
    first: StoreRead,
    standby: Standby,
) -> Result<(Writer, ListedCars), NoMemory>
    requires may { MayBeOffered first }
    requires differ { Differ (images_of standby.settled) }
    requires places { IsIndex standby.settled standby.places }
    ensures begun { IfOk result (λ begun. BeginsOffered (offered first) standby.settled (writing begun.0) begun.1) }
{
    a_listed_copy_begins_beside_the_settled_one();
    let StoreRead {
        epoch,
        next,
        trains,
        cars,
        roots,
        ..
    } = first;
    let settled = standby.settled.as_slice();
    let placed = place_cars(alloc, settled, &standby.places, &trains, cars.as_slice())?;
    let listed = ListedCars::new(alloc, cars)?;
    let mut writer = Writer::new(standby.settled);
    writer.begin_listed(alloc, placed, roots, next, epoch)?;
    Ok((writer, listed))
}

/// What a fault of saving it is for a ship: the disk of the standby failed, whose count was the one before and is the other
/// now, or memory ran out.
fn of_saving(fault: SaveFault, before: u64, after: u64) -> ShipFault
    ensures { result ≡ saving_fault before after fault }
{
    match fault {
        SaveFault::Disk => ShipFault::OtherDisk { before, after },
        SaveFault::Memory(refused) => ShipFault::Memory(refused),
    }
}

/// Writes the copy of what was read beside that of the standby, and makes it the standby's. Answers its number and how
/// many pages were written.
///
/// # Errors
///
/// `OtherDisk` where the disk failed, and `Memory`: then the standby has the copy that it had.
pub(crate) fn write_copy<E: Disk>(
    alloc: Global,
    to: &mut Pages<E>,
    first: StoreRead,
    standby: Standby,
) -> Result<Shipped, ShipFault>
    requires may { MayBeOffered first }
    requires differ { Differ (images_of standby.settled) }
    requires places { IsIndex standby.settled standby.places }
    requires tied { IsTied (idle standby.settled) None (state to.old) (E.contents (disk_of to.old)) }
    requires later { (state to.old).header.epoch < first.epoch }
    ensures laid { IfOk result (IsLaid (offered first) standby.settled to.old to.new) }
    ensures fault { IfErr result IsWritingFault }
    ensures leaves { LeavesWritten (offered first) to.old to.new result }
    ensures most { (to.new ≡ to.old) ⊎ WritesAtMost (offered first) standby.settled to.old to.new }
{
    let begun = begin(alloc, first, standby);
    let (mut writer, cars) = match begun {
        Ok((writer, cars)) => (writer, cars),
        Err(refused) => return Err(ShipFault::Memory(refused)),
    };
    let written = writer.left();
    let before = to.faults();
    match writer.settle_from(alloc, &cars, to) {
        Ok(epoch) => Ok(Shipped { epoch, written }),
        Err(fault) => Err(of_saving(fault, before, to.faults())),
    }
}
