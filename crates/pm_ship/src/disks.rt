//! A ship from the store of one disk to that of another.
ghost use Rattle.std.specs.Prelude.{◌≡◌, false};
ghost use Rattle.pm_shadow.specs.Pages.{state, disk_of};
ghost use Rattle.pm_graphs.specs.Reading.{Looked};
ghost use Rattle.pm_ship.specs.Disks.{ShipsDisks};
ghost use Rattle.pm_ship.specs.Shipped.{TellsFirst};

use crate::shipping::{of_first, of_standby};
use crate::store::read_store;
use crate::{ShipFault, Shipped, ship};
use pm_disk::Disk;
use pm_shadow::Pages;
use pm_types::OpenFault;
use std::alloc::Global;

/// What a ship left of both disks, and what it answered.
pub struct ShipEnd<D, E> {
    /// The disk of the first store.
    pub disk: D,
    /// The disk of the standby.
    pub other: E,
    /// What was shipped, or why nothing was.
    pub shipped: Result<Shipped, ShipFault>,
}

/// What is told where the standby was not attached: a rule that the first store breaks behind its header goes first. Where
/// the standby's disk failed the first store is not read.
fn tell_first<D: Disk>(alloc: Global, from: &mut Pages<D>, fault: OpenFault) -> ShipFault
    requires { (state from.old).failed ≡ false }
    ensures told { TellsFirst (state from.old) (D.contents (disk_of from.old)) (D.count (disk_of from.old))
        (D.count (disk_of from.new)) fault result }
    ensures looked { Looked from.old from.new }
{
    if let OpenFault::Disk { before, after } = fault {
        return ShipFault::OtherDisk { before, after };
    }
    if let Err(first) = read_store(alloc, from) {
        return of_first(first);
    }
    of_standby(fault)
}

/// Brings the standby on the disk `other` to the last settled copy of the store on `disk`: both are attached, the first
/// store first, and shipped (`ship`). Both disks are handed back.
///
/// # Errors
///
/// Those of `ship`, of which `From` and `To` are of the headers too: the rules of the first store, of its header and behind
/// it, go before those of the standby.
pub fn ship_disks<D: Disk, E: Disk>(alloc: Global, disk: D, other: E) -> ShipEnd<D, E>
    ensures { ShipsDisks D.Disk E.Disk disk other result }
{
    let mut from = match Pages::attach(alloc, disk) {
        Ok(from) => from,
        Err((disk, fault)) => {
            return ShipEnd {
                disk,
                other,
                shipped: Err(of_first(fault)),
            };
        }
    };
    let mut to = match Pages::attach(alloc, other) {
        Ok(to) => to,
        Err((other, fault)) => {
            let fault = tell_first(alloc, &mut from, fault);
            return ShipEnd {
                disk: from.into_disk(),
                other,
                shipped: Err(fault),
            };
        }
    };
    let shipped = ship(alloc, &mut from, &mut to);
    ShipEnd {
        disk: from.into_disk(),
        other: to.into_disk(),
        shipped,
    }
}
