//! A store that is shipped to a standby.

use crate::stopping::{disk_of, push_images};
use pm_case_text::{Fault, push_filled};
use pm_disk::fuse::FuseDisk;
use pm_disk::{Disk, MemDisk};
use pm_script::Line;
use pm_ship::{ShipEnd, ShipFault, Shipped, ship_disks};
use std::alloc::Global;
use std::fmt::Write;

// Adds why nothing was shipped.
fn push_fault(fault: ShipFault, out: &mut String) -> Result<(), Fault> {
    Ok(writeln!(out, "{fault}")?)
}

// Adds what a ship answered.
fn push_shipped(shipped: Result<Shipped, ShipFault>, out: &mut String) -> Result<(), Fault> {
    match shipped {
        Ok(made) => push_filled("shipped % %\n", &[made.epoch as u64, made.written], out),
        Err(fault) => push_fault(fault, out),
    }
}

// Ships the store of these bytes to that of a disk, and adds what that answered. The standby's disk is handed back.
fn push_ship_to<E: Disk + Drop>(
    alloc: Global,
    from: &[u8],
    to: E,
    out: &mut String,
) -> Result<E, Fault> {
    let from = disk_of(alloc, from, 0)?;
    let ShipEnd {
        disk: _from,
        other,
        shipped,
    } = ship_disks(alloc, from, to);
    push_shipped(shipped, out)?;
    Ok(other)
}

/// Ships the store of the first bytes to that of the others, and adds what that answered. The standby's disk is handed
/// back.
pub(crate) fn push_ship(
    alloc: Global,
    from: &[u8],
    to: &[u8],
    out: &mut String,
) -> Result<MemDisk, Fault> {
    push_ship_to(alloc, from, disk_of(alloc, to, 0)?, out)
}

// Ships to a standby whose disk passes so many calls on and then fails each one, and adds what that answered.
fn push_ship_fused(
    alloc: Global,
    from: &[u8],
    to: &[u8],
    passes: u64,
    out: &mut String,
) -> Result<MemDisk, Fault> {
    let to = FuseDisk::new(disk_of(alloc, to, 0)?, passes);
    Ok(push_ship_to(alloc, from, to, out)?.into_inner())
}

// Adds the same, and what the look gives on each image that the disk may leave.
fn push_ship_at(
    alloc: Global,
    from: &[u8],
    to: &[u8],
    passes: u64,
    look: &[Line],
    out: &mut String,
) -> Result<(), Fault> {
    push_filled("after %: ", &[passes], out)?;
    let disk = push_ship_fused(alloc, from, to, passes, out)?;
    push_images(alloc, &disk, disk.calls().len(), look, out)
}

// How many calls a ship makes of the standby's disk.
fn ship_calls(alloc: Global, from: &[u8], to: &[u8]) -> Result<u64, Fault> {
    let mut unseen = String::new(alloc);
    let disk = push_ship(alloc, from, to, &mut unseen)?;
    Ok(disk.calls().len() as u64)
}

/// Ships the store of the first bytes to that of the others, whose disk passes no call on, then one, and so on up to all;
/// and adds what each of these ships answered, and what the look gives on each image that the standby's disk may leave.
pub(crate) fn push_ships(
    alloc: Global,
    from: &[u8],
    to: &[u8],
    look: &[Line],
    out: &mut String,
) -> Result<(), Fault> {
    let calls = ship_calls(alloc, from, to)?;
    for passes in 0..calls.saturating_add(1) {
        push_ship_at(alloc, from, to, passes, look, out)?;
    }
    Ok(())
}
