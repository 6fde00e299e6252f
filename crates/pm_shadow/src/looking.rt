//! Reading what attaching has to know.
ghost use Rattle.std.specs.Prelude.{◌≡◌, ◌*◌, ◌≤◌, ◌<◌, ◌^◌, length, List, ℕ, IfOk, IfErr, IfSome, OnOk};
ghost use Rattle.pm_disk.specs.Made.{with_sync};
ghost use Rattle.pm_disk.specs.Disk.{IfTold, LeavesOnly, HasCause};
ghost use Rattle.pm_layout.specs.Headers.{HasHeaderSpelling};
ghost use Rattle.pm_shadow.specs.Runs.{IsSynced, OnlyLooks};
ghost use Rattle.pm_shadow.specs.Attaching.{IsSlotOf, IsSeenIn, IsFoundIn, IsFaultOf, IsAttachFault};

use crate::attaching::{Found, Seen, SlotRead};
use crate::slots::gate_place;
use pm_disk::{Disk, DiskFailed};
use pm_types::{OpenFault, PAGE_BYTES};

/// Reads a slot of a store on a disk that is synced: its body and its gate.
fn read_slot<D: Disk>(disk: &mut D, slot: u64) -> Result<SlotRead, DiskFailed>
    requires slot { slot < 2 }
    requires long { IfTold (D.contents disk.old) (λ bytes. 2 * PAGE_BYTES ≤ length bytes) }
    requires synced { IsSynced (D.contents disk.old) (D.image disk.old) }
    ensures read { IfOk result (λ read. IfTold (D.contents disk.old) (λ bytes. IsSlotOf bytes slot read)) }
    ensures looks { OnlyLooks D.contents D.image D.moment D.since disk.old disk.new }
    ensures cause { HasCause (D.count disk.old) (D.count disk.new) result }
    ensures made { D.made disk.new ≡ D.made disk.old }
{
    let mut body = [0; 96];
    let mut gate = [0; 1];
    disk.read_at(PAGE_BYTES as u64 * slot, &mut body)?;
    disk.read_at(gate_place(slot), &mut gate)?;
    Ok(SlotRead {
        body,
        gate: gate[0],
    })
}

/// Reads both slots of a store that has them, on a disk that is synced.
fn read_slots<D: Disk>(disk: &mut D, count: u64) -> Result<Seen, DiskFailed>
    requires long { IfTold (D.contents disk.old) (λ bytes. 2 * PAGE_BYTES ≤ length bytes) }
    requires synced { IsSynced (D.contents disk.old) (D.image disk.old) }
    ensures count { IfOk result (λ seen. seen.count ≡ count) }
    ensures read { IfOk result (λ seen. IfTold (D.contents disk.old) (λ bytes. IsSlotOf bytes 0 seen.zeroth
        × IsSlotOf bytes 1 seen.first)) }
    ensures looks { OnlyLooks D.contents D.image D.moment D.since disk.old disk.new }
    ensures cause { HasCause (D.count disk.old) (D.count disk.new) result }
    ensures made { D.made disk.new ≡ D.made disk.old }
{
    let zeroth = read_slot(disk, 0)?;
    let first = read_slot(disk, 1)?;
    Ok(Seen {
        count,
        zeroth,
        first,
    })
}

/// Syncs the disk, and reads both slots of a store. None where it has no two pages.
pub(crate) fn look<D: Disk>(disk: &mut D) -> Result<Option<Seen>, DiskFailed>
    ensures seen { IfOk result (λ seen. IfTold (D.contents disk.old) (λ bytes. IsSeenIn bytes seen)) }
    ensures few { IfOk result (λ found. IfSome found (λ seen. seen.count < 2 ^ 50)) }
    ensures told { D.contents disk.new ≡ D.contents disk.old }
    ensures only { OnOk result (IfTold (D.contents disk.old) (λ bytes. (left : List ℕ) → D.image disk.new left
        → left ≡ bytes)) }
    ensures leaves { LeavesOnly D.moment D.since disk.old disk.new (D.image disk.old) }
    ensures cause { HasCause (D.count disk.old) (D.count disk.new) result }
    // One sync is made, and no write and no read past the end of what the disk told, whatever is found.
    ensures made { D.made disk.new ≡ with_sync (D.moment disk.old) (D.made disk.old) }
{
    disk.sync()?;
    let len = disk.len()?;
    if len < 2 * PAGE_BYTES as u64 {
        return Ok(None);
    }
    let seen = read_slots(disk, len / PAGE_BYTES as u64)?;
    Ok(Some(seen))
}

/// Finds the current header of a store on a disk that is synced first.
pub(crate) fn find<D: Disk>(disk: &mut D) -> Result<Found, OpenFault>
    ensures found { IfOk result (λ found. IfTold (D.contents disk.old)
        (λ bytes. IsFoundIn bytes (D.image disk.new) found)) }
    ensures slot { IfOk result (λ found. found.slot < 2) }
    ensures few { IfOk result (λ found. found.count < 2 ^ 50) }
    ensures spelled { IfOk result (λ found. HasHeaderSpelling found.header) }
    ensures count { OnOk result (D.count disk.new ≡ D.count disk.old) }
    ensures fault { IfErr result (λ fault. IfTold (D.contents disk.old) (λ bytes. IsFaultOf bytes fault)) }
    ensures cause { IfErr result (IsAttachFault (D.count disk.old) (D.count disk.new)) }
    ensures told { D.contents disk.new ≡ D.contents disk.old }
    ensures leaves { LeavesOnly D.moment D.since disk.old disk.new (D.image disk.old) }
    ensures made { D.made disk.new ≡ with_sync (D.moment disk.old) (D.made disk.old) }
{
    let before = disk.faults();
    match look(disk) {
        Err(DiskFailed) => {
            let after = disk.faults();
            Err(OpenFault::Disk { before, after })
        }
        Ok(None) => Err(OpenFault::NotAStore),
        Ok(Some(seen)) => match seen.current() {
            Ok(found) => Ok(found),
            Err(fault) => Err(fault),
        },
    }
}
