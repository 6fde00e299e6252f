//! Opening a store, and making a text of it.

ghost use Rattle.std.specs.Prelude.{◌≡◌, false, IfOk, IfErr, OnOk};
ghost use Rattle.pm_disk.specs.Disk.{IfTold, LeavesOnly};
ghost use Rattle.pm_disk.specs.Made.{with_sync};
ghost use Rattle.pm_image.specs.Opening.{page_count};
ghost use Rattle.pm_shadow.specs.Pages.{state, disk_of};
ghost use Rattle.pm_shadow.specs.Runs.{OnlyLooks};
ghost use Rattle.pm_reopen.specs.Refused.{IsOpenFault, IsRefusal};
ghost use Rattle.pm_inspect.specs.Tell.Told.{IsTold, IsToldOfSome};

use crate::tell::Teller;
use pm_disk::Disk;
use pm_place::Placement;
use pm_reopen::open_space_alone;
use pm_shadow::Pages;
use pm_types::OpenFault;
use std::alloc::Global;
use std::mem;

// Opens the store behind pages that were just found, and makes a text of it. No page is packed, since nobody saves.
fn tell_opened<D: Disk, T: Teller>(
    alloc: Global,
    pages: &mut Pages<D>,
    teller: &T,
) -> Result<Vec<u8>, OpenFault>
    requires unknown { (state pages.old).known ≡ false }
    requires fine { (state pages.old).failed ≡ false }
    requires counted { IfTold (D.contents (disk_of pages.old)) (λ bytes. (state pages.old).count ≡ page_count bytes) }
    ensures told { IfOk result (λ text. IfTold (D.contents (disk_of pages.old))
        (λ bytes. IsTold (T.says teller.now) bytes text.items)) }
    ensures some { IfOk result (λ text. IsToldOfSome (T.says teller.now) text.items) }
    ensures fault { IfErr result (λ fault. IfTold (D.contents (disk_of pages.old)) (λ bytes. IsRefusal bytes fault)) }
    ensures cause { IfErr result (IsOpenFault (D.count (disk_of pages.old)) (D.count (disk_of pages.new))) }
    ensures count { OnOk result (D.count (disk_of pages.new) ≡ D.count (disk_of pages.old)) }
    ensures looks { OnlyLooks D.contents D.image D.moment D.since (disk_of pages.old) (disk_of pages.new) }
    ensures made { D.made (disk_of pages.new) ≡ D.made (disk_of pages.old) }
{
    // No object moves, so that no train is ever picked.
    let place = Placement::new(|_: &[u64]| 0);
    let space = open_space_alone(alloc, pages, place)?;
    let told = teller.tell(alloc, &space, pages.header().epoch);
    // The process ends behind its text, and gives all memory back at once.
    mem::forget(space);
    let text = match told {
        Ok(text) => text,
        Err(refused) => return Err(OpenFault::Memory(refused)),
    };
    Ok(text)
}

/// Opens the store on a disk and makes a text of it. The disk is synced once, before it is read, and nothing is written.
/// It is handed back.
///
/// It is meant as the last thing that a process does: it leaves the memory of the heap to the process, so who calls it
/// again and again keeps what each call left.
///
/// # Errors
///
/// `NotAStore`, `Version`, `Damaged` and `Malformed` by the first rule that the bytes break; `Disk` where the disk
/// failed, with its counts of failed calls before and after; `Memory`.
pub fn tell_store<D: Disk, T: Teller>(
    alloc: Global,
    disk: D,
    teller: &T,
) -> (D, Result<Vec<u8>, OpenFault>)
    // The text is the one that is made of what opening makes of the disk's bytes.
    ensures told { IfOk result.1 (λ text. IfTold (D.contents disk)
        (λ bytes. IsTold (T.says teller.now) bytes text.items)) }
    // Of any disk, it is made of some space.
    ensures some { IfOk result.1 (λ text. IsToldOfSome (T.says teller.now) text.items) }
    // The disk holds what it held, and so does what a crash leaves.
    ensures stays { D.contents result.0 ≡ D.contents disk }
    ensures leaves { LeavesOnly D.moment D.since disk result.0 (D.image disk) }
    // One sync was made, before any other call, no write, and no read past the end of what the disk told.
    ensures made { D.made result.0 ≡ with_sync (D.moment disk) (D.made disk) }
    ensures count { OnOk result.1 (D.count result.0 ≡ D.count disk) }
    // Why there is no text.
    ensures fault { IfErr result.1 (λ fault. IfTold (D.contents disk) (λ bytes. IsRefusal bytes fault)) }
    ensures cause { IfErr result.1 (IsOpenFault (D.count disk) (D.count result.0)) }
{
    match Pages::attach(alloc, disk) {
        Ok(pages) => {
            let mut pages = pages;
            let told = tell_opened(alloc, &mut pages, teller);
            (pages.into_disk(), told)
        }
        Err((disk, fault)) => (disk, Err(fault)),
    }
}
