//! How what an engine works with begins.

ghost use Rattle.std.specs.Prelude.{◌≡◌, ℕ, List, [], None, IfOk, IfErr, MatchResult};
ghost use Rattle.pm_disk.specs.Disk.{IfTold, LeavesOnly};
ghost use Rattle.pm_disk.specs.Made.{with_sync};
ghost use Rattle.pm_image.specs.Stands.{StandsForCopy};
ghost use Rattle.pm_view.specs.Represents.{Represents};
ghost use Rattle.pm_copies.specs.Listed.{copy_in};
ghost use Rattle.pm_copies.specs.Opened.{IsFresh};
ghost use Rattle.pm_saving.specs.Serving.{just_opened, world};
ghost use Rattle.pm_reopen.specs.Refused.{IsOpenFault, IsRefusal};
ghost use Rattle.pm_engine.specs.Works.Seen.{IsCrashSafe, disk_then, seen};
ghost use Rattle.pm_engine.specs.Works.Working.{disk_at, past_in, place_in, view_in};

use crate::works::course::Course;
use crate::works::past::Past;
use crate::works::start::Start;
use crate::works::works::Works;
use arrayvec::ArrayVec;
use pm_disk::Disk;
use pm_place::Placement;
use pm_reopen::open_space;
use pm_save::Saver;
use pm_shadow::Pages;
use pm_types::OpenFault;
use std::alloc::Global;
use std::snapshot::Snapshot;

/// Opens the copy for which the bytes of a disk stand: its world has no register, no watch and no copy in progress. The
/// disk is synced once, before it is read, and nothing is written. An object moves to the train that the chooser of
/// `place` picks.
///
/// # Errors
///
/// `NotAStore`, `Version`, `Damaged` and `Malformed` by the first rule that the bytes break; `Disk` where the disk failed,
/// with its counts of failed calls before and after; `Memory`. The disk is handed back.
pub fn begin_works<D: Disk, F: Drop>(
    alloc: Global,
    disk: D,
    place: Placement<F>,
) -> Result<(Start<D, F>, Works<D, F>), (D, OpenFault)>
    // The bytes stand for the copy in the space that was opened, under its number,
    ensures stands { IfOk result (λ it. IfTold (D.contents disk) (λ bytes.
        StandsForCopy bytes it.0.number (copy_in (seen it.0 None it.1).opened))) }
    // and nothing was asked yet, nor is a copy in progress.
    ensures begins { IfOk result (λ it. seen it.0 None it.1
        ≡ just_opened it.0.number (seen it.0 None it.1).opened (seen it.0 None it.1).saving) }
    ensures idle { IfOk result (λ it. (seen it.0 None it.1).saving.progress ≡ None) }
    ensures past { IfOk result (λ it. past_in it.1 ≡ []) }
    // A crash leaves what may be, and the space stands for the world of the copy.
    ensures safe { IfOk result (λ it. ∥ IsCrashSafe it.0 None it.1 ∥₁) }
    ensures represents { IfOk result (λ it. ∥ Represents (view_in it.1) (world (seen it.0 None it.1)) ∥₁) }
    // In the space nothing has happened.
    ensures fresh { IfOk result (λ it. IsFresh (seen it.0 None it.1).opened.next (seen it.0 None it.1).opened) }
    // An object moves to the train that this chooser picks.
    ensures chooser { IfOk result (λ it. place_in it.1 ≡ place) }
    // The disk is as it was opened, and a crash leaves what it holds.
    ensures opening { IfOk result (λ it. disk_then it.0 ≡ disk_at it.1) }
    ensures only { IfOk result (λ it. IfTold (D.contents disk) (λ bytes.
        (left : List ℕ) → D.image (disk_at it.1) left → left ≡ bytes)) }
    ensures told { MatchResult result (λ it. D.contents (disk_at it.1) ≡ D.contents disk)
        (λ e. D.contents e.0 ≡ D.contents disk) }
    ensures leaves { MatchResult result (λ it. LeavesOnly D.moment D.since disk (disk_at it.1) (D.image disk))
        (λ e. LeavesOnly D.moment D.since disk e.0 (D.image disk)) }
    ensures made { MatchResult result (λ it. D.made (disk_at it.1) ≡ with_sync (D.moment disk) (D.made disk))
        (λ e. D.made e.0 ≡ with_sync (D.moment disk) (D.made disk)) }
    ensures count { IfOk result (λ it. (D.count (disk_at it.1) ≡ D.count disk) × (it.0.count ≡ D.count disk)) }
    ensures fault { IfErr result (λ e. IfTold (D.contents disk) (λ bytes. IsRefusal bytes e.1)) }
    ensures cause { IfErr result (λ e. IsOpenFault (D.count disk) (D.count e.0) e.1) }
{
    let mut pages = Pages::attach(alloc, disk)?;
    match open_space(alloc, &mut pages, place) {
        Ok((space, settled)) => Ok((
            Start {
                number: pages.header().epoch,
                space: Snapshot::of(&space),
                pages: Snapshot::of(&pages),
                count: pages.faults(),
            },
            Works {
                pages,
                space,
                saver: Saver::new(settled),
                past: Past::nothing(),
                journal: Vec::new(alloc),
                course: Course::Nothing,
                watches: ArrayVec::new(),
                events: 0,
                steps: 0,
            },
        )),
        Err(fault) => Err((pages.into_disk(), fault)),
    }
}
