//! How an engine with a nursery begins.

use crate::engine::YoungEngine;
use pm_disk::Disk;
use pm_engine::works::begin_works;
use pm_nursery::Nursery;
use pm_place::Placement;
use pm_types::OpenFault;
use std::alloc::Global;

impl<D: Disk, F: Drop> YoungEngine<D, F> {
    ghost use Rattle.std.specs.Prelude.{◌≡◌, ℕ, List, None, IfOk, IfErr, MatchResult};
    ghost use Rattle.pm_disk.specs.Disk.{IfTold, LeavesOnly};
    ghost use Rattle.pm_disk.specs.Made.{with_sync};
    ghost use Rattle.pm_image.specs.Stands.{StandsForCopy};
    ghost use Rattle.pm_copies.specs.Listed.{copy_in};
    ghost use Rattle.pm_saving.specs.Serving.{just_opened};
    ghost use Rattle.pm_young.specs.Seen.{BeginsYoung, chooser, disk_in, opened_count, opened_disk, serving};
    ghost use Rattle.pm_reopen.specs.Refused.{IsOpenFault, IsRefusal};

    /// Opens the copy for which the bytes of a disk stand: its world has no register, no watch and no copy in progress,
    /// nothing is young, and nothing has entered. The disk is synced once, before it is read, and nothing is written.
    /// An object moves to the train that the chooser of `place` picks.
    ///
    /// # Errors
    ///
    /// `NotAStore`, `Version`, `Damaged` and `Malformed` by the first rule that the bytes break; `Disk` where the disk
    /// failed, with its counts of failed calls before and after; `Memory`. The disk is handed back.
    pub fn open_young(
        alloc: Global,
        disk: D,
        place: Placement<F>,
    ) -> Result<YoungEngine<D, F>, (D, OpenFault)>
        // The bytes stand for the copy in the space that was opened, under its number,
        ensures stands { IfOk result (λ it. IfTold (D.contents disk) (λ bytes.
            StandsForCopy bytes (serving it).number (copy_in (serving it).opened))) }
        // and nothing was asked yet, nor is a copy in progress.
        ensures begins { IfOk result (λ it.
            serving it ≡ just_opened (serving it).number (serving it).opened (serving it).saving) }
        ensures idle { IfOk result (λ it. (serving it).saving.progress ≡ None) }
        ensures young { IfOk result BeginsYoung }
        // An object moves to the train that this chooser picks.
        ensures chooser { IfOk result (λ it. chooser it ≡ place) }
        // The disk is as it was opened, and a crash leaves what it holds.
        ensures opening { IfOk result (λ it. opened_disk it ≡ disk_in it) }
        ensures only { IfOk result (λ it. IfTold (D.contents disk) (λ bytes.
            (left : List ℕ) → D.image (disk_in it) left → left ≡ bytes)) }
        ensures told { MatchResult result (λ it. D.contents (disk_in it) ≡ D.contents disk)
            (λ e. D.contents e.0 ≡ D.contents disk) }
        ensures leaves { MatchResult result (λ it. LeavesOnly D.moment D.since disk (disk_in it) (D.image disk))
            (λ e. LeavesOnly D.moment D.since disk e.0 (D.image disk)) }
        ensures made { MatchResult result (λ it. D.made (disk_in it) ≡ with_sync (D.moment disk) (D.made disk))
            (λ e. D.made e.0 ≡ with_sync (D.moment disk) (D.made disk)) }
        ensures count { IfOk result (λ it. (D.count (disk_in it) ≡ D.count disk)
            × (opened_count it ≡ D.count disk)) }
        ensures fault { IfErr result (λ e. IfTold (D.contents disk) (λ bytes. IsRefusal bytes e.1)) }
        ensures cause { IfErr result (λ e. IsOpenFault (D.count disk) (D.count e.0) e.1) }
    {
        let (opening, works) = begin_works(alloc, disk, place)?;
        Ok(YoungEngine {
            works,
            opening,
            nursery: Nursery::new(alloc),
            entered: Vec::new(alloc),
            halted: None,
        })
    }
}
