//! What was opened.

ghost use Rattle.pm_disk.specs.Disk.{IfTold};
ghost use Rattle.pm_shadow.specs.Pages.{disk_of};
ghost use Rattle.pm_space.specs.Shown.{view};
ghost use Rattle.pm_copies.specs.Opened.{IsOpenedStore};

use pm_disk::Disk;
use pm_shadow::Pages;
use pm_space::Space;
use std::snapshot::Snapshot;

/// What was opened. No call changes it. Where the disk told its bytes, the space is what opening makes of them.
#[derive(Drop)]
pub struct Start<D: Disk, F> {
    /// The number of the copy.
    pub number: u32,
    /// The space as it was opened.
    pub space: Snapshot<Space<F>>,
    /// The pages as they were then, with the disk.
    pub pages: Snapshot<Pages<D>>,
    /// The disk's count of failed calls then.
    pub count: u64,
    ghost store: { IfTold (D.contents (disk_of pages.value)) (λ bytes.
        ∥ IsOpenedStore bytes (view space.value.parts) ∥₁) },
}
