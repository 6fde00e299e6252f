//! Giving a copy up.

use crate::progress::a_copy_is_given_up;
use crate::writer::Writer;
use pm_disk::Disk;
use pm_shadow::{Pages, the_next_copy_grows_beside_the_current_one};

impl Writer {
    ghost use Rattle.std.specs.Prelude.{◌≡◌, true, Option, Some, None, IsSome, option_map};
    ghost use Rattle.pm_shadow.specs.State.{abandoned_in};
    ghost use Rattle.pm_shadow.specs.Pages.{state, disk_of};
    ghost use Rattle.pm_view.specs.View.{Cars};
    ghost use Rattle.pm_saving.specs.Progress.{Progress};
    ghost use Rattle.pm_saving.specs.Tied.{IsTied};
    ghost use Rattle.pm_save.specs.Writer.Shown.{writing};
    ghost use Rattle.pm_save.specs.Progress.Answers.{KeepsCopy};

    /// Gives the copy in progress up, and answers its number: the pages that were written for it are free again. It
    /// takes no memory, and makes no call of the disk.
    pub fn drop_copy<D: Disk>(&mut self, pages: &mut Pages<D>) -> u32
        requires begun { IsSome (writing self.old).progress }
        ensures number { option_map (λ (progress : Progress). progress.number) (writing self.old).progress
            ≡ Some result }
        ensures writing { writing self.new ≡ record (writing self.old) { progress = None } }
        ensures state { state pages.new ≡ abandoned_in (state pages.old) }
        ensures still { disk_of pages.new ≡ disk_of pages.old }
        // What holds between calls holds again.
        ensures tied { (frozen : Option Cars) → IsTied (writing self.old) frozen (state pages.old) (D.contents
            (disk_of pages.old)) → IsTied (writing self.new) None (state pages.new) (D.contents (disk_of pages.new)) }
        // The current copy stands where it stood.
        ensures has { (state pages.old).known ≡ true → KeepsCopy (state pages.old) (state pages.new) (D.contents
            (disk_of pages.old)) (D.contents (disk_of pages.new)) }
    {
        a_copy_is_given_up();
        the_next_copy_grows_beside_the_current_one();
        pages.abandon();
        match self.progress.take() {
            Some(progress) => progress.number,
            None => unreachable!(),
        }
    }
}
