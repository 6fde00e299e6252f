//! The writer of checkpoints.

use crate::copying::SpaceCars;
use crate::listed_cars::plan_cars;
use crate::roots::copy_roots;
use crate::writer::{
    SaveFault, Writer, a_copy_begins_beside_the_settled_one, a_published_copy_is_the_settled_one,
};
use pm_disk::Disk;
use pm_graphs::settled::PackedPages;
use pm_shadow::Pages;
use pm_space::Space;
use pm_types::{Flushed, NoMemory};
use std::alloc::Global;

/// Saves copies of a space: it writes the cars that the space froze when the copy in progress was begun.
#[derive(Drop)]
pub struct Saver {
    pub(crate) writer: Writer,
}

impl Saver {
    ghost use Rattle.std.specs.Prelude.{◌≡◌, ◌<◌, ℕ, List, Option, Some, None, IsSome, IfSome, IfOk, OnOk, OnErr, option_map};
    ghost use Rattle.pm_shadow.specs.State.{State, abandoned_in};
    ghost use Rattle.pm_shadow.specs.Pages.{state, disk_of};
    ghost use Rattle.pm_space.specs.Shown.{view};
    ghost use Rattle.pm_copies.specs.Listed.{copy_in};
    ghost use Rattle.pm_saving.specs.Progress.{Progress, copy_of};
    ghost use Rattle.pm_saving.specs.Paging.{left_of};
    ghost use Rattle.pm_saving.specs.Beginning.{Begins};
    ghost use Rattle.pm_saving.specs.Tied.{IsTied};
    ghost use Rattle.pm_save.specs.Shown.{saving, frozen_of, frozen_cars};
    ghost use Rattle.pm_save.specs.Progress.Answers.{HasSaveCause, IsFlushed, Makes, IsStill, KeepsCopy, OnMemory, Spares, TellsOn, UnlessDisk};
    ghost use Rattle.pm_save.specs.Writer.Settling.{IsCausedBy, IsLeftSo, SettlesPages, SparesEither, StaysOn, settling_syncs, settling_writes};
    ghost use Rattle.pm_save.specs.Thawed.{IsThawed, LeavesSpace};

    /// A saver whose settled copy has these cars. No copy is in progress. It takes no memory.
    pub fn new(settled: PackedPages) -> Saver
        ensures { saving result ≡ record { settled = settled; progress = None } }
    {
        Saver {
            writer: Writer::new(settled),
        }
    }

    /// The number of the copy in progress, if there is one.
    pub fn number(&self) -> Option<u32>
        ensures { result ≡ option_map (λ (progress : Progress). progress.number) (saving self.now).progress }
    {
        self.writer.number()
    }

    /// Begins a copy of the space, under this number: its cars are frozen, each car of the list is clean where the
    /// settled car of its number has the same content, and its roots and its next identity are taken over. It compares
    /// each car once, and makes no call of the disk. After want of memory all is as it was.
    pub fn begin<F: Drop>(
        &mut self,
        alloc: Global,
        space: &mut Space<F>,
        number: u32,
    ) -> Result<(), NoMemory>
        requires idle { (saving self.old).progress ≡ None }
        requires unfrozen { space.old.parts.cars.frozen ≡ None }
        ensures begun { OnOk result (Begins (saving self.old) (saving self.new) (view space.old.parts) number) }
        // It is the copy in the space at this moment, by the cars that are frozen with it.
        ensures copy { OnOk result (IfSome (saving self.new).progress (λ progress.
            copy_of (frozen_cars space.new.parts) progress ≡ copy_in (view space.old.parts))) }
        ensures frozen { OnOk result (frozen_of space.new.parts ≡ Some (view space.old.parts).cars) }
        // What holds between calls holds again, where the number is later than that of the current copy.
        ensures tied { OnOk result ((s : State) (contents : Option (List ℕ)) → s.header.epoch < number
            → IsTied (saving self.old) None s contents
            → IsTied (saving self.new) (frozen_of space.new.parts) s contents) }
        ensures err { OnErr result (saving self.new ≡ saving self.old) }
        ensures err_frozen { OnErr result (space.new.parts.cars.frozen ≡ None) }
        ensures view { view space.new.parts ≡ view space.old.parts }
        ensures place { space.new.parts.place ≡ space.old.parts.place }
    {
        a_copy_begins_beside_the_settled_one();
        let cars = plan_cars(alloc, &space.parts, self.writer.settled.as_slice())?;
        let roots = copy_roots(alloc, &space.parts.roots)?;
        self.writer
            .begin_listed(alloc, cars, roots, space.parts.next, number)?;
        space.parts.cars.freeze();
        Ok(())
    }

    /// Writes the next page of the copy in progress on the lowest page that is free. `AllFlushed` exactly where no
    /// copy is in progress, or nothing of it is left to be written; nothing changed then.
    ///
    /// # Errors
    ///
    /// `Disk` where the disk failed, and `Memory` where memory ran out. After `Memory` all is as it was.
    pub fn flush_one<D: Disk, F: Drop>(
        &mut self,
        alloc: Global,
        space: &Space<F>,
        pages: &mut Pages<D>,
    ) -> Result<Flushed, SaveFault>
        requires tied { IsTied (saving self.old) (frozen_of space.now.parts) (state pages.old) (D.contents
            (disk_of pages.old)) }
        ensures flushed { IfOk result (IsFlushed (saving self.old) (saving self.new) (frozen_cars space.now.parts)
            (state pages.old) (state pages.new) (D.contents (disk_of pages.old)) (D.contents (disk_of pages.new))) }
        // What holds between calls holds again.
        ensures tied { UnlessDisk result (IsTied (saving self.new) (frozen_of space.now.parts) (state pages.new)
            (D.contents (disk_of pages.new))) }
        ensures memory { OnMemory result (IsStill (saving self.old) (saving self.new) (state pages.old)
            (state pages.new)
            (D.contents (disk_of pages.old)) (D.contents (disk_of pages.new))) }
        // The current copy stands where it stood,
        ensures has { UnlessDisk result (KeepsCopy (state pages.old) (state pages.new) (D.contents
            (disk_of pages.old)) (D.contents (disk_of pages.new))) }
        // and a crash at any moment of the call leaves it.
        ensures leaves { Spares D.contents D.moment D.since (state pages.old) (disk_of pages.old) (disk_of pages.new) }
        ensures told { TellsOn (D.contents (disk_of pages.old)) (D.contents (disk_of pages.new)) }
        ensures cause { HasSaveCause (D.count (disk_of pages.old)) (D.count (disk_of pages.new)) result }
        // One write was made for a page, and no read reached past the end of what the disk told.
        ensures made { Makes (D.made (disk_of pages.old)) (D.made (disk_of pages.new)) result }
        // A fault comes only where a page is left, and leaves the copies as they were.
        ensures fault { OnErr result (0 < left_of (saving self.old).progress) }
        ensures err { OnErr result (saving self.new ≡ saving self.old) }
    {
        a_published_copy_is_the_settled_one();
        let Some(_) = &self.writer.progress else {
            return Ok(Flushed::AllFlushed);
        };
        let cars = SpaceCars {
            cars: &space.parts.cars,
        };
        self.writer.flush_from(alloc, &cars, pages)
    }

    /// Writes what is left of the copy in progress and makes it the settled one: the other gate is closed, the header is
    /// published, and the cars are frozen no more. Answers its number. Once all of it was written no memory is taken.
    ///
    /// # Errors
    ///
    /// `Disk` where the disk failed, and `Memory` where memory ran out before all of the copy was written; then it is in
    /// progress still.
    pub fn settle<D: Disk, F: Drop>(
        &mut self,
        alloc: Global,
        space: &mut Space<F>,
        pages: &mut Pages<D>,
    ) -> Result<u32, SaveFault>
        requires tied { IsTied (saving self.old) (frozen_of space.old.parts) (state pages.old)
            (D.contents (disk_of pages.old)) }
        requires begun { IsSome (saving self.old).progress }
        // The copy is the settled one then, and every image stands for it;
        ensures settled { IfOk result (SettlesPages (saving self.old) (saving self.new) (frozen_cars space.old.parts)
            pages.old pages.new) }
        // at every moment of the call it stands for the copy that was settled or for this one.
        ensures leaves { SparesEither D.contents D.moment D.since (saving self.old).progress
            (frozen_cars space.old.parts) (state pages.old) (disk_of pages.old) (disk_of pages.new) }
        ensures tied { UnlessDisk result (IsTied (saving self.new) (frozen_of space.new.parts) (state pages.new)
            (D.contents (disk_of pages.new))) }
        ensures memory { OnMemory result (IsLeftSo D.contents D.moment D.since (saving self.old) (saving self.new)
            (state pages.old) (state pages.new) (disk_of pages.old) (disk_of pages.new)) }
        // After a fault the copy is in progress still.
        ensures goes { OnErr result (StaysOn (saving self.old) (saving self.new)) }
        ensures space { LeavesSpace space.old.parts space.new.parts result }
        ensures causes { IsCausedBy (settling_writes (saving self.old) (state pages.old))
            (settling_syncs (state pages.old)) pages.old pages.new result }
    {
        let cars = SpaceCars {
            cars: &space.parts.cars,
        };
        let number = self.writer.settle_from(alloc, &cars, pages)?;
        space.parts.cars.thaw();
        Ok(number)
    }

    /// Gives the copy in progress up, and answers its number: the pages that were written for it are free again, and
    /// the cars are frozen no more. It takes no memory, and makes no call of the disk.
    pub fn drop_copy<D: Disk, F: Drop>(&mut self, space: &mut Space<F>, pages: &mut Pages<D>) -> u32
        requires tied { IsTied (saving self.old) (frozen_of space.old.parts) (state pages.old) (D.contents
            (disk_of pages.old)) }
        requires begun { IsSome (saving self.old).progress }
        ensures number { option_map (λ (progress : Progress). progress.number) (saving self.old).progress
            ≡ Some result }
        ensures saving { saving self.new ≡ record (saving self.old) { progress = None } }
        ensures state { state pages.new ≡ abandoned_in (state pages.old) }
        ensures still { disk_of pages.new ≡ disk_of pages.old }
        // What holds between calls holds again.
        ensures tied { IsTied (saving self.new) (frozen_of space.new.parts) (state pages.new) (D.contents
            (disk_of pages.new)) }
        ensures space { IsThawed space.old.parts space.new.parts }
        // The current copy stands where it stood.
        ensures has { KeepsCopy (state pages.old) (state pages.new) (D.contents (disk_of pages.old)) (D.contents
            (disk_of pages.new)) }
    {
        let number = self.writer.drop_copy(pages);
        space.parts.cars.thaw();
        number
    }
}
