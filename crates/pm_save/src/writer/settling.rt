//! The cars of a copy once it is the settled one.

ghost use Rattle.std.specs.Prelude.{◌≡◌, ◌⊎◌, ◌∷◌, [], ℕ, false, List, length, option_map, OnOk};
ghost use Rattle.pm_disk.specs.Disk.{IfTold, LeavesOnly};
ghost use Rattle.pm_disk.specs.Made.{MakesCalls};
ghost use Rattle.pm_image.specs.Opening.{open_gate};
ghost use Rattle.pm_shadow.specs.State.{IsPublishable, other, published, with_closed};
ghost use Rattle.pm_shadow.specs.Images.{Holds, Renews, shutting, with_gate, with_header, with_shut_gate};
ghost use Rattle.pm_shadow.specs.Pages.{state, disk_of};
ghost use Rattle.pm_save.specs.Progress.Answers.{HasSaveCause, OnMemory, TellsOn};
ghost use Rattle.pm_save.specs.Writer.Settling.{ClosesFrom, PublishesFrom};
ghost use Rattle.std.specs.List.{AllByRecursion};
ghost use Rattle.pm_image.specs.declared.settled.KeptPage.{KeptPage};
ghost use Rattle.pm_saving.specs.Progress.{car_pages, page_in};
ghost use Rattle.pm_saving.specs.Paging.{header_of};
ghost use Rattle.pm_save.specs.Progress.Seen.{place_seen, progress_seen};
ghost use Rattle.pm_save.specs.Progress.Kept.{IsKept, IsPlaced, IsWithin, is_open};
ghost use Rattle.pm_save.specs.Progress.Taken.{AreOnce, StaysBut};

use crate::progress::{Frozen, InProgress, Place, SaveFault, first_part};
use crate::writer::Writer;
use pm_disk::Disk;
use pm_graphs::settled::{PackedCar, PackedPage};
use pm_layout::Header;
use pm_shadow::Pages;
use pm_types::{Flushed, VERSION};
use std::alloc::Global;
use std::mem;

/// A car of no slot on no page: it takes the place of one that was taken out of a list.
fn nothing(alloc: Global) -> PackedPage {
    PackedPage::new(PackedCar::empty(alloc), 0, [0; 32])
}

/// The car of one place: where it is clean it is taken out of the settled ones.
fn take_kept(alloc: Global, settled: &mut Vec<PackedPage>, place: Place) -> PackedPage
    requires within { IsWithin settled.old.items place }
    requires placed { is_open place ≡ false }
    ensures kept { result ∷ [] ≡ page_in (place_seen settled.old.items place) }
    ensures rest { StaysBut place settled.old.items settled.new.items }
    ensures len { length settled.new.items ≡ length settled.old.items }
{
    match place {
        Place::Clean(index) => mem::replace(&mut settled[index], nothing(alloc)),
        Place::Written(kept) => kept,
        Place::Unwritten => unreachable!(),
    }
}

/// The cars of a copy that stands on its pages, in the room that was made for them. It takes no memory.
pub(crate) fn settled_list(
    alloc: Global,
    settled: Vec<PackedPage>,
    it: InProgress,
) -> Vec<PackedPage>
    requires kept { IsKept settled.items it }
    requires placed { AllByRecursion IsPlaced it.cars.items }
    requires once { AreOnce it.cars.items }
    ensures { result.items ≡ car_pages (progress_seen settled.items it) }
{
    let InProgress { cars, room, .. } = it;
    let mut cars = cars;
    let mut settled = settled;
    let mut room = room;
    for index in 0..cars.len() {
        let place = mem::replace(&mut cars[index].place, Place::Unwritten);
        room.push_reserved(take_kept(alloc, &mut settled, place));
    }
    room
}

/// Closes the gate of the slot that the next header goes to.
fn close_gate<D: Disk>(pages: &mut Pages<D>) -> Result<(), SaveFault>
    requires sound { (state pages.old).failed ≡ false }
    ensures state { OnOk result (state pages.new ≡ with_closed (state pages.old)) }
    ensures written { OnOk result (D.contents (disk_of pages.new) ≡ option_map (with_shut_gate (state pages.old))
        (D.contents (disk_of pages.old))) }
    ensures closes { OnOk result (IfTold (D.contents (disk_of pages.new))
        (ClosesFrom (state pages.old) (D.contents (disk_of pages.old)))) }
    ensures leaves { IfTold (D.contents (disk_of pages.old)) (λ told.
        LeavesOnly D.moment D.since (disk_of pages.old) (disk_of pages.new) (Holds (state pages.old) told)) }
    ensures told { TellsOn (D.contents (disk_of pages.old)) (D.contents (disk_of pages.new)) }
    ensures cause { HasSaveCause (D.count (disk_of pages.old)) (D.count (disk_of pages.new)) result }
    ensures memory { OnMemory result ⊥ }
    ensures made { MakesCalls (shutting (state pages.old)) (shutting (state pages.old)) (D.made (disk_of pages.old))
        (D.made (disk_of pages.new)) result }
{
    pages.close_gate()?;
    Ok(())
}

/// A digest has 32 bytes. It does nothing.
fn known(digest: [u8; 32])
    ensures { length digest ≡ 32 }
{
    let _len = digest.len();
}

/// Makes this header the current one, in the slot whose gate is closed.
fn publish<D: Disk>(pages: &mut Pages<D>, header: &Header) -> Result<(), SaveFault>
    requires { IsPublishable (state pages.old) header.now }
    ensures state { OnOk result (state pages.new ≡ published (state pages.old) header.now) }
    ensures written { OnOk result (D.contents (disk_of pages.new) ≡ option_map
        (λ told. with_gate (other (state pages.old).slot) open_gate
        (with_header (other (state pages.old).slot) header.now told)) (D.contents (disk_of pages.old))) }
    ensures publishes { OnOk result (IfTold (D.contents (disk_of pages.new))
        (PublishesFrom (state pages.old) header.now (D.contents (disk_of pages.old)))) }
    ensures only { OnOk result (IfTold (D.contents (disk_of pages.new)) (λ told.
        (left : List ℕ) → D.image (disk_of pages.new) left → left ≡ told)) }
    ensures leaves { IfTold (D.contents (disk_of pages.old)) (λ told.
        LeavesOnly D.moment D.since (disk_of pages.old) (disk_of pages.new)
        (λ image. Holds (state pages.old) told image ⊎ Renews (state pages.old) header.now told image)) }
    ensures told { TellsOn (D.contents (disk_of pages.old)) (D.contents (disk_of pages.new)) }
    ensures cause { HasSaveCause (D.count (disk_of pages.old)) (D.count (disk_of pages.new)) result }
    ensures memory { OnMemory result ⊥ }
    ensures made { MakesCalls 2 2 (D.made (disk_of pages.old)) (D.made (disk_of pages.new)) result }
{
    known(header.digest);
    pages.publish(header)?;
    Ok(())
}

/// The header of a copy in progress, each page of which was written.
fn header_in(it: &InProgress) -> Header
    ensures { (settled : List KeptPage) → IsKept settled it.now → AllByRecursion IsPlaced it.now.cars.items
        → result ≡ header_of (progress_seen settled it.now) }
{
    let digest = it.digest;
    Header {
        version: VERSION,
        epoch: it.number,
        next: it.next_id,
        first: first_part(it),
        digest,
    }
}

impl Writer {
    ghost use Rattle.std.specs.Prelude.{◌≡◌, ◌<◌, Some, None, IsSome, IfSome, IfOk, OnOk, OnErr};
    ghost use Rattle.std.specs.List.{AllByRecursion};
    ghost use Rattle.pm_saving.specs.Progress.{car_pages};
    ghost use Rattle.pm_save.specs.Progress.Kept.{IsPlaced};
    ghost use Rattle.pm_save.specs.Progress.Taken.{AreOnce};
    ghost use Rattle.pm_disk.specs.Made.{MakesCalls};
    ghost use Rattle.pm_shadow.specs.Pages.{state, disk_of};
    ghost use Rattle.pm_saving.specs.Paging.{left_of};
    ghost use Rattle.pm_saving.specs.Tied.{IsTied};
    ghost use Rattle.pm_save.specs.Writer.Shown.{writing};
    ghost use Rattle.pm_save.specs.Progress.Answers.{HasSaveCause, OnMemory, Spares, TellsOn, UnlessDisk};
    ghost use Rattle.pm_save.specs.Writer.Settling.{IsCausedBy, IsLeftSo, SettlesPages, SparesEither, StaysOn, settling_syncs, settling_writes};
    ghost use Rattle.pm_save.specs.Writer.Runs.{Runs};

    /// Writes what is left of the copy in progress.
    fn write_rest<D: Disk, C: Frozen>(
        &mut self,
        alloc: Global,
        frozen: &C,
        pages: &mut Pages<D>,
    ) -> Result<(), SaveFault>
        requires tied { IsTied (writing self.old) (Some (C.cars frozen.now)) (state pages.old)
            (D.contents (disk_of pages.old)) }
        requires begun { IsSome (writing self.old).progress }
        ensures run { UnlessDisk result (Runs (Some (C.cars frozen.now)) (C.cars frozen.now)
            (writing self.old) (writing self.new) (state pages.old) (state pages.new)
            (D.contents (disk_of pages.old)) (D.contents (disk_of pages.new))) }
        ensures none { OnOk result (left_of (writing self.new).progress ≡ 0) }
        ensures fault { OnErr result (0 < left_of (writing self.old).progress) }
        ensures left { OnErr result (0 < left_of (writing self.new).progress) }
        ensures goes { OnErr result (StaysOn (writing self.old) (writing self.new)) }
        ensures spares { Spares D.contents D.moment D.since (state pages.old) (disk_of pages.old) (disk_of pages.new) }
        ensures told { TellsOn (D.contents (disk_of pages.old)) (D.contents (disk_of pages.new)) }
        ensures cause { HasSaveCause (D.count (disk_of pages.old)) (D.count (disk_of pages.new)) result }
        ensures made { MakesCalls (left_of (writing self.old).progress) 0 (D.made (disk_of pages.old))
            (D.made (disk_of pages.new)) result }
    {
        while let Flushed::Wrote(_page) = self.flush_from(alloc, frozen, pages)? {}
        Ok(())
    }

    /// Makes the copy in progress, each car of which stands on a page, the settled one. It takes no memory.
    fn finish(&mut self, alloc: Global)
        requires placed { IfSome self.old.progress (λ it. AllByRecursion IsPlaced it.cars.items) }
        requires once { IfSome self.old.progress (λ it. AreOnce it.cars.items) }
        ensures { IfSome (writing self.old).progress (λ progress.
            writing self.new ≡ record { settled = car_pages progress; progress = None }) }
    {
        let Some(it) = self.progress.take() else {
            return;
        };
        let settled = mem::replace(&mut self.settled, Vec::new(alloc));
        self.settled = settled_list(alloc, settled, it);
    }

    /// Writes what is left of the copy in progress, whose cars are these, and makes it the settled one: the other gate
    /// is closed, and the header is published. Answers its number. Once all of it was written no memory is taken.
    ///
    /// # Errors
    ///
    /// `Disk` where the disk failed, and `Memory` where memory ran out before all of the copy was written; then it is in
    /// progress still.
    pub fn settle_from<D: Disk, C: Frozen>(
        &mut self,
        alloc: Global,
        frozen: &C,
        pages: &mut Pages<D>,
    ) -> Result<u32, SaveFault>
        requires tied { IsTied (writing self.old) (Some (C.cars frozen.now)) (state pages.old)
            (D.contents (disk_of pages.old)) }
        // The copy is the settled one then, and every image stands for it;
        ensures settled { IfOk result (SettlesPages (writing self.old) (writing self.new) (C.cars frozen.now)
            pages.old pages.new) }
        // at every moment of the call it stands for the copy that was settled or for this one.
        ensures leaves { SparesEither D.contents D.moment D.since (writing self.old).progress (C.cars frozen.now)
            (state pages.old) (disk_of pages.old) (disk_of pages.new) }
        // What holds between calls holds again: after Ok none is in progress, and after `Memory` this one is still.
        ensures tied { OnOk result (IsTied (writing self.new) None (state pages.new)
            (D.contents (disk_of pages.new))) }
        ensures tied_still { OnMemory result (IsTied (writing self.new) (Some (C.cars frozen.now)) (state pages.new)
            (D.contents (disk_of pages.new))) }
        ensures memory { OnMemory result (IsLeftSo D.contents D.moment D.since (writing self.old) (writing self.new)
            (state pages.old) (state pages.new) (disk_of pages.old) (disk_of pages.new)) }
        // After a fault the copy is in progress still.
        ensures goes { OnErr result (StaysOn (writing self.old) (writing self.new)) }
        ensures causes { IsCausedBy (settling_writes (writing self.old) (state pages.old))
            (settling_syncs (state pages.old)) pages.old pages.new result }
    {
        self.write_rest(alloc, frozen, pages)?;
        close_gate(pages)?;
        let Some(it) = &self.progress else {
            unreachable!()
        };
        let header = header_in(it);
        publish(pages, &header)?;
        self.finish(alloc);
        Ok(header.epoch)
    }
}
