//! What is kept of pages that were written.

ghost use Rattle.std.specs.Prelude.{◌≡◌, ◌+◌, ◌<◌, ℕ, List, [], ◌∷◌, ◌++◌, true, length, Some, vec_capacity, IfOk};
ghost use Rattle.pm_image.specs.declared.settled.KeptPage.{KeptPage};
ghost use Rattle.pm_view.specs.View.{Cars};
ghost use Rattle.pm_saving.specs.Paging.{next_page, with_page, clean_page, newly_kept};
ghost use Rattle.pm_save.specs.Progress.Seen.{progress_seen, place_seen};
ghost use Rattle.pm_save.specs.Progress.Kept.{IsKept, IsWithin};
ghost use Rattle.pm_save.specs.Progress.Next.{IsFound, Spells, next_seen};
ghost use Rattle.pm_save.specs.Progress.Noted.{HasPlaceFor, with_written};
ghost use Rattle.std.specs.List.{AllByRecursion};
ghost use Rattle.pm_types.specs.declared.limits.TheConstants.{PAGE_BYTES};
ghost use Rattle.pm_disk.specs.Disk.{IfTold, LeavesOnly};
ghost use Rattle.pm_disk.specs.Made.{MadeAtMost, with_write};
ghost use Rattle.pm_shadow.specs.Images.{Holds};
ghost use Rattle.pm_shadow.specs.Pages.{state, disk_of};
ghost use Rattle.pm_saving.specs.Tied.{IsOnPage, with_all_kept};
ghost use Rattle.pm_save.specs.declared.progress.place.PlacedCar.{PlacedCar};
ghost use Rattle.pm_save.specs.Progress.Answers.{HasSaveCause, OnMemory, TellsOn};
ghost use Rattle.pm_save.specs.Progress.Putting.{IsReady, IsWritten, pages_in};

use crate::progress::SaveFault;
use crate::progress::next::{Next, Ready};
use crate::progress::place::{InProgress, Place, PlacedCar};
use pm_disk::Disk;
use pm_graphs::settled::{PackedCar, PackedPage};
use pm_layout::digest;
use pm_shadow::Pages;

/// The car that was found stands on this page.
fn note_car(it: &mut InProgress, image: PackedCar, page: u64, digest: [u8; 32])
    requires { it.old.placed < length it.old.cars.items }
    ensures cars { it.new.cars.items ≡ with_written it.old.placed
        (record { image = image; page = page; digest = digest }) it.old.cars.items }
    ensures rest { it.new ≡ record it.old { cars = it.new.cars; kept = true } }
{
    it.cars[it.placed].place = Place::Written(PackedPage::new(image, page, digest));
    it.kept = true;
}

/// A page of the catalog was written here.
fn note_part(it: &mut InProgress, page: u64, digest: [u8; 32])
    requires { length it.old.parts.items < vec_capacity it.old.parts }
    ensures counts { (front : List ℕ) (count : ℕ) → it.old.counts.items ≡ front ++ count ∷ []
        → it.new.counts.items ≡ front }
    ensures parts { it.new.parts.items ≡ it.old.parts.items ++ page ∷ [] }
    ensures room { vec_capacity it.new.parts ≡ vec_capacity it.old.parts }
    ensures rest { it.new
        ≡ record it.old { counts = it.new.counts; parts = it.new.parts; digest = digest; kept = true } }
{
    it.counts.pop();
    it.parts.push_reserved(page);
    it.digest = digest;
    it.kept = true;
}

/// Notes that the next page of a copy was written on this one.
pub fn note_written(it: &mut InProgress, ready: Ready, page: u64)
    requires place { HasPlaceFor it.old ready.next }
    ensures seen { (settled : List KeptPage) (cars : Cars) → IsKept settled it.old → IsFound it.old
        → Spells (progress_seen settled it.old) ready
        → next_page cars (progress_seen settled it.old) ≡ Some (next_seen ready.next)
        → progress_seen settled it.new ≡ with_page page (progress_seen settled it.old) (next_seen ready.next) }
    ensures kept { (settled : List KeptPage) (cars : Cars) → IsKept settled it.old → IsFound it.old
        → Spells (progress_seen settled it.old) ready
        → next_page cars (progress_seen settled it.old) ≡ Some (next_seen ready.next) → 0 < page
        → IsKept settled it.new }
{
    let Ready { next, bytes } = ready;
    let digest = digest(&bytes);
    match next {
        Next::Car(image) => note_car(it, image, page, digest),
        Next::Part(_entries) => note_part(it, page, digest),
    }
}

/// Keeps the page of a car for the next copy, where the car is clean.
fn keep_page<D: Disk>(settled: &[PackedPage], one: &PlacedCar, pages: &mut Pages<D>)
    requires within { IsWithin settled.now one.now.place }
    requires known { (state pages.old).known ≡ true }
    requires on_pages { AllByRecursion (IsOnPage (state pages.old)) settled.now }
    ensures state { state pages.new ≡ with_all_kept (clean_page (place_seen settled.now one.now.place))
        (state pages.old) }
    ensures still { disk_of pages.new ≡ disk_of pages.old }
{
    let Place::Clean(index) = &one.place else {
        return;
    };
    let _kept = pages.keep(settled[*index].page());
}

/// Keeps the pages of the clean cars for the next copy.
fn keep_clean<D: Disk>(settled: &[PackedPage], cars: &[PlacedCar], pages: &mut Pages<D>)
    requires within { AllByRecursion (λ (one : PlacedCar). IsWithin settled.now one.place) cars.now }
    requires known { (state pages.old).known ≡ true }
    requires on_pages { AllByRecursion (IsOnPage (state pages.old)) settled.now }
    ensures state { state pages.new ≡ with_all_kept (pages_in settled.now cars.now) (state pages.old) }
    ensures still { disk_of pages.new ≡ disk_of pages.old }
{
    for one in cars {
        keep_page(settled, one, pages);
    }
}

/// Keeps the pages of the clean cars for the next copy, where that was not done.
fn keep_first<D: Disk>(settled: &[PackedPage], it: &InProgress, pages: &mut Pages<D>)
    requires within { AllByRecursion (λ (one : PlacedCar). IsWithin settled.now one.place) it.now.cars.items }
    requires known { (state pages.old).known ≡ true }
    requires on_pages { AllByRecursion (IsOnPage (state pages.old)) settled.now }
    ensures state { state pages.new ≡ with_all_kept (newly_kept (progress_seen settled.now it.now)) (state pages.old) }
    ensures still { disk_of pages.new ≡ disk_of pages.old }
{
    if it.kept {
        return;
    }
    keep_clean(settled, &it.cars, pages);
}

/// Claims the lowest page that is free and writes these bytes on it; with the first page of a copy the pages of its
/// clean cars are kept.
pub fn put_page<D: Disk>(
    settled: &[PackedPage],
    it: &InProgress,
    pages: &mut Pages<D>,
    bytes: &[u8],
) -> Result<u64, SaveFault>
    requires within { AllByRecursion (λ (one : PlacedCar). IsWithin settled.now one.place) it.now.cars.items }
    requires ready { IsReady (state pages.old) settled.now }
    requires whole { length bytes.now ≡ PAGE_BYTES }
    ensures written { IfOk result (IsWritten (newly_kept (progress_seen settled.now it.now)) (state pages.old)
        (state pages.new)
        (D.contents (disk_of pages.old)) (D.contents (disk_of pages.new)) bytes.now) }
    ensures memory { OnMemory result ((state pages.new ≡ state pages.old) × (disk_of pages.new ≡ disk_of pages.old)) }
    ensures leaves { IfTold (D.contents (disk_of pages.old)) (λ told. LeavesOnly D.moment D.since
        (disk_of pages.old) (disk_of pages.new) (Holds (state pages.old) told)) }
    ensures told { TellsOn (D.contents (disk_of pages.old)) (D.contents (disk_of pages.new)) }
    ensures cause { HasSaveCause (D.count (disk_of pages.old)) (D.count (disk_of pages.new)) result }
    ensures made { IfOk result (λ page. D.made (disk_of pages.new) ≡ with_write (D.made (disk_of pages.old))) }
    ensures most { MadeAtMost 1 0 (D.made (disk_of pages.old)) (D.made (disk_of pages.new)) }
{
    let page = pages.claim()?;
    keep_first(settled, it, pages);
    pages.write_page(page, bytes)?;
    Ok(page)
}
