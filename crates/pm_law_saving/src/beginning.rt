//! How a copy begins. Each function's contract is a law, and the function does nothing.

ghost use Rattle.std.specs.Prelude.{◌≡◌, ◌<◌, ◌≤◌, ◌^◌, ◌↔◌, ℕ, List, map, Option, Contains, Some, None, true, false};
ghost use Rattle.std.specs.List.{AllByRecursion};
ghost use Rattle.pm_types.specs.Names.{IsName};
ghost use Rattle.pm_types.specs.declared.address.Addr.{Addr};
ghost use Rattle.pm_image.specs.CarAnswers.{AreBytes};
ghost use Rattle.pm_image.specs.Opening.{page_count};
ghost use Rattle.pm_image.specs.declared.car.CarImage.{CarImage};
ghost use Rattle.pm_image.specs.declared.catalog.CatEntry.{CatEntry};
ghost use Rattle.pm_image.specs.declared.settled.KeptPage.{KeptPage};
ghost use Rattle.pm_shadow.specs.State.{State, IsIdle};
ghost use Rattle.pm_disk.specs.Disk.{IfTold};
ghost use Rattle.pm_view.specs.View.{Cars, SpaceView};
ghost use Rattle.pm_view.specs.Law.{HeapLaw};
ghost use Rattle.pm_copies.specs.Listed.{Listed, copy_in, copy_listed, images};
ghost use Rattle.pm_copies.specs.Accepted.{IsAccepted};
ghost use Rattle.pm_copies.specs.Plans.{root_entry};
ghost use Rattle.pm_saving.specs.Progress.{Place, Unwritten, Saving, cars_of, copy_of};
ghost use Rattle.pm_saving.specs.Beginning.{AreFrozen, Begins, BeginsListed, IsCarNumbered, IsPlacedAs};
ghost use Rattle.pm_saving.specs.Tied.{AreSettled, IsOnPage, IsTied};

/// A law of saving: a copy of a list of cars begins beside the settled one, and is the copy that is listed.
pub fn a_listed_copy_begins_beside_the_settled_one()
    // What no rule refuses is found as it is listed, among its own cars.
    ensures found { (list : List Listed) (catalog : List CatEntry) (next : ℕ) → IsAccepted list catalog next
        → AreFrozen (cars_of (images list)) list }
    // It is the copy that is listed, where the frozen cars are found as they are listed.
    ensures copy { (old new : Saving) (list : List Listed) (names : List (List ℕ × Addr)) (next number : ℕ)
        (cars : Cars) → AreFrozen cars list → (begins : BeginsListed old new list names next number)
        → copy_of cars begins.begun ≡ copy_listed list (map root_entry names) next }
    // What holds between calls holds again, where no rule refuses what is listed, and its numbers and names are such as
    // the types hold.
    ensures tied { (old new : Saving) (list : List Listed) (names : List (List ℕ × Addr)) (next number : ℕ)
        (cars : Cars) (s : State) (contents : Option (List ℕ)) → IsAccepted list (map root_entry names) next
        → AreFrozen cars list → (begins : BeginsListed old new list names next number)
        → AllByRecursion IsCarNumbered begins.begun.cars
        → AllByRecursion (λ (root : List ℕ × Addr). IsName root.0) begins.begun.roots → number < 2 ^ 32
        → s.header.epoch < number → IsTied old None s contents → IsTied new (Some cars) s contents }
{}

/// A law of saving: a copy of a space begins beside the settled one, and is the copy of the space at that moment.
pub fn a_copy_begins_beside_the_settled_one()
    // It is the copy in the space then, by the cars that are frozen with it.
    ensures copy { (old new : Saving) (view : SpaceView) (number : ℕ) → HeapLaw view
        → (begins : Begins old new view number) → copy_of view.cars begins.begun ≡ copy_in view }
    // What holds between calls holds again, where its numbers and names are such as the types hold.
    ensures tied { (old new : Saving) (view : SpaceView) (number : ℕ) (s : State) (contents : Option (List ℕ))
        → HeapLaw view → (begins : Begins old new view number) → AllByRecursion IsCarNumbered begins.begun.cars
        → AllByRecursion (λ (root : List ℕ × Addr). IsName root.0) begins.begun.roots → number < 2 ^ 32
        → s.header.epoch < number → IsTied old None s contents → IsTied new (Some view.cars) s contents }
    // A car is clean exactly where some page of the current copy has its content.
    ensures clean { (settled : List KeptPage) (s : State) (bytes : List ℕ) (image : CarImage) (place : Place)
        → AreBytes bytes → s.settled ≤ page_count bytes → AreSettled settled s bytes → IsPlacedAs settled image place
        → (place ≡ Unwritten) ↔ ((kept : KeptPage) → Contains settled kept → kept.image ≡ image → ⊥) }
{}

/// A law of saving: a store that was just opened has the cars of its copy settled, and no copy in progress.
pub fn a_store_begins_with_its_settled_copy()
    ensures { (settled : List KeptPage) (s : State) (contents : Option (List ℕ)) → s.failed ≡ false → s.known ≡ true
        → s.settled ≤ s.count → IsIdle s → AllByRecursion (IsOnPage s) settled → IfTold contents (AreSettled settled s)
        → IsTied (record { settled = settled; progress = None }) None s contents }
{}
