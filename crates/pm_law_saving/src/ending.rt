//! How a copy becomes the settled one, or is given up. Each function's contract is a law, and the function does nothing.

ghost use Rattle.std.specs.Prelude.{◌≡◌, ◌<◌, ◌≤◌, ◌^◌, ℕ, List, Option, Some, None};
ghost use Rattle.pm_disk.specs.Disk.{IfTold};
ghost use Rattle.pm_model.specs.World.{Copy};
ghost use Rattle.pm_layout.specs.Headers.{HasHeaderSpelling};
ghost use Rattle.pm_image.specs.CarAnswers.{AreBytes};
ghost use Rattle.pm_image.specs.Opening.{page_count, page_of};
ghost use Rattle.pm_image.specs.Stands.{StandsForCopy};
ghost use Rattle.pm_shadow.specs.State.{State, abandoned_in, published, with_closed};
ghost use Rattle.pm_shadow.specs.Images.{Holds, Renews};
ghost use Rattle.pm_view.specs.View.{Cars};
ghost use Rattle.pm_saving.specs.Progress.{Progress, Saving, car_pages, copy_of};
ghost use Rattle.pm_saving.specs.Paging.{header_of, left};
ghost use Rattle.pm_saving.specs.Tied.{HasCopy, IsTied, IsWhole};

/// A law of saving: once nothing of a copy is left to be written, its header may be published.
pub fn a_whole_copy_may_be_published()
    // The header has a spelling, and comes later than the current one.
    ensures header { (saving : Saving) (cars : Cars) (s : State) (contents : Option (List ℕ)) (progress : Progress)
        → IsTied saving (Some cars) s contents → saving.progress ≡ Some progress → left progress ≡ 0
        → HasHeaderSpelling (header_of progress) × (s.header.epoch < progress.number) }
    // The pages hold the copy, on just those that were claimed or kept, where they are pages of bytes, and no more than
    // numbers of eight bytes count.
    ensures whole { (saving : Saving) (cars : Cars) (s : State) (bytes : List ℕ) (progress : Progress)
        → IsTied saving (Some cars) s (Some bytes) → saving.progress ≡ Some progress → left progress ≡ 0
        → AreBytes bytes → s.count ≤ page_count bytes → s.count ≤ 2 ^ 64 → IsWhole s bytes cars progress }
{}

/// A law of saving: the gate of the next header is closed beside the copy in progress.
pub fn a_gate_is_closed_beside_the_copy()
    ensures { (saving : Saving) (frozen : Option Cars) (s : State) (was now : Option (List ℕ))
        → IsTied saving frozen s was
        → IfTold now (λ after. (before : List ℕ) × (was ≡ Some before) × Holds s before after
        × ((page : ℕ) → 2 ≤ page → page < s.count → page_of after page ≡ page_of before page))
        → IsTied saving frozen (with_closed s) now }
{}

/// A law of saving: a copy whose header was published is the settled one, and each image stands for it; until then each
/// stands for the one before.
pub fn a_published_copy_is_the_settled_one()
    // An image that has the current header and its pages stands for the current copy.
    ensures held { (s : State) (bytes image : List ℕ) (copy : Copy) → HasCopy s bytes copy → Holds s bytes image
        → StandsForCopy image s.header.epoch copy }
    ensures still { (s : State) (bytes image : List ℕ) (copy : Copy) → HasCopy s bytes copy → Holds s bytes image
        → HasCopy s image copy }
    // An image that has the new header stands for the copy that was in progress.
    ensures renewed { (s : State) (bytes image : List ℕ) (cars : Cars) (progress : Progress)
        → IsWhole s bytes cars progress → Renews s (header_of progress) bytes image
        → StandsForCopy image progress.number (copy_of cars progress) }
    ensures next { (s : State) (bytes image : List ℕ) (cars : Cars) (progress : Progress)
        → IsWhole s bytes cars progress → Renews s (header_of progress) bytes image
        → HasCopy (published s (header_of progress)) image (copy_of cars progress) }
    // What holds between calls holds again, with the cars of that copy settled and none in progress.
    ensures tied { (saving : Saving) (cars : Cars) (s : State) (was now : Option (List ℕ)) (progress : Progress)
        → IsTied saving (Some cars) s was → saving.progress ≡ Some progress → left progress ≡ 0
        → IfTold now (λ after. (before : List ℕ) × (was ≡ Some before) × IsWhole s before cars progress
        × Renews s (header_of progress) before after)
        → IsTied (record { settled = car_pages progress; progress = None }) None
        (published s (header_of progress)) now }
{}

/// A law of saving: where a copy is given up, what holds between calls holds again, with no copy in progress.
pub fn a_copy_is_given_up()
    ensures { (saving : Saving) (frozen : Option Cars) (s : State) (contents : Option (List ℕ))
        → IsTied saving frozen s contents
        → IsTied (record saving { progress = None }) None (abandoned_in s) contents }
{}
