//! How the pages of a copy are written. Each function's contract is a law, and the function does nothing.

ghost use Rattle.std.specs.Prelude.{◌≡◌, ◌≤◌, ◌+◌, ◌↔◌, ℕ, List, length, Option, Some, None};
ghost use Rattle.pm_disk.specs.Disk.{IfTold};
ghost use Rattle.pm_image.specs.Opening.{page_count};
ghost use Rattle.pm_shadow.specs.State.{State};
ghost use Rattle.pm_shadow.specs.Images.{Holds};
ghost use Rattle.pm_view.specs.View.{Cars};
ghost use Rattle.pm_image.specs.declared.settled.KeptPage.{KeptPage};
ghost use Rattle.pm_saving.specs.Progress.{Progress, Saving};
ghost use Rattle.pm_saving.specs.Paging.{NextPage, left, next_page, with_page, written_on};
ghost use Rattle.pm_saving.specs.Beginning.{IsInProgress};
ghost use Rattle.pm_saving.specs.Tied.{GoesOn, HasPage, IsTied, WritesNext};

/// A law of saving: the pages of a copy are written in order, and each of them once.
pub fn pages_of_a_copy_are_written_in_order()
    // There is a next page exactly where one is left,
    ensures none { (settled : List KeptPage) (cars : Cars) (progress : Progress) → IsInProgress settled cars progress
        → (next_page cars progress ≡ None) ↔ (left progress ≡ 0) }
    // once it is written one less is left,
    ensures left { (settled : List KeptPage) (cars : Cars) (progress : Progress) (next : NextPage) (page : ℕ)
        → IsInProgress settled cars progress → next_page cars progress ≡ Some next
        → left (with_page page progress next) + 1 ≡ left progress }
    // it may be written,
    ensures may { (settled : List KeptPage) (cars : Cars) (progress : Progress) (next : NextPage)
        → IsInProgress settled cars progress → next_page cars progress ≡ Some next → HasPage next }
    // and the copy goes on.
    ensures goes_on { (settled : List KeptPage) (cars : Cars) (progress : Progress) (next : NextPage) (page : ℕ)
        → IsInProgress settled cars progress → next_page cars progress ≡ Some next
        → GoesOn progress (with_page page progress next) × IsInProgress settled cars (with_page page progress next) }
    // Once as many were written as were left, nothing is.
    ensures all { (settled : List KeptPage) (cars : Cars) (progress : Progress) (pages : List ℕ)
        → IsInProgress settled cars progress → length pages ≡ left progress
        → left (written_on cars pages progress) ≡ 0 }
{}

/// A law of saving: once the next page was written, what holds between calls holds again.
pub fn the_next_page_is_written_beside_the_current_copy()
    ensures { (old new : Saving) (cars : Cars) (s t : State) (was now : Option (List ℕ)) (page : ℕ)
        → IsTied old (Some cars) s was → WritesNext old new cars s t was now page
        → IfTold was (λ before. IfTold now (λ after. Holds s before after × (t.count ≤ page_count after)))
        → IsTied new (Some cars) t now }
{}
