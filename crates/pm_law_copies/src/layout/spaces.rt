//! What a space lays on pages. The function's contract is a law, and the function does nothing.

ghost use Rattle.std.specs.Prelude.{◌≡◌, ℕ, ◌≤◌, ◌^◌, List, Ok};
ghost use Rattle.pm_types.specs.declared.limits.TheConstants.{FIELDS};
ghost use Rattle.pm_model.specs.World.{World};
ghost use Rattle.pm_model.specs.Copying.{copy};
ghost use Rattle.pm_image.specs.Opening.{Current, current, page_count};
ghost use Rattle.pm_image.specs.Stands.{StandsForCopy, pages_of};
ghost use Rattle.pm_view.specs.View.{SpaceView};
ghost use Rattle.pm_view.specs.Law.{HeapLaw};
ghost use Rattle.pm_view.specs.Represents.{Represents};
ghost use Rattle.pm_copies.specs.Plans.{CarPlan};
ghost use Rattle.pm_copies.specs.Laid.{IsPlanInRange, IsLaidBehind, IsStorePlan, IsSpacePlan};

/// A law of spaces: where what a space lists is laid on the pages of a store, behind its current header, the store
/// stands for the copy of the world that the space stands for.
pub fn a_space_is_laid_as_its_copy()
    // A plan of a space is one of a store, by the heap law and by the ranges of the types.
    ensures of_store { (view : SpaceView) (plan : CarPlan) → HeapLaw view → IsSpacePlan view plan → IsPlanInRange plan
        → IsStorePlan view.next FIELDS plan }
    ensures stands { (view : SpaceView) (world : World) (plan : CarPlan) (bytes : List ℕ) (now : Current)
        → HeapLaw view → Represents view world → IsSpacePlan view plan → page_count bytes ≤ 2 ^ 64
        → current bytes ≡ Ok now → now.header.next ≡ view.next → IsLaidBehind (pages_of bytes) now.header plan
        → StandsForCopy bytes now.header.epoch (copy world) }
{}
