//! What a source that is fixed stored, and stores then. The function's contract is the law, and the function does
//! nothing.

ghost use Rattle.std.specs.Prelude.{◌≡◌, ℕ, cond, Some};
ghost use Rattle.pm_types.specs.declared.address.Addr.{Addr};
ghost use Rattle.pm_types.specs.declared.source.RefSource.{RefSource};
ghost use Rattle.pm_view.specs.Sources.{same_source};
ghost use Rattle.pm_view.specs.View.{SpaceView};
ghost use Rattle.pm_view.specs.Reading.{stored};
ghost use Rattle.pm_view.specs.Law.{HeapLaw};
ghost use Rattle.pm_view.specs.Events.{fix, next_row, after};
ghost use Rattle.pm_law_collect.specs.Changes.Stale.{NamesMoved};

/// A law of sources that are fixed: one names, until then, a place of the car whose object went to that address; it
/// stores the address then, and every other source what it stored.
pub fn a_source_that_is_fixed_named_a_place_that_moved()
    ensures before { (view : SpaceView) (car : ℕ) (source : RefSource) (to : Addr) → HeapLaw view
        → next_row view ≡ fix car source to → NamesMoved view car source to }
    ensures after { (view : SpaceView) (car picked number : ℕ) (source y : RefSource) (to : Addr) → HeapLaw view
        → next_row view ≡ fix car source to
        → stored (after view picked number (fix car source to)) y
        ≡ cond (same_source source y) (Some to) (stored view y) }
{}
