//! Single rows, which are no commands, and the one slot of the car that is emptied which a stale source can name. The
//! function's contract is the law, and the function does nothing.

ghost use Rattle.std.specs.Prelude.{ℕ, Option};
ghost use Rattle.pm_types.specs.declared.address.Addr.{Addr};
ghost use Rattle.pm_types.specs.declared.object.Object.{Object};
ghost use Rattle.pm_types.specs.declared.source.RefSource.{RefSource};
ghost use Rattle.pm_view.specs.Law.{HeapLaw};
ghost use Rattle.pm_view.specs.Rows.{spread, spent, born, IsVacant};
ghost use Rattle.pm_view.specs.Stale.{IsSole};
ghost use Rattle.pm_view.specs.View.{SpaceView};

/// A law of stale sources: while a car is emptied, neither a source that is set, nor an object that is born, nor an
/// identity that is given changes what that car remembers, or which of its slots are those of objects that moved away.
/// So the one slot that stale sources can name stays that slot.
pub fn a_source_or_a_birth_leaves_the_slot_that_moved()
    ensures source { (view : SpaceView) (x : RefSource) (to : Option Addr) (slot : Option ℕ) → IsSole view slot
        → IsSole (spread view x to) slot }
    ensures birth { (view : SpaceView) (number : ℕ) (object : Object) (slot : Option ℕ) → HeapLaw view
        → IsVacant view.cars number → IsSole view slot → IsSole (born view number object) slot }
    ensures identity { (view : SpaceView) (slot : Option ℕ) → IsSole view slot → IsSole (spent view) slot }
{}
