//! No event makes an object. The function's contract is the law, and the function does nothing.

ghost use Rattle.std.specs.Prelude.{◌≡◌, ℕ, Some};
ghost use Rattle.pm_types.specs.declared.address.Addr.{Addr};
ghost use Rattle.pm_view.specs.View.{SpaceView};
ghost use Rattle.pm_view.specs.Reading.{id_at};
ghost use Rattle.pm_view.specs.Law.{HeapLaw};
ghost use Rattle.pm_view.specs.Events.{Row, next_row, after, MayPick, MayPlace};

/// A law of the objects that there are: no event makes one. Whichever comes next, the identity of a place after it was
/// that of a place before it, also in a car that is set aside.
pub fn an_event_makes_no_object()
    ensures { (view : SpaceView) (row : Row) (picked number id : ℕ) (a : Addr) → HeapLaw view → next_row view ≡ row
        → MayPick view picked row → MayPlace view number row → id_at (after view picked number row) a ≡ Some id
        → (b : Addr) × (id_at view b ≡ Some id) }
{}
