//! What becomes of places where an object moves. The function's contract is the law, and the function does nothing.

ghost use Rattle.std.specs.Prelude.{◌≡◌, ℕ};
ghost use Rattle.pm_types.specs.declared.address.Addr.{Addr};
ghost use Rattle.pm_view.specs.View.{SpaceView};
ghost use Rattle.pm_view.specs.Law.{HeapLaw};
ghost use Rattle.pm_view.specs.Events.{Row, next_row, after, MayPick, MayPlace, MovesTo};
ghost use Rattle.pm_law_collect.specs.Moves.Moved.{HasMoved};

/// A law of moves: an event that moves an object changes two places, the one that it leaves, which tells where it went,
/// and the one to which it goes, which held nothing. The object has its identity, its bytes and its fields there, each
/// followed.
pub fn an_object_moves_to_one_place()
    ensures { (view : SpaceView) (row : Row) (picked number train : ℕ) (a : Addr) → HeapLaw view
        → next_row view ≡ row → MayPick view picked row → MayPlace view number row
        → MovesTo picked row a train → HasMoved view (after view picked number row) a }
{}
