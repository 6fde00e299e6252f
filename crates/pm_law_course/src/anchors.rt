//! What an anchor keeps to. The function's contract is the law, and the function does nothing.

ghost use Rattle.std.specs.Prelude.{◌≡◌, ℕ, true, false, Some, None};
ghost use Rattle.pm_types.specs.declared.address.Addr.{Addr};
ghost use Rattle.pm_types.specs.declared.command.Cmd.{Cmd};
ghost use Rattle.pm_view.specs.View.{SpaceView};
ghost use Rattle.pm_view.specs.Events.{Row, start, move_anchor, next_row, after, clears, MovesTo};
ghost use Rattle.pm_view.specs.Commands.{row, Picks};
ghost use Rattle.pm_law_course.specs.Course.{notes};

/// A law of anchors: one is noted where a car begins to be emptied and none stands, with the train that is picked
/// then. Its object moves by one event alone, whatever is picked then, and to that train. No other event and no
/// command notes one; it is cleared where its object moves and where a train is doomed.
pub fn an_anchor_is_noted_with_its_train()
    ensures noted { (view : SpaceView) (car picked number : ℕ) (a : Addr) → view.anchor ≡ None
        → (after view picked number (start car a)).anchor ≡ Some (a, picked) }
    ensures no_other { (view : SpaceView) (row : Row) (picked number : ℕ) → notes row ≡ false → view.anchor ≡ None
        → (after view picked number row).anchor ≡ None }
    ensures moves { (view : SpaceView) (row : Row) (picked to train : ℕ) (a : Addr) → next_row view ≡ row
        → view.anchor ≡ Some (a, to) → MovesTo picked row a train → row ≡ move_anchor a to }
    ensures there { (view : SpaceView) (picked to train : ℕ) (a : Addr) → MovesTo picked (move_anchor a to) a train
        → train ≡ to }
    ensures cleared { (view : SpaceView) (row : Row) (picked number : ℕ) → clears row ≡ true
        → (after view picked number row).anchor ≡ None }
    ensures command { (view : SpaceView) (client : ℕ) (cmd : Cmd) (picks : Picks)
        → (row view client cmd picks).1.anchor ≡ view.anchor }
{}
