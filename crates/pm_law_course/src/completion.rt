//! When a collection begins and ends. The function's contract is the law, and the function does nothing.

ghost use Rattle.std.specs.Prelude.{◌≡◌, ◌≢◌, ℕ, true, false, cond, None};
ghost use Rattle.std.specs.FinMap.{get};
ghost use Rattle.pm_types.specs.Counts.{raised};
ghost use Rattle.pm_types.specs.declared.command.Cmd.{Cmd};
ghost use Rattle.pm_trains.specs.Trains.{cars_at};
ghost use Rattle.pm_view.specs.View.{SpaceView};
ghost use Rattle.pm_view.specs.Law.{HeapLaw};
ghost use Rattle.pm_view.specs.declared.phase.Phase.TheVariants.{Idle};
ghost use Rattle.pm_view.specs.Events.{Row, nothing, select, free, free_doomed, next_row, after, completes};
ghost use Rattle.pm_view.specs.Commands.{row, Picks};

/// A law of completion: the number of completed collections rises by one with the event that completes one, which is
/// the going of the car that was swept, or of the last car of a doomed train, and with no other event and no command.
/// At the greatest number of 64 bits it stands still.
/// A collection is in progress from the event that selects a train to the one that completes it.
pub fn one_event_completes_a_collection()
    ensures counted { (view : SpaceView) (row : Row) (picked number : ℕ)
        → (after view picked number row).completed ≡ cond (completes view row) (raised view.completed) view.completed }
    ensures ended { (view : SpaceView) (row : Row) (picked number : ℕ) → completes view row ≡ true
        → (after view picked number row).phase ≡ Idle }
    ensures going { (view : SpaceView) (row : Row) (picked number : ℕ) → next_row view ≡ row → row ≢ nothing
        → completes view row ≡ false → (after view picked number row).phase ≢ Idle }
    ensures begun { (view : SpaceView) (train : ℕ) → next_row view ≡ select train → view.phase ≡ Idle }
    ensures car { (view : SpaceView) (car picked number : ℕ)
        → get (after view picked number (free car)).cars car ≡ None }
    ensures train { (view : SpaceView) (train car picked number : ℕ) → HeapLaw view
        → next_row view ≡ free_doomed train car → completes view (free_doomed train car) ≡ true
        → cars_at (after view picked number (free_doomed train car)).trains.trains train ≡ None }
    ensures command { (view : SpaceView) (client : ℕ) (cmd : Cmd) (picks : Picks)
        → (row view client cmd picks).1.completed ≡ view.completed }
    ensures phase { (view : SpaceView) (client : ℕ) (cmd : Cmd) (picks : Picks)
        → (row view client cmd picks).1.phase ≡ view.phase }
{}
