//! How much each event leaves of a collection. The function's contract is the law, and the function does nothing.

ghost use Rattle.std.specs.Prelude.{◌≡◌, ◌≢◌, ℕ, ◌+◌, ◌≤◌, false, None};
ghost use Rattle.std.specs.FinMap.{get};
ghost use Rattle.pm_view.specs.View.{SpaceView};
ghost use Rattle.pm_view.specs.Law.{HeapLaw};
ghost use Rattle.pm_view.specs.declared.phase.Phase.TheVariants.{Idle};
ghost use Rattle.pm_view.specs.Work.{work, lowers};
ghost use Rattle.pm_view.specs.Events.{Row, nothing, next_row, after, completes, MayPick, MayPlace};

/// A law of work: in a collection each event that does not complete it lowers the work that is left, by four where a
/// train is doomed, by three where a car begins to be emptied or an object moves, by two where a source is fixed, and by
/// one else. No event comes just where no collection is in progress and no car stands.
pub fn an_event_lowers_the_work_left()
    ensures lowers { (view : SpaceView) (row : Row) (picked number : ℕ) → HeapLaw view → next_row view ≡ row
        → MayPick view picked row → MayPlace view number row
        → view.phase ≢ Idle → completes view row ≡ false
        → work (after view picked number row) + lowers row ≤ work view }
    ensures idle { (view : SpaceView) → HeapLaw view → next_row view ≡ nothing → view.phase ≡ Idle }
    ensures empty { (view : SpaceView) (car : ℕ) → HeapLaw view → next_row view ≡ nothing → get view.cars car ≡ None }
    ensures nothing { (view : SpaceView) → HeapLaw view → view.phase ≡ Idle → ((car : ℕ) → get view.cars car ≡ None)
        → next_row view ≡ nothing }
{}
