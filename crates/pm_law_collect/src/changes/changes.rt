//! What a queued change does where it is applied. The function's contract is the law, and the function does nothing.

ghost use Rattle.std.specs.Prelude.{◌≡◌, ℕ, ◌==◌, ◌<◌, false, cond, List, ◌∷◌, length};
ghost use Rattle.std.specs.FinMap.{get};
ghost use Rattle.pm_types.specs.declared.source.RefSource.{RefSource};
ghost use Rattle.pm_types.specs.declared.source.Change.{Change};
ghost use Rattle.pm_view.specs.Sources.{same_source};
ghost use Rattle.pm_view.specs.View.{SpaceView};
ghost use Rattle.pm_view.specs.Effective.{effective};
ghost use Rattle.pm_view.specs.Law.{HeapLaw};
ghost use Rattle.pm_view.specs.Candidates.{set_of, queue_of};
ghost use Rattle.pm_view.specs.Events.{apply, next_row, after};

/// A law of changes: one that is applied leaves the effective set of every car as it was. The car had a queued change;
/// its queue loses the front one, which its remembered set takes, and every other car keeps its queue and its set.
pub fn a_change_that_is_applied_leaves_the_effective_sets()
    ensures effective { (view : SpaceView) (car picked number e : ℕ) (x : RefSource) → HeapLaw view
        → effective (after view picked number (apply car)) e x ≡ effective view e x }
    ensures some { (view : SpaceView) (car : ℕ) → next_row view ≡ apply car → 0 < length (queue_of view car) }
    ensures queue { (view : SpaceView) (car picked number : ℕ) (change : Change) (changes : List Change)
        → queue_of view car ≡ change ∷ changes
        → queue_of (after view picked number (apply car)) car ≡ changes }
    ensures set { (view : SpaceView) (car picked number : ℕ) (change : Change) (changes : List Change) (x : RefSource)
        → queue_of view car ≡ change ∷ changes
        → get (set_of (after view picked number (apply car)) car) x
        ≡ cond (same_source change.source x) change.slot (get (set_of view car) x) }
    ensures other_queues { (view : SpaceView) (car picked number e : ℕ) → (car == e) ≡ false
        → queue_of (after view picked number (apply car)) e ≡ queue_of view e }
    ensures other_sets { (view : SpaceView) (car picked number e : ℕ) → (car == e) ≡ false
        → set_of (after view picked number (apply car)) e ≡ set_of view e }
{}
