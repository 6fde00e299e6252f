//! Laws of watches and their bounds. Each function's contract is a law, and the function does nothing.

ghost use Rattle.std.specs.Prelude.{◌≡◌, ◌<◌, ◌≤◌, ℕ, ◌-◌, List, [], ◌∷◌, ◌++◌, length, map, take, Some, IsSome};
ghost use Rattle.std.specs.List.{AllByRecursion, AllZip};
ghost use Rattle.pm_types.specs.declared.address.Addr.{Addr};
ghost use Rattle.pm_types.specs.declared.entry.Entry.{Entry};
ghost use Rattle.pm_types.specs.declared.event.Watch.{Watch};
ghost use Rattle.pm_types.specs.declared.event.WatchLine.{WatchLine};
ghost use Rattle.pm_trains.specs.Trains.{cars_at};
ghost use Rattle.pm_model.specs.World.{World};
ghost use Rattle.pm_model.specs.Journal.{after};
ghost use Rattle.pm_view.specs.View.{SpaceView};
ghost use Rattle.pm_view.specs.Law.{HeapLaw};
ghost use Rattle.pm_view.specs.Represents.{Represents};
ghost use Rattle.pm_view.specs.Reading.{id_at};
ghost use Rattle.pm_view.specs.Counts.{old};
ghost use Rattle.pm_view.specs.Watches.{line_of, lines_from, watch_in};
ghost use Rattle.pm_view.specs.Sinking.{IsLost};
ghost use Rattle.pm_view.specs.Bounded.{KeepsRank, KeepsSunk, CountsOne, KeepsBound, EndsLost, IsHonest};

/// A law of watches: one that is set in a space that stands for the world at the journal's end begins with its bound. Its
/// lost set is what that world has lost. No bound is less than that of one train of 1,024 objects.
pub fn a_watch_begins_with_its_bound()
    ensures begins { (start : World) (journal : List Entry) (view : SpaceView) → HeapLaw view
        → Represents view (after start journal)
        → KeepsBound start journal view (watch_in view (length journal)) }
    ensures least { (view : SpaceView) → HeapLaw view → (position : ℕ) → 1052676 ≤ (watch_in view position).bound }
{}

/// A law of watches: one that keeps its bound keeps it where the journal grows and an event or a command keeps the rank
/// and sunk sets, and completes one collection at most.
pub fn a_watch_keeps_its_bound()
    ensures { (start : World) (journal more : List Entry) (old new : SpaceView) (watch : Watch)
        → KeepsBound start journal old watch → KeepsRank old new → KeepsSunk old new → CountsOne old new
        → KeepsBound start (journal ++ more) new watch }
{}

/// A law of all watches that are set: they keep their bounds where one does, and one more is set that begins with its
/// own. No bound is less than that of one train of 1,024 objects, and each that is reached ends what was lost.
pub fn watches_keep_their_bounds()
    ensures stay { (start : World) (journal more : List Entry) (old new : SpaceView) (watches : List Watch)
        → AllByRecursion (KeepsBound start journal old) watches
        → KeepsRank old new → KeepsSunk old new → CountsOne old new
        → AllByRecursion (KeepsBound start (journal ++ more) new) watches }
    ensures one_more { (start : World) (journal more : List Entry) (view : SpaceView) (watches : List Watch)
        → HeapLaw view → Represents view (after start journal) → AllByRecursion (KeepsBound start journal view) watches
        → AllByRecursion (KeepsBound start (journal ++ more) view) (watches ++ watch_in view (length journal) ∷ []) }
    ensures honest { (start : World) (journal : List Entry) (view : SpaceView) (number : ℕ) (watches : List Watch)
        → HeapLaw view → AllByRecursion (KeepsBound start journal view) watches
        → AllByRecursion IsHonest (lines_from view number watches) }
    ensures least { (start : World) (journal : List Entry) (view : SpaceView) (number : ℕ) (watches : List Watch)
        → AllByRecursion (KeepsBound start journal view) watches
        → AllByRecursion (λ (line : WatchLine). 1052676 ≤ line.bound) (lines_from view number watches) }
    ensures gone { (start : World) (journal : List Entry) (view : SpaceView) (number : ℕ) (watches : List Watch)
        → HeapLaw view → AllByRecursion (KeepsBound start journal view) watches
        → AllZip (EndsLost start journal view) (lines_from view number watches)
        (map (λ (watch : Watch). watch.position) watches) }
{}

/// A law of bounds: where as many collections were completed since a watch was set as its bound says, every train that
/// stands is younger than the watch; so no object stands in a train of that time, what is told of the watch says so, and
/// no object that the world had lost when the watch was set is in any car, also in none that is set aside.
pub fn a_bound_that_is_reached_ends_what_was_lost()
    ensures trains { (start : World) (journal : List Entry) (view : SpaceView) (watch : Watch) → HeapLaw view
        → KeepsBound start journal view watch → watch.bound ≤ view.completed - watch.completed
        → (number : ℕ) → IsSome (cars_at view.trains.trains number) → watch.youngest < number }
    ensures old { (start : World) (journal : List Entry) (view : SpaceView) (watch : Watch) → HeapLaw view
        → KeepsBound start journal view watch → watch.bound ≤ view.completed - watch.completed
        → old view watch.youngest ≡ 0 }
    ensures gone { (start : World) (journal : List Entry) (view : SpaceView) (watch : Watch) → HeapLaw view
        → KeepsBound start journal view watch → watch.bound ≤ view.completed - watch.completed
        → (a : Addr) (id : ℕ) → IsLost (after start (take watch.position journal)) id → id_at view a ≡ Some id → ⊥ }
    ensures line { (start : World) (journal : List Entry) (view : SpaceView) (watch : Watch) → HeapLaw view
        → KeepsBound start journal view watch
        → (number : ℕ) → IsHonest (line_of view number watch) }
{}
