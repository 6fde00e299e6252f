//! The events of the collector. Each function's contract is a law, and the function does nothing.

ghost use Rattle.std.specs.Prelude.{◌≡◌, ◌≢◌, ◌⊎◌, ◌↔◌, ℕ, ◌<◌, ◌==◌, false, length, Some, IsSome, IsTrue};
ghost use Rattle.pm_types.specs.declared.address.Addr.{Addr};
ghost use Rattle.pm_trains.specs.Trains.{cars_at, is_among, tail, train_of};
ghost use Rattle.pm_model.specs.World.{World};
ghost use Rattle.pm_model.specs.Reachability.{IsReachable};
ghost use Rattle.pm_view.specs.View.{SpaceView};
ghost use Rattle.pm_view.specs.Law.{HeapLaw};
ghost use Rattle.pm_view.specs.Counts.{IsStanding, IsStandingAt, IsPlaced};
ghost use Rattle.pm_view.specs.Represents.{IsHeld, Represents};
ghost use Rattle.pm_law_collect.specs.Ways.{IsNamedFromTrain, IsOpenToHeld, Ascend};
ghost use Rattle.pm_view.specs.Events.{Row, start, move_out, next_row, after, ways_out, home, MayPick, MayPlace, moving_id, goal_of, ended_by, clears, MovesTo};

/// A law of every event of the collector: whichever comes next, and whatever train is picked where one is, the heap
/// law is kept, and every world that the space stands for stays. So no event changes what a client is answered, and
/// what the world reaches stands after it.
pub fn an_event_keeps_the_law_and_the_worlds()
    ensures law { (view : SpaceView) (row : Row) (picked number : ℕ) → HeapLaw view → next_row view ≡ row
        → MayPick view picked row → MayPlace view number row
        → HeapLaw (after view picked number row) }
    ensures world { (view : SpaceView) (world : World) (row : Row) (picked number : ℕ) → HeapLaw view
        → next_row view ≡ row → MayPick view picked row → MayPlace view number row
        → Represents view world → Represents (after view picked number row) world }
{}

/// A law of places: an event changes the place of at most one object, and lets no object begin to stand. Only where a
/// train is doomed, or the sweeping of a car begins, do objects end to stand, and the world reaches none of them.
pub fn an_event_moves_one_object_at_most()
    ensures moved { (view : SpaceView) (row : Row) (picked number id : ℕ) → HeapLaw view → next_row view ≡ row
        → MayPick view picked row → MayPlace view number row
        → moving_id view row ≡ Some id → IsPlaced (after view picked number row) id (goal_of picked row) }
    ensures before { (view : SpaceView) (row : Row) (picked number id train : ℕ) → HeapLaw view
        → next_row view ≡ row → MayPick view picked row → MayPlace view number row
        → moving_id view row ≢ Some id → IsPlaced (after view picked number row) id train → IsPlaced view id train }
    ensures after { (view : SpaceView) (row : Row) (picked number id train : ℕ) (a : Addr) → HeapLaw view
        → next_row view ≡ row → MayPick view picked row → MayPlace view number row
        → moving_id view row ≢ Some id → IsStandingAt view id a → train_of view.trains.trains a.car ≡ Some train
        → ended_by (after view picked number row) row a.car ≡ false
        → IsPlaced (after view picked number row) id train }
    ensures reached { (view : SpaceView) (world : World) (row : Row) (picked number id : ℕ) → HeapLaw view
        → next_row view ≡ row → MayPick view picked row → MayPlace view number row
        → Represents view world → IsReachable world.heap (IsHeld world) id
        → IsStanding (after view picked number row) id }
{}

/// A law of picks: where an event picks a train there is one to pick, and each that may be picked stands and is
/// another one than that of the object.
pub fn there_is_a_train_to_pick()
    ensures noted { (view : SpaceView) (car : ℕ) (a : Addr) → HeapLaw view → next_row view ≡ start car a
        → 0 < length (ways_out view a) }
    ensures moved { (view : SpaceView) (a : Addr) → HeapLaw view → next_row view ≡ move_out a
        → 0 < length (ways_out view a) }
    ensures noted_to { (view : SpaceView) (car train : ℕ) (a : Addr) → HeapLaw view → next_row view ≡ start car a
        → IsTrue (is_among train (ways_out view a))
        → IsSome (cars_at view.trains.trains train) × ((train == home view a.car) ≡ false) }
    ensures moved_to { (view : SpaceView) (train : ℕ) (a : Addr) → HeapLaw view → next_row view ≡ move_out a
        → IsTrue (is_among train (ways_out view a))
        → IsSome (cars_at view.trains.trains train) × ((train == home view a.car) ≡ false) }
{}

/// A law of the trains to which an object may go: a train is one of them exactly where a remembered field of an object
/// of that train, which is another one than the object's, names the object; or where it is the open train, and a
/// remembered root or register does. They ascend strictly.
pub fn an_object_may_go_where_it_is_named()
    ensures among { (view : SpaceView) (a : Addr) (train : ℕ) → HeapLaw view
        → IsTrue (is_among train (ways_out view a)) ↔ (IsNamedFromTrain view a train ⊎ IsOpenToHeld view a train) }
    ensures ascend { (view : SpaceView) (a : Addr) → HeapLaw view → Ascend 0 (ways_out view a) }
{}

/// A law of anchors: one that stands keeps its object and its train, until it moves there or its train is doomed.
/// And a law of moves: no object moves to the end of the car in which it lies.
pub fn an_anchor_stands_until_it_moves()
    ensures anchor { (view : SpaceView) (row : Row) (picked number : ℕ) (anchor : Addr × ℕ) → clears row ≡ false
        → view.anchor ≡ Some anchor
        → (after view picked number row).anchor ≡ Some anchor }
    ensures tail { (view : SpaceView) (row : Row) (picked number train car : ℕ) (a : Addr) → HeapLaw view
        → next_row view ≡ row → MayPick view picked row → MayPlace view number row
        → MovesTo picked row a train → tail view.trains.trains train ≡ Some car → (a.car == car) ≡ false }
{}
