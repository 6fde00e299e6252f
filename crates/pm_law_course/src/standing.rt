//! How many objects a world reaches. The function's contract is the law, and the function does nothing.

ghost use Rattle.std.specs.Prelude.{ℕ, ◌≤◌, nat_eq, List, length, IsTrue};
ghost use Rattle.std.specs.List.{IsDistinct};
ghost use Rattle.pm_trains.specs.Trains.{is_among};
ghost use Rattle.pm_model.specs.World.{World};
ghost use Rattle.pm_model.specs.Reachability.{IsReachable};
ghost use Rattle.pm_view.specs.View.{SpaceView};
ghost use Rattle.pm_view.specs.Law.{HeapLaw};
ghost use Rattle.pm_view.specs.Counts.{IsStanding, standing};
ghost use Rattle.pm_view.specs.Represents.{IsHeld, Represents};

/// A law of standing objects: what the names and registers of a world reach stands, in every space that stands for the
/// world, and different identities that are reached are no more than the objects that stand.
pub fn no_more_is_reached_than_stands()
    ensures stands { (view : SpaceView) (world : World) (id : ℕ) → Represents view world
        → IsReachable world.heap (IsHeld world) id → IsStanding view id }
    ensures few { (view : SpaceView) (world : World) (ids : List ℕ) → HeapLaw view → Represents view world
        → IsDistinct nat_eq ids
        → ((id : ℕ) → IsTrue (is_among id ids) → IsReachable world.heap (IsHeld world) id)
        → length ids ≤ standing view }
{}
