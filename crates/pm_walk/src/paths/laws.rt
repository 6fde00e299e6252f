//! That the paths of a space are those of its copy. The function's contract is the law, and it does nothing.

ghost use Rattle.std.specs.Prelude.{◌↔◌, ℕ, IsSome};
ghost use Rattle.std.specs.FinMap.{get};
ghost use Rattle.pm_view.specs.View.{SpaceView};
ghost use Rattle.pm_view.specs.Law.{HeapLaw};
ghost use Rattle.pm_copies.specs.Listed.{copy_in};
ghost use Rattle.pm_walk.specs.Paths.Paths.{Path, IsPath, IsPathOf, IsReached};

/// A law of paths: the paths of a space that keeps the heap law are those of its copy, and there is one to an identity
/// exactly where the names of the copy reach it, which is where the copy has its object.
pub fn a_path_is_one_of_the_graph()
    // A path of the space is one of the copy, and the other way round.
    ensures copy { (view : SpaceView) (id : ℕ) (path : Path) → HeapLaw view
        → IsPath view id path ↔ IsPathOf (copy_in view) id path }
    // The names of the copy reach what a path leads to, and the copy has its object.
    ensures reached { (view : SpaceView) (id : ℕ) (path : Path) → HeapLaw view
        → IsPath view id path → IsReached (copy_in view) id }
    ensures kept { (view : SpaceView) (id : ℕ) (path : Path) → HeapLaw view
        → IsPath view id path → IsSome (get (copy_in view).heap id) }
    // There is a path to what the names of the copy reach, and to each object that the copy has.
    ensures path { (view : SpaceView) (id : ℕ) → HeapLaw view
        → IsReached (copy_in view) id → (path : Path) × IsPath view id path }
    ensures path_of_kept { (view : SpaceView) (id : ℕ) → HeapLaw view
        → IsSome (get (copy_in view).heap id) → (path : Path) × IsPath view id path }
{}
