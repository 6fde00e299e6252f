//! A space that is built of cars in trains and of roots. Each function's contract is the law, and the function does
//! nothing.

ghost use Rattle.std.specs.Prelude.{ℕ, List};
ghost use Rattle.pm_types.specs.declared.address.Addr.{Addr};
ghost use Rattle.pm_image.specs.declared.catalog.CatEntry.{CatEntry};
ghost use Rattle.pm_view.specs.View.{SpaceView};
ghost use Rattle.pm_view.specs.Law.{HeapLaw};
ghost use Rattle.pm_copies.specs.Listed.{Listed};
ghost use Rattle.pm_copies.specs.Accepted.{IsAccepted};
ghost use Rattle.pm_copies.specs.Opened.{IsOpened};
ghost use Rattle.pm_copies.specs.Built.{Placed, MayBuild, IsBuiltOf, opening_cars, opening_roots};

/// A law of building: a space that is built of cars and roots that it may be built of keeps the heap law.
pub fn a_built_space_keeps_the_law()
    ensures { (placed : List Placed) (named : List (List ℕ × Addr)) (next : ℕ) (view : SpaceView)
        → MayBuild placed named next → IsBuiltOf placed named next view → HeapLaw view }
{}

/// A law of opening: a space may be built of the cars and roots that opening makes of those that no rule refuses, and
/// what is built of them is what opening makes.
pub fn opening_builds_a_space()
    ensures may { (listed : List Listed) (catalog : List CatEntry) (next : ℕ) → IsAccepted listed catalog next
        → MayBuild (opening_cars listed) (opening_roots listed catalog) next }
    ensures opened { (listed : List Listed) (catalog : List CatEntry) (next : ℕ) (view : SpaceView)
        → IsAccepted listed catalog next → IsBuiltOf (opening_cars listed) (opening_roots listed catalog) next view
        → IsOpened listed catalog next view }
{}
