//! Plans and catalogs worked out by hand. Each function's contract is the example, and the function does nothing.

ghost use Rattle.std.specs.Prelude.{◌≡◌, ◌<◌, [], ◌∷◌, ◌++◌, codes, replicate};
ghost use Rattle.pm_types.specs.declared.limits.TheConstants.{FIELDS};
ghost use Rattle.pm_image.specs.declared.catalog.CatEntry.TheVariants.{Car, Root};
ghost use Rattle.pm_image.specs.Blank.{blank_catalog_page, blank_header};
ghost use Rattle.pm_image.specs.First.{first_car_page, first_catalog_page, first_header};
ghost use Rattle.pm_image.specs.Graphs.{Pages};
ghost use Rattle.pm_copies.specs.Plans.{planned_entries, planned_pages};
ghost use Rattle.pm_copies.specs.Cutting.{cut};
ghost use Rattle.pm_law_copies.specs.Layout.Examples.{a_car, a_root, first_plan, moved_plan, nothing};
ghost use Rattle.pm_copies.specs.Laid.{IsLaidBehind, IsStorePlan};

/// A page has 16,384 bytes, of which 46 stand before the entries. A car has 57, so 286 of them leave 36, which a root
/// with a name of 22 bytes fills.
pub fn examples_of_cutting()
    // A catalog of nothing has one page.
    ensures none { cut [] ≡ [] ∷ [] }
    ensures cars { cut (replicate 286 a_car) ≡ replicate 286 a_car ∷ [] }
    ensures more_cars { cut (replicate 286 a_car ++ a_car ∷ []) ≡ replicate 286 a_car ∷ (a_car ∷ []) ∷ [] }
    ensures full { cut (replicate 286 a_car ++ a_root 22 ∷ []) ≡ (replicate 286 a_car ++ a_root 22 ∷ []) ∷ [] }
    ensures over { cut (replicate 286 a_car ++ a_root 23 ∷ []) ≡ replicate 286 a_car ∷ (a_root 23 ∷ []) ∷ [] }
{}

/// The store that has just been made holds the plan of nothing, behind its header.
pub fn a_new_store_holds_nothing()
    ensures { (pages : Pages) → 2 < pages.count → pages.page 2 ≡ blank_catalog_page
        → IsLaidBehind pages blank_header nothing }
{}

/// The store after its first checkpoint, of one object that one root names, holds the plan of that checkpoint: the
/// car is on page 3 and the catalog on page 4.
pub fn a_first_checkpoint_is_a_plan()
    ensures { (pages : Pages) → 4 < pages.count → pages.page 3 ≡ first_car_page
        → pages.page 4 ≡ first_catalog_page → IsLaidBehind pages first_header first_plan }
{}

/// A plan of three trains, whose cars have fields, a cycle and Moved slots, is one of a store.
pub fn a_plan_may_have_moved_slots()
    ensures of_store { IsStorePlan 5 FIELDS moved_plan }
    // Its entries are one for each car, with its train and its page, and one for its root.
    ensures entries { planned_entries moved_plan ≡ Car 5 3 2 (replicate 32 0) ∷ Car 7 4 3 (replicate 32 0)
        ∷ Car 9 8 4 (replicate 32 0) ∷ Root (codes "a") (record { car = 7; slot = 4 }) ∷ [] }
    ensures pages { planned_pages moved_plan ≡ 2 ∷ 3 ∷ 4 ∷ [] }
{}
