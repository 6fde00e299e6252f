//! Examples of the definitions, worked out by hand. Each function's contract is the example, and the function
//! does nothing.

ghost use Rattle.std.specs.Prelude.{◌≡◌, ℕ, ◌+◌, ◌*◌, None};
ghost use Rattle.pm_view.specs.declared.phase.Phase.TheVariants.{Idle, Draining, Moving, Sweeping, Doomed};
ghost use Rattle.pm_view.specs.Counts.{old};
ghost use Rattle.pm_view.specs.Rows.{new_space};
ghost use Rattle.pm_view.specs.Watches.{bound_of, watch_in};
ghost use Rattle.pm_view.specs.Ranking.{Fits, rank, taking};
ghost use Rattle.pm_view.specs.Sinking.{Sunk};
ghost use Rattle.pm_view.specs.Examples.{two_cars, noted, held_by_register, held_by_name, Only};

/// How many collections may pass until a watch's bound is reached.
pub fn examples_of_bounds()
    // Two trains, 2 * 2,050 * 2,050.
    ensures two_trains { bound_of 2 2048 ≡ 8405000 }
    // One train, 1,026 * 1,026: in a new space 1,024 objects can be born in it.
    ensures one_train { bound_of 1 1024 ≡ 1052676 }
    ensures new { (watch_in new_space 0).bound ≡ 1052676 }
{}

/// How many objects fit: train 1 has two cars of three and two objects, and train 2 is open and has none.
pub fn examples_of_what_fits()
    ensures first { Fits (two_cars Idle None) 1 5 }
    // Four do not.
    ensures more { Fits (two_cars Idle None) 1 4 → ⊥ }
    // The open train still takes 1,024 births, and they are counted.
    ensures takes { taking (two_cars Idle None) 2 ≡ 1024 }
    ensures both { Fits (two_cars Idle None) 2 1029 }
    // Train 3 was not opened yet.
    ensures given { (objects : ℕ) → Fits (two_cars Idle None) 3 objects → ⊥ }
    // The objects of a train that is given up do not stand.
    ensures none { old (two_cars (Doomed 1) None) 1 ≡ 0 }
{}

/// Ranks: of a new space, and where train 1 has two cars of three and two objects, and train 2 is open and has none.
pub fn examples_of_ranks()
    // No train but the open one, which still takes 1,024 objects.
    ensures new { rank new_space 1 1024 ≡ 1024 * 1026 + 1024 }
    // Five objects, and no anchor: so many cars may be taken.
    ensures idle { rank (two_cars Idle None) 1 5 ≡ 5 * 7 + 5 }
    // While the first car goes, one more.
    ensures moving { rank (two_cars (Moving 1) None) 1 5 ≡ 5 * 7 + 6 }
    // The anchor is in the second car.
    ensures anchored { rank (two_cars (Moving 1) noted) 1 5 ≡ 5 * 7 + 2 }
    // The three objects of the car that is swept do not stand.
    ensures sweeping { rank (two_cars (Sweeping 1) None) 1 5 ≡ 2 * 7 + 3 }
    // One collection is left where the train is given up.
    ensures doomed { rank (two_cars (Doomed 1) None) 1 5 ≡ 1 }
    // No train is numbered up to 0; two are up to 2, whose objects are at most 1,029.
    ensures none { rank (two_cars Idle None) 0 5 ≡ 0 }
    ensures both { rank (two_cars Idle None) 2 1029 ≡ 1031 * 1031 + 5 * 1031 + 5 }
{}

/// Sunk sets: train 1 has two cars of three and two objects, train 2 is open, and nothing names an object.
pub fn examples_of_sunk_sets()
    ensures sunk { Sunk (two_cars Idle None) (Only 1) 1 }
    // A register holds object 1, or a name does.
    ensures register { (number : ℕ) → Sunk held_by_register (Only 1) number → ⊥ }
    ensures name { (number : ℕ) → Sunk held_by_name (Only 1) number → ⊥ }
    // Object 1 is in train 1.
    ensures low { Sunk (two_cars Idle None) (Only 1) 0 → ⊥ }
    // Object 4 is the anchor, and goes to train 2.
    ensures anchored { Sunk (two_cars (Draining 1) noted) (Only 4) 1 → ⊥ }
    // Identity 6 was not given yet.
    ensures given { (number : ℕ) → Sunk (two_cars Idle None) (Only 6) number → ⊥ }
{}
