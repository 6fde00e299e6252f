//! What opening makes of three cars, worked out by hand. Each function's contract is the example, and the function does
//! nothing.

ghost use Rattle.std.specs.Prelude.{◌≡◌, false, [], ◌∷◌, Some, None};
ghost use Rattle.std.specs.List.{flat_map};
ghost use Rattle.pm_copies.specs.Listed.{images};
ghost use Rattle.pm_copies.specs.Opened.{resolved_at, opened_slot, next_after, has_object, opened_trains};
ghost use Rattle.pm_law_copies.specs.Examples.{at, object, five, seven, nine, three};

/// Three cars in trains 3, 4 and 8, of which the second has no object.
pub fn examples_of_opening()
    // The trains that still have a car are numbered from 1, and an open train follows them.
    ensures trains { (opened_trains three).trains
        ≡ record { number = 1; cars = 5 ∷ [] } ∷ record { number = 2; cars = 9 ∷ [] }
        ∷ record { number = 3; cars = [] } ∷ [] }
    ensures births { (opened_trains three).births ≡ 0 }
    // The car without an object goes.
    ensures gone { has_object seven ≡ false }
    // An address is followed through the Moved slot, and every other one stays.
    ensures moved { resolved_at (images three) (at 5 2) ≡ at 9 1 }
    ensures stays { resolved_at (images three) (at 9 3) ≡ at 9 3 }
    // The object of car 5 keeps its slot, its field is followed, and the Moved slot is Gone.
    ensures objects { flat_map (opened_slot (images three)) five ≡ (0, object 1 (Some (at 9 1) ∷ None ∷ [])) ∷ [] }
    // Its next slot is one more than the greatest that was listed, which was Moved.
    ensures next { next_after 0 five ≡ 3 }
    // The objects of car 9, which name each other, stay as they were, whether a root reaches them or not.
    ensures cycle { flat_map (opened_slot (images three)) nine ≡ nine }
{}
