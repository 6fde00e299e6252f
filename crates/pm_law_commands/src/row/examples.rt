//! Examples of the definitions, worked out by hand. Each function's contract is the example, and the function
//! does nothing.

ghost use Rattle.std.specs.Prelude.{◌≡◌, true, false, [], ◌∷◌, Some, None};
ghost use Rattle.pm_types.specs.declared.source.RefSource.TheVariants.{Root, Handle, Field};
ghost use Rattle.pm_types.specs.declared.object.Object.{Object};
ghost use Rattle.pm_types.specs.declared.object.Slot.TheVariants.{Live, Moved};
ghost use Rattle.pm_view.specs.declared.phase.Phase.TheVariants.{Idle, Moving, Sweeping, Doomed};
ghost use Rattle.pm_view.specs.Reading.{aside_in, from_in, followed};
ghost use Rattle.pm_view.specs.Barrier.{barrier};
ghost use Rattle.pm_view.specs.Rows.{with_open_train};
ghost use Rattle.pm_law_commands.specs.Row.Examples.{at, no_car, first_two, put, take_out, reused, with_births};

/// Which cars hear of a source that is set, and what.
pub fn examples_of_the_barrier()
    // Two objects of one car: a field of the one that is set to the other is heard of by no car.
    ensures within { barrier no_car (Field (at 1 0) 0) None (Some (at 1 1)) ≡ [] }
    // A register that goes from the one to the other is heard of once, with the new slot.
    ensures same_car { barrier no_car (Handle 0 1) (Some (at 1 0)) (Some (at 1 1)) ≡ put 1 (Handle 0 1) 1 ∷ [] }
    // A name that goes from one car to another is heard of by both.
    ensures two_cars { barrier no_car (Root 3) (Some (at 1 0)) (Some (at 2 5)) ≡ take_out 1 (Root 3) ∷ put 2
        (Root 3) 5 ∷ [] }
    // A field that leaves its own car is heard of by the other car alone.
    ensures out_of_its_car { barrier no_car (Field (at 1 0) 0) (Some (at 1 1)) (Some (at 2 5)) ≡ put 2
        (Field (at 1 0) 0) 5 ∷ [] }
    // A null address has no car.
    ensures from_null { barrier no_car (Handle 7 1023) None (Some (at 4 0)) ≡ put 4 (Handle 7 1023) 0 ∷ [] }
    ensures to_null { barrier no_car (Handle 7 1023) (Some (at 4 0)) None ≡ take_out 4 (Handle 7 1023) ∷ [] }
    // A car that is set aside hears nothing.
    ensures set_aside { barrier first_two (Root 3) (Some (at 1 0)) (Some (at 3 0)) ≡ put 3 (Root 3) 0 ∷ [] }
{}

/// Which cars are set aside, which is the from-car, and where an address leads.
pub fn examples_of_what_is_read()
    // The cars of a doomed train are set aside. A number that was used again in another train is not.
    ensures doomed { aside_in (Doomed 1) reused 2 ≡ true }
    ensures used_again { aside_in (Doomed 1) reused 1 ≡ false }
    // A car that is swept is set aside, and is still the from-car; one whose objects move is not set aside.
    ensures swept { aside_in (Sweeping 2) reused 2 ≡ true }
    ensures still_from { from_in (Sweeping 2) 2 ≡ true }
    ensures moving { aside_in (Moving 2) reused 2 ≡ false }
    ensures idle { from_in Idle 2 ≡ false }
    // An address that names a Moved slot leads to where the object went, and one that names an object nowhere else.
    ensures moved { followed (Some (Moved (at 2 7))) (at 1 0) ≡ at 2 7 }
    ensures live { (object : Object) → followed (Some (Live object)) (at 1 0) ≡ at 1 0 }
{}

/// When a new open train is opened for a birth.
pub fn examples_of_births()
    ensures at_the_limit { (with_open_train (with_births 1024)).trains.births ≡ 0 }
    ensures below_the_limit { with_open_train (with_births 1023) ≡ with_births 1023 }
{}
