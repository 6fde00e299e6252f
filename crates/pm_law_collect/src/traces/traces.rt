//! Examples of collections, worked out by hand. Each function's contract is the example, and the function does nothing.

ghost use Rattle.std.specs.Prelude.{◌≡◌, ℕ, false, List, [], ◌∷◌, length, Some, None};
ghost use Rattle.pm_types.specs.declared.object.Slot.TheVariants.{Moved};
ghost use Rattle.pm_types.specs.declared.source.RefSource.TheVariants.{Handle, Field};
ghost use Rattle.pm_trains.specs.Trains.{cars_at};
ghost use Rattle.pm_view.specs.Reading.{slot_at, is_aside};
ghost use Rattle.pm_view.specs.Effective.{effective};
ghost use Rattle.pm_view.specs.Candidates.{queue_of};
ghost use Rattle.pm_view.specs.Events.{select, apply, doom, start, move_anchor, move_on, sweep, free_doomed, nothing, next_row, after, ways_out};
ghost use Rattle.pm_law_commands.specs.Row.Examples.{at};
ghost use Rattle.pm_law_collect.specs.Traces.Traces.{Run, cycle, collected, changed, used_again, drained, begun, moved_on, second_pass};

/// Two objects that name each other, and that nothing else names: their train is selected, what was queued is applied,
/// the train is doomed, its objects are swept and its car goes. Nothing stands then, and no event comes.
pub fn a_cycle_goes()
    ensures events { Run cycle (select 1 ∷ apply 1 ∷ apply 1 ∷ apply 1 ∷ apply 1 ∷ doom 1
        ∷ sweep (at 1 0) ∷ sweep (at 1 1) ∷ free_doomed 1 1 ∷ []) collected }
    ensures end { next_row collected ≡ nothing }
{}

/// A car's number that is used again while the train of the car that had it is doomed: the new car is not set aside. An
/// object of the doomed train that still stores a place of that number is swept, and the new car is told that this
/// field names no slot of it. That changes nothing that its effective set has.
pub fn a_number_is_used_again()
    ensures kept { is_aside used_again 1 ≡ false }
    ensures swept { next_row used_again ≡ sweep (at 2 0) }
    ensures told { queue_of (after used_again 0 0 (sweep (at 2 0))) 1 ≡ changed (Field (at 2 0) 0) None ∷ [] }
    ensures before { effective used_again 1 (Field (at 2 0) 0) ≡ None }
    ensures none { effective (after used_again 0 0 (sweep (at 2 0))) 1 (Field (at 2 0) 0) ≡ None }
    ensures held { effective (after used_again 0 0 (sweep (at 2 0))) 1 (Handle 0 0) ≡ Some 0 }
    ensures gone { slot_at (after used_again 0 0 (sweep (at 2 0))).cars (at 2 0) ≡ None }
{}

/// Passes over a train that would free nothing: two objects of one train name each other, over two cars, and the one
/// name that leads to them moves to and fro. The object that it stands for is noted as the anchor, to go to the open
/// train. The other moves to the end of its own train, into a new car, since its last car is full. In the second pass
/// the anchor leaves its train, although the name has left it; without an anchor it would go to the end of the train.
pub fn an_anchor_ends_futile_passes()
    ensures noted { (bytes : List ℕ) → next_row (drained bytes) ≡ start 1 (at 2 0) }
    ensures way { (bytes : List ℕ) → ways_out (drained bytes) (at 2 0) ≡ 2 ∷ [] }
    ensures anchor { (bytes : List ℕ) → (begun bytes).anchor ≡ Some (at 2 0, 2) }
    ensures own { (bytes : List ℕ) → next_row (begun bytes) ≡ move_on (at 1 0) 1 }
    ensures new_car { (bytes : List ℕ) → length bytes ≡ 4096
        → cars_at (moved_on bytes).trains.trains 1 ≡ Some (1 ∷ 2 ∷ 3 ∷ []) }
    ensures moved { (bytes : List ℕ) → length bytes ≡ 4096
        → slot_at (moved_on bytes).cars (at 1 0) ≡ Some (Moved (at 3 0)) }
    ensures leaves { (bytes : List ℕ) → next_row (second_pass bytes (Some (at 2 0, 2))) ≡ move_anchor (at 2 0) 2 }
    ensures futile { (bytes : List ℕ) → next_row (second_pass bytes None) ≡ move_on (at 2 0) 1 }
{}
