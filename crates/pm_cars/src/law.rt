ghost use Rattle.std.specs.Prelude.{◌≡◌, ◌+◌, ℕ};
ghost use Rattle.std.specs.FinMap.{len};
ghost use Rattle.pm_types.specs.declared.object.Slot.{Slot};
ghost use Rattle.pm_cars.specs.Cars.{Car, live_count, moved_count};
ghost use Rattle.pm_cars.specs.Sums.{CountsPlaced, CountsTold, CountsDropped};

/// A law of what is summed over the slots of a car, as their room is, or how many are Live or Moved: an
/// object that is placed adds what its slot counts for; a Live slot that is told something else counts
/// for that, and one that is dropped for nothing. Every slot that is listed is Live or Moved.
pub fn slots_are_counted()
    ensures placed { (f : Slot → ℕ) → CountsPlaced f }
    ensures told { (f : Slot → ℕ) → CountsTold f }
    ensures dropped { (f : Slot → ℕ) → CountsDropped f }
    ensures all { (car : Car) → live_count car + moved_count car ≡ len car.slots }
{}
