//! What a sweep ends. The function's contract is the law, and the function does nothing.

ghost use Rattle.std.specs.Prelude.{◌≡◌, ℕ, true, cond, None, IsSome};
ghost use Rattle.pm_types.specs.declared.address.Addr.{Addr};
ghost use Rattle.pm_view.specs.Sources.{same_address};
ghost use Rattle.pm_view.specs.View.{SpaceView};
ghost use Rattle.pm_view.specs.Reading.{slot_at, object_at, is_aside};
ghost use Rattle.pm_view.specs.Law.{HeapLaw};
ghost use Rattle.pm_view.specs.Events.{sweep, free, free_doomed, next_row, after};

/// A law of sweeping: one sweep ends one object, which is there, in a car that is set aside: its slot is Gone then, and
/// every other place holds what it held. A car goes only where it has no object.
pub fn a_sweep_ends_one_object()
    ensures there { (view : SpaceView) (a : Addr) → next_row view ≡ sweep a → IsSome (object_at view.cars a) }
    ensures aside { (view : SpaceView) (a : Addr) → next_row view ≡ sweep a → is_aside view a.car ≡ true }
    ensures slots { (view : SpaceView) (picked number : ℕ) (a b : Addr) → HeapLaw view → next_row view ≡ sweep a
        → slot_at (after view picked number (sweep a)).cars b ≡ cond (same_address a b) None (slot_at view.cars b) }
    ensures freed { (view : SpaceView) (car slot : ℕ) → next_row view ≡ free car
        → object_at view.cars (record { car = car; slot = slot }) ≡ None }
    ensures freed_doomed { (view : SpaceView) (train car slot : ℕ) → next_row view ≡ free_doomed train car
        → object_at view.cars (record { car = car; slot = slot }) ≡ None }
{}
