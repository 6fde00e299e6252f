//! What wrong events would break, as examples. Each function's contract is the examples, and the
//! function does nothing.

ghost use Rattle.std.specs.Prelude.{◌≡◌};
ghost use Rattle.pm_types.specs.declared.source.RefSource.TheVariants.{Handle};
ghost use Rattle.pm_model.specs.World.{World};
ghost use Rattle.pm_view.specs.Law.{HeapLaw};
ghost use Rattle.pm_view.specs.Represents.{Represents};
ghost use Rattle.pm_view.specs.Collecting.{finished, fixed};
ghost use Rattle.pm_view.specs.Events.{apply, move_anchor, move_out, next_row, after};
ghost use Rattle.pm_law_commands.specs.Row.Examples.{at};
ghost use Rattle.pm_law_collect.specs.Traces.Wrong.{unheard, anchored, newer, misled};

/// What would go wrong with events that come too early: a car that is swept while a change is queued for it may still
/// be named; a source that is fixed while a change is queued may store a newer value, which would be written over; an
/// anchor whose object moves by another event stays behind, and names no object.
pub fn events_that_come_too_early_break_the_law()
    ensures queued { next_row unheard ≡ apply 1 }
    ensures swept { HeapLaw (finished unheard 1) → ⊥ }
    ensures newer { next_row newer ≡ apply 1 }
    ensures written_over { (world : World) → Represents newer world
        → Represents (fixed newer 1 (Handle 0 0) (at 2 0)) world → ⊥ }
    ensures anchor { next_row anchored ≡ move_anchor (at 1 0) 2 }
    ensures left_behind { HeapLaw (after anchored 2 2 (move_out (at 1 0))) → ⊥ }
{}

/// What would go wrong with a withdrawal that tells a new car of an old number that the field names a slot: the car
/// would remember a source that stores nothing.
pub fn a_withdrawal_that_names_a_slot_breaks_the_law()
    ensures { HeapLaw misled → ⊥ }
{}
