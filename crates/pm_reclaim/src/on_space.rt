ghost use Rattle.std.specs.Prelude.{◌≡◌, Ok};
ghost use Rattle.pm_types.specs.declared.event.Step.{Step};
ghost use Rattle.pm_place.specs.Choosers.{IsChooser};
ghost use Rattle.pm_view.specs.View.{SpaceView};
ghost use Rattle.pm_view.specs.Law.{HeapLaw};
ghost use Rattle.pm_view.specs.Stale.{IsSole};
ghost use Rattle.pm_view.specs.Events.{next_row};
ghost use Rattle.pm_space.specs.Shown.{view};
ghost use Rattle.pm_space.specs.Quiet.{IsQuiet};
ghost use Rattle.pm_view.specs.Bounded.{KeepsRank, KeepsSunk};
ghost use Rattle.pm_next.specs.Seen.{seen_row};
ghost use Rattle.pm_evac.specs.Steps.{IsEvent, IsApply, IsFix, IsMove, IsFinish, IsSweep, IsFree, IsPicking, HoldOnceMade, KeepsWorlds, MovesOneAtMost, LowersWork, AnswersByPhase, MovesOn, MakesEvent};

use pm_evac::{
    Row, apply_at, finish_at, fix_at, free_at, free_doomed_at, make, moved_once_applied, next_row,
};
use pm_law_bound::rank::an_event_keeps_the_rank;
use pm_law_bound::sunk::an_event_keeps_sunk_sets;
use pm_law_collect::work::{an_event_lowers_the_work_left, only_the_slot_that_moved_last_is_named};
use pm_law_collect::{an_event_keeps_the_law_and_the_worlds, an_event_moves_one_object_at_most};
use pm_law_course::one_event_completes_a_collection;
use pm_space::Space;
use pm_types::{NoMemory, Step};
use std::alloc::Global;

/// A law of events that were made: the heap law is kept, and each world for which the space stood; the place of one
/// object at most is another; less work is left of a collection that is not completed; what fits stays, and the rank
/// has not risen; and sunk sets stay so. It answers `Nothing` exactly in Idle where no car stands, `Selected` exactly
/// in Idle where one does, and each other event that completes nothing leaves at least one less work. The function does
/// nothing.
pub fn an_event_that_was_made_keeps_all()
    ensures law { (old new : SpaceView) (step : Step) → HeapLaw old → IsEvent old new step → HeapLaw new }
    ensures worlds { (old new : SpaceView) (step : Step) → HeapLaw old → IsEvent old new step
        → KeepsWorlds old new }
    ensures places { (old new : SpaceView) (step : Step) → HeapLaw old → (event : IsEvent old new step)
        → MovesOneAtMost old new event.picked }
    ensures work { (old new : SpaceView) (step : Step) → HeapLaw old → IsEvent old new step → LowersWork old new }
    ensures rank { (old new : SpaceView) (step : Step) → HeapLaw old → IsEvent old new step → KeepsRank old new }
    ensures sunk { (old new : SpaceView) (step : Step) → HeapLaw old → IsEvent old new step → KeepsSunk old new }
    ensures phase { (old new : SpaceView) (step : Step) → HeapLaw old → IsEvent old new step
        → AnswersByPhase old step }
    ensures progress { (old new : SpaceView) (step : Step) → HeapLaw old → IsEvent old new step
        → MovesOn old new step }
{
    an_event_keeps_the_law_and_the_worlds();
    an_event_moves_one_object_at_most();
    an_event_lowers_the_work_left();
    one_event_completes_a_collection();
    an_event_keeps_the_rank();
    an_event_keeps_sunk_sets();
}

// So many cars at the front of the train that is drained have no change waiting, now and once this row was made, which
// comes next: as many as are known where it applies a change or nothing comes, and else 0.
fn quiet_once_made<F: Drop>(space: &Space<F>, row: Row) -> usize
    requires { next_row (view space.now.parts) ≡ seen_row row }
    ensures kept { IsQuiet (view space.now.parts) result }
    ensures made { (new : SpaceView) (step : Step) → IsEvent (view space.now.parts) new step → IsQuiet new result }
{
    match row {
        Row::Nothing | Row::Apply { .. } => space.quiet,
        _ => 0,
    }
}

// The one slot that stale sources can name, now and once this row was made, which comes next. Where an object moves it
// is the slot that it leaves, since no source is stale now. Where a source is fixed or nothing comes it stays, and
// where a change is applied too, if the change names no Moved slot. Else none is told.
fn moved_once_made<F: Drop>(space: &Space<F>, row: Row) -> Option<u32>
    requires { next_row (view space.now.parts) ≡ seen_row row }
    ensures kept { IsSole (view space.now.parts) result }
    ensures made { (new : SpaceView) (step : Step) → IsEvent (view space.now.parts) new step → IsSole new result }
{
    only_the_slot_that_moved_last_is_named();
    match row {
        Row::Apply { car } => moved_once_applied(space, car),
        Row::MoveAnchor { at, .. } => Some(at.slot),
        Row::MoveOut { at } => Some(at.slot),
        Row::MoveOn { at, .. } => Some(at.slot),
        Row::Nothing | Row::Fix { .. } => space.moved,
        _ => None,
    }
}

// Finds the row that comes next, and sets the two places that the space keeps, of quiet cars and of the slot that
// moved, so that they hold also once the row was made.
fn prepared_row<F: Drop>(space: &mut Space<F>) -> Row
    ensures row { next_row (view space.new.parts) ≡ seen_row result }
    ensures parts { space.new.parts ≡ space.old.parts }
    ensures kept { HoldOnceMade (view space.new.parts) space.new.quiet space.new.moved }
{
    let row = next_row(space);
    let quiet = quiet_once_made(space, row);
    let moved = moved_once_made(space, row);
    space.quiet = quiet;
    space.moved = moved;
    row
}

/// Makes the event that comes next, whichever it is, and answers what it did. Where it picks a train the chooser picks
/// it. After want of memory all is as it was.
pub fn make_next<F: Fn(&[u64]) -> usize + Drop>(
    space: &mut Space<F>,
    alloc: Global,
) -> Result<Step, NoMemory>
    requires { IsPicking (next_row (view space.old.parts)) → IsChooser F.Fn space.old.parts.place }
    ensures { MakesEvent F.Fn space.old.parts space.new.parts result }
{
    an_event_that_was_made_keeps_all();
    let row = prepared_row(space);
    make(&mut space.parts, alloc, row)
}

/// Makes the next event where it applies a change: while a train is drained that of the first of its cars that has a
/// queued change, and while a car is emptied that car's own. After want of memory all is as it was.
pub fn apply_one<F: Fn(&[u64]) -> usize + Drop>(space: &mut Space<F>) -> Result<Step, NoMemory>
    requires { IsApply (next_row (view space.old.parts)) }
    ensures { MakesEvent F.Fn space.old.parts space.new.parts result }
{
    an_event_that_was_made_keeps_all();
    let Row::Apply { car } = prepared_row(space) else {
        // The caller shows that a change is applied next.
        unreachable!()
    };
    apply_at(&mut space.parts, car)
}

/// Makes the next event where it fixes a source: the least source that the car which is emptied remembers and that
/// names a Moved slot stores the address to which the object went. After want of memory all is as it was.
pub fn fix_one<F: Fn(&[u64]) -> usize + Drop>(space: &mut Space<F>) -> Result<Step, NoMemory>
    requires { IsFix (next_row (view space.old.parts)) }
    ensures { MakesEvent F.Fn space.old.parts space.new.parts result }
{
    an_event_that_was_made_keeps_all();
    let Row::Fix { car, source, to } = prepared_row(space) else {
        // The caller shows that a source is fixed next.
        unreachable!()
    };
    fix_at(&mut space.parts, car, source, to)
}

/// Makes the next event where it moves an object out of the car that is emptied: the anchor to its train, or else the
/// object of the least source outside the train to a train that the chooser picks, or else that of the least source to
/// the end of its own train. It goes to the train's last car where it fits, and else to a new car at the train's end;
/// its slot says where it went, and the cars hear of its fields. After want of memory all is as it was.
pub fn move_one<F: Fn(&[u64]) -> usize + Drop>(
    space: &mut Space<F>,
    alloc: Global,
) -> Result<Step, NoMemory>
    requires chooser { IsChooser F.Fn space.old.parts.place }
    requires row { IsMove (next_row (view space.old.parts)) }
    ensures { MakesEvent F.Fn space.old.parts space.new.parts result }
{
    make_next(space, alloc)
}

/// Makes the next event where it sweeps an object: the lowest Live slot of the car that is swept, or of the first car
/// of a doomed train, is Gone. After want of memory all is as it was.
pub fn sweep_one<F: Fn(&[u64]) -> usize + Drop>(
    space: &mut Space<F>,
    alloc: Global,
) -> Result<Step, NoMemory>
    requires { IsSweep (next_row (view space.old.parts)) }
    ensures { MakesEvent F.Fn space.old.parts space.new.parts result }
{
    make_next(space, alloc)
}

/// Makes the next event where it frees a car that has no object left: the one that was swept, with which the
/// collection is completed, or the first one of a doomed train, with which it is where no other is left. After want of
/// memory all is as it was.
pub fn free_car<F: Fn(&[u64]) -> usize + Drop>(space: &mut Space<F>) -> Result<Step, NoMemory>
    requires { IsFree (next_row (view space.old.parts)) }
    ensures { MakesEvent F.Fn space.old.parts space.new.parts result }
{
    an_event_that_was_made_keeps_all();
    match prepared_row(space) {
        Row::Free { car } => free_at(&mut space.parts, car),
        Row::FreeDoomed { train, car } => free_doomed_at(&mut space.parts, train, car),
        // The caller shows that a car is freed next.
        _ => unreachable!(),
    }
}

/// Makes the next event where the car that is emptied is swept from now on. It takes no memory.
pub fn finish_car<F: Fn(&[u64]) -> usize + Drop>(space: &mut Space<F>) -> Step
    requires { IsFinish (next_row (view space.old.parts)) }
    ensures { MakesEvent F.Fn space.old.parts space.new.parts (Ok result) }
{
    an_event_that_was_made_keeps_all();
    let Row::Finish { car } = prepared_row(space) else {
        // The caller shows that a car is finished next.
        unreachable!()
    };
    finish_at(&mut space.parts, car)
}
