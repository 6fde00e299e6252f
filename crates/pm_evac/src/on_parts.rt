ghost use Rattle.std.specs.Prelude.{◌≡◌, OnErr};
ghost use Rattle.pm_place.specs.Choosers.{IsChooser};
ghost use Rattle.pm_view.specs.Law.{HeapLaw};
ghost use Rattle.pm_view.specs.Events.{nothing, apply, fix, move_anchor, move_out, move_on, finish, sweep, free, free_doomed, next_row};
ghost use Rattle.pm_space.specs.Shown.{view, KeepsRest, MakesRow};
ghost use Rattle.pm_next.specs.Seen.{seen_row};
ghost use Rattle.pm_evac.specs.Steps.{IsChosenEvent, IsPicking, TakesMemory};

use crate::first_rows::{doom_at, select_at, start_at};
use crate::relocate::{apply, finish, fix, free, relocate, sweep};
use pm_law_collect::there_is_a_train_to_pick;
use pm_next::Row;
use pm_next::ways::pick_way;
use pm_space::Parts;
use pm_types::{Addr, NoMemory, RefSource, Step};
use std::alloc::Global;

// No event comes, and nothing is done.
fn rest<F: Fn(&[u64]) -> usize + Drop>(parts: &Parts<F>) -> Step
    requires { next_row (view parts.now) ≡ nothing }
    ensures { IsChosenEvent F.Fn parts.now.place (view parts.now) (view parts.now) result }
{
    Step::Nothing
}

/// Makes the next event where it applies the front change of this car's queue. After want of memory all is as it was.
pub fn apply_at<F: Fn(&[u64]) -> usize + Drop>(
    parts: &mut Parts<F>,
    car: u64,
) -> Result<Step, NoMemory>
    requires { next_row (view parts.old) ≡ apply car }
    ensures row { MakesRow parts.old parts.new result
        (λ step. IsChosenEvent F.Fn parts.old.place (view parts.old) (view parts.new) step) }
{
    apply(parts, car)?;
    Ok(Step::Applied { car })
}

/// Makes the next event where this source, which this car remembers, stores the address to which the object went. After
/// want of memory all is as it was.
pub fn fix_at<F: Fn(&[u64]) -> usize + Drop>(
    parts: &mut Parts<F>,
    car: u64,
    source: RefSource,
    to: Addr,
) -> Result<Step, NoMemory>
    requires law { HeapLaw (view parts.old) }
    requires row { next_row (view parts.old) ≡ fix car source to }
    ensures row { MakesRow parts.old parts.new result
        (λ step. IsChosenEvent F.Fn parts.old.place (view parts.old) (view parts.new) step) }
{
    fix(parts, car, source, to)?;
    Ok(Step::Fixed { car })
}

// Makes the next event where the anchor moves to its train: none stands any more. After want of memory all is as it
// was.
fn move_anchor<F: Fn(&[u64]) -> usize + Drop>(
    parts: &mut Parts<F>,
    alloc: Global,
    at: Addr,
    train: u64,
) -> Result<Step, NoMemory>
    requires law { HeapLaw (view parts.old) }
    requires row { next_row (view parts.old) ≡ move_anchor at train }
    ensures row { MakesRow parts.old parts.new result
        (λ step. IsChosenEvent F.Fn parts.old.place (view parts.old) (view parts.new) step) }
{
    // For the proof alone: the number that a new car would get is one that no car has.
    let _number = parts.cars.vacant();
    let id = relocate(parts, alloc, at, train)?;
    parts.guard.clear();
    Ok(Step::Moved { id, train })
}

// Makes the next event where the object at an address, which a source outside its train names, moves to a train that
// the chooser picks. After want of memory all is as it was.
fn move_out<F: Fn(&[u64]) -> usize + Drop>(
    parts: &mut Parts<F>,
    alloc: Global,
    at: Addr,
) -> Result<Step, NoMemory>
    requires chooser { IsChooser F.Fn parts.old.place }
    requires law { HeapLaw (view parts.old) }
    requires row { next_row (view parts.old) ≡ move_out at }
    ensures row { MakesRow parts.old parts.new result
        (λ step. IsChosenEvent F.Fn parts.old.place (view parts.old) (view parts.new) step) }
{
    there_is_a_train_to_pick();
    // For the proof alone: the number that a new car would get is one that no car has.
    let _number = parts.cars.vacant();
    let train = pick_way(parts, alloc, at)?;
    let id = relocate(parts, alloc, at, train)?;
    Ok(Step::Moved { id, train })
}

// Makes the next event where the object at an address moves to the end of its own train. After want of memory all is as
// it was.
fn move_on<F: Fn(&[u64]) -> usize + Drop>(
    parts: &mut Parts<F>,
    alloc: Global,
    at: Addr,
    train: u64,
) -> Result<Step, NoMemory>
    requires law { HeapLaw (view parts.old) }
    requires row { next_row (view parts.old) ≡ move_on at train }
    ensures row { MakesRow parts.old parts.new result
        (λ step. IsChosenEvent F.Fn parts.old.place (view parts.old) (view parts.new) step) }
{
    // For the proof alone: the number that a new car would get is one that no car has.
    let _number = parts.cars.vacant();
    let id = relocate(parts, alloc, at, train)?;
    Ok(Step::Moved { id, train })
}

/// Makes the next event where this car is swept from now on. It takes no memory.
pub fn finish_at<F: Fn(&[u64]) -> usize + Drop>(parts: &mut Parts<F>, car: u64) -> Step
    requires { next_row (view parts.old) ≡ finish car }
    ensures event { IsChosenEvent F.Fn parts.old.place (view parts.old) (view parts.new) result }
    ensures rest { KeepsRest parts.old parts.new }
{
    finish(parts, car);
    Step::Finished { car }
}

// Makes the next event where the object at an address is swept: its slot is Gone. After want of memory all is as it
// was.
fn sweep_at<F: Fn(&[u64]) -> usize + Drop>(
    parts: &mut Parts<F>,
    alloc: Global,
    at: Addr,
) -> Result<Step, NoMemory>
    requires law { HeapLaw (view parts.old) }
    requires row { next_row (view parts.old) ≡ sweep at }
    ensures row { MakesRow parts.old parts.new result
        (λ step. IsChosenEvent F.Fn parts.old.place (view parts.old) (view parts.new) step) }
{
    let id = sweep(parts, alloc, at)?;
    Ok(Step::Swept { id })
}

/// Makes the next event where this car goes, which was swept: with it the collection is completed. After want of memory
/// all is as it was.
pub fn free_at<F: Fn(&[u64]) -> usize + Drop>(
    parts: &mut Parts<F>,
    car: u64,
) -> Result<Step, NoMemory>
    requires law { HeapLaw (view parts.old) }
    requires row { next_row (view parts.old) ≡ free car }
    ensures row { MakesRow parts.old parts.new result
        (λ step. IsChosenEvent F.Fn parts.old.place (view parts.old) (view parts.new) step) }
{
    let train = parts.trains.train_of(car);
    free(parts, train, car, true)?;
    let completed = true;
    Ok(Step::Freed { car, completed })
}

/// Makes the next event where this car of a doomed train goes: with the train's last car the collection is completed.
/// After want of memory all is as it was.
pub fn free_doomed_at<F: Fn(&[u64]) -> usize + Drop>(
    parts: &mut Parts<F>,
    train: u64,
    car: u64,
) -> Result<Step, NoMemory>
    requires law { HeapLaw (view parts.old) }
    requires row { next_row (view parts.old) ≡ free_doomed train car }
    ensures row { MakesRow parts.old parts.new result
        (λ step. IsChosenEvent F.Fn parts.old.place (view parts.old) (view parts.new) step) }
{
    let completed = parts.trains.cars(train).len() == 1;
    free(parts, train, car, completed)?;
    Ok(Step::Freed { car, completed })
}

/// Makes the event that comes next, which is this row, on parts that keep the heap law. Where it picks a train the
/// chooser picks it. Want of memory is answered only of an event that may take memory; after it all is as it was.
pub fn make<F: Fn(&[u64]) -> usize + Drop>(
    parts: &mut Parts<F>,
    alloc: Global,
    row: Row,
) -> Result<Step, NoMemory>
    requires chooser { IsPicking (next_row (view parts.old)) → IsChooser F.Fn parts.old.place }
    requires law { HeapLaw (view parts.old) }
    requires row { next_row (view parts.old) ≡ seen_row row }
    ensures row { MakesRow parts.old parts.new result
        (λ step. IsChosenEvent F.Fn parts.old.place (view parts.old) (view parts.new) step) }
    ensures short { OnErr result (TakesMemory (next_row (view parts.old))) }
{
    match row {
        Row::Nothing => Ok(rest(parts)),
        Row::Select { train } => select_at(parts, alloc, train),
        Row::Apply { car } => apply_at(parts, car),
        Row::Doom { train } => Ok(doom_at(parts, train)),
        Row::Start { car, at } => start_at(parts, alloc, car, at),
        Row::Fix { car, source, to } => fix_at(parts, car, source, to),
        Row::MoveAnchor { at, train } => move_anchor(parts, alloc, at, train),
        Row::MoveOut { at } => move_out(parts, alloc, at),
        Row::MoveOn { at, train } => move_on(parts, alloc, at, train),
        Row::Finish { car } => Ok(finish_at(parts, car)),
        Row::Sweep { at } => sweep_at(parts, alloc, at),
        Row::Free { car } => free_at(parts, car),
        Row::FreeDoomed { train, car } => free_doomed_at(parts, train, car),
    }
}
