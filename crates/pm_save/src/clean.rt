//! Which cars are clean: those that are as the settled car of their number.

ghost use Rattle.std.specs.Prelude.{◌≡◌, ℕ, ◌==◌, Some, None, IfOk, OnOk, if◌then◌else◌};
ghost use Rattle.std.specs.Ordering.{nat_cmp};
ghost use Rattle.std.specs.FinMap.{entries};
ghost use Rattle.std.specs.BTreeMap as tree;
ghost use Rattle.pm_saving.specs.Beginning.{IsPlacedAs};
ghost use Rattle.pm_save.specs.Progress.Seen.{place_seen};
ghost use Rattle.pm_save.specs.Progress.Kept.{IsWithin};
ghost use Rattle.pm_save.specs.Writer.Planned.{IsIndex, first_of};

use crate::writer::Place;
use pm_cars::Car;
use pm_graphs::settled::PackedPage;
use pm_types::NoMemory;
use std::alloc::Global;
use std::collections::BTreeMap;

/// The number has this place, unless it has one.
fn note(index: &mut BTreeMap<u64, usize>, number: u64, place: usize) -> Result<(), NoMemory>
    ensures { OnOk result ((other : ℕ) → tree.get nat_cmp index.new other
        ≡ first_of (tree.get nat_cmp index.old other) (if number == other then Some place else None)) }
{
    if !index.contains_key(&number) {
        index.insert(number, place)?;
    }
    Ok(())
}

/// The place of the first settled car of each number.
pub(crate) fn index_of(
    alloc: Global,
    settled: &[PackedPage],
) -> Result<BTreeMap<u64, usize>, NoMemory>
    ensures { IfOk result (IsIndex settled.now) }
{
    let mut index = BTreeMap::new(alloc);
    for place in 0..settled.len() {
        note(&mut index, settled[place].car().number(), place)?;
    }
    Ok(index)
}

/// Where a car of this number begins: on the page of the settled car of its number, where it has the same slots, and
/// else on none.
pub(crate) fn place_of(
    settled: &[PackedPage],
    index: &BTreeMap<u64, usize>,
    number: u64,
    car: &Car,
) -> Place
    requires { IsIndex settled.now index.now }
    ensures placed { IsPlacedAs settled.now (record { number = number; slots = entries car.now.car.slots })
        (place_seen settled.now result) }
    ensures within { IsWithin settled.now result }
{
    match index.get(&number) {
        Some(place) => {
            if settled[*place].car().has_slots(car.slots()) {
                Place::Clean(*place)
            } else {
                Place::Unwritten
            }
        }
        None => Place::Unwritten,
    }
}
