//! Cars by their numbers.
ghost use Rattle.std.specs.Prelude.{◌≡◌, ℕ, ◌==◌, Some, None, IfOk, OnOk, if◌then◌else◌};
ghost use Rattle.std.specs.Ordering.{nat_cmp};
ghost use Rattle.std.specs.BTreeMap as tree;
ghost use Rattle.pm_save.specs.Writer.Planned.{IsIndex, first_of};

use pm_image::KeptPage;
use pm_types::NoMemory;
use std::alloc::Global;
use std::collections::BTreeMap;

/// The number has this place, unless it has one.
fn note(index: &mut BTreeMap<u64, usize>, number: u64, place: usize) -> Result<(), NoMemory>
    ensures { OnOk result ((other : ℕ) → tree.get nat_cmp index.new other
        ≡ first_of (tree.get nat_cmp index.old other) (if number == other then Some place else None)) }
{
    if !index.contains_key(&number) {
        index.insert(number, place)?;
    }
    Ok(())
}

/// The place of the first car of each number.
pub(crate) fn index_of(alloc: Global, cars: &[KeptPage]) -> Result<BTreeMap<u64, usize>, NoMemory>
    ensures { IfOk result (IsIndex cars.now) }
{
    let mut index = BTreeMap::new(alloc);
    for place in 0..cars.len() {
        note(&mut index, cars[place].image.number, place)?;
    }
    Ok(index)
}
