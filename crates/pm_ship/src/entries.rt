//! What the entries of a catalog list, as two lists.
ghost use Rattle.std.specs.Prelude.{◌≡◌, IfOk};
ghost use Rattle.pm_copies.specs.Accepted.{roots_in};
ghost use Rattle.pm_ship.specs.Listing.{trains_in};

use pm_image::{CatEntry, EntryList};
use pm_types::{Addr, Name, NoMemory};
use std::alloc::Global;

/// The trains of the cars that are listed, in order, and the roots, each a name with its address. Each entry is let go.
pub(crate) fn part_entries(
    alloc: Global,
    entries: EntryList,
) -> Result<(Vec<u64>, Vec<(Name, Addr)>), NoMemory>
    ensures trains { IfOk result (λ parted. parted.0.items ≡ trains_in entries) }
    ensures roots { IfOk result (λ parted. parted.1.items ≡ roots_in entries) }
{
    let mut trains = Vec::new(alloc);
    let mut roots = Vec::new(alloc);
    for entry in entries.into_vec() {
        match entry {
            CatEntry::Car { train, .. } => trains.push(train)?,
            CatEntry::Root { name, at } => roots.push((name, at))?,
        }
    }
    Ok((trains, roots))
}
