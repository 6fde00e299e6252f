ghost use Rattle.std.specs.Prelude.{◌≡◌, ℕ, ◌+◌, ◌<◌, ◌^◌, ◌==◌, cond, IfOk, OnOk};
ghost use Rattle.pm_space.specs.Linked.{sets_of, queues_of, counted, HasRoom, HasRoomFor, times};

use crate::links::LinkTable;
use pm_types::{Addr, NoMemory};
use std::alloc::Global;
use std::collections::BTreeMap;

// Makes room for a change in the queue of the address's car.
fn make_room_for(links: &mut LinkTable, at: Option<Addr>) -> Result<(), NoMemory>
    ensures sets { sets_of links.new ≡ sets_of links.old }
    ensures queues { queues_of links.new ≡ queues_of links.old }
    ensures room { OnOk result (HasRoomFor links.new at) }
    ensures kept { (other more : ℕ) → HasRoom links.old other more → HasRoom links.new other more }
{
    match at {
        Some(at) => links.reserve(at.car, 1),
        None => Ok(()),
    }
}

/// Makes room for what is told where a source goes from the old address to the new one. What waits stays,
/// and so does all room that was made before, also after want of memory.
pub fn make_room(
    links: &mut LinkTable,
    old: Option<Addr>,
    new: Option<Addr>,
) -> Result<(), NoMemory>
    ensures sets { sets_of links.new ≡ sets_of links.old }
    ensures queues { queues_of links.new ≡ queues_of links.old }
    ensures old_room { OnOk result (HasRoomFor links.new old) }
    ensures new_room { OnOk result (HasRoomFor links.new new) }
    ensures kept { (other more : ℕ) → HasRoom links.old other more → HasRoom links.new other more }
{
    make_room_for(links, old)?;
    make_room_for(links, new)
}

/// Counts the car once more, and answers how often it was counted.
pub fn count_car(counts: &mut BTreeMap<u64, u64>, car: u64) -> Result<u64, NoMemory>
    requires { counted counts.old car + 1 < 2 ^ 64 }
    ensures count { IfOk result (λ count. count ≡ counted counts.new car) }
    ensures counts { OnOk result ((other : ℕ)
        → counted counts.new other ≡ counted counts.old other + cond (car == other) 1 0) }
{
    let count = match counts.get(&car) {
        Some(count) => *count + 1,
        None => 1,
    };
    counts.insert(car, count)?;
    Ok(count)
}

/// Makes room in the queues of these cars: for as many changes as a car stands in the list. What waits stays,
/// and so does all room that was made before, also after want of memory.
pub fn make_room_for_each(
    links: &mut LinkTable,
    alloc: Global,
    cars: &[u64],
) -> Result<(), NoMemory>
    ensures sets { sets_of links.new ≡ sets_of links.old }
    ensures queues { queues_of links.new ≡ queues_of links.old }
    ensures room { OnOk result ((car : ℕ) → HasRoom links.new car (times car cars.now)) }
    ensures kept { (other more : ℕ) → HasRoom links.old other more → HasRoom links.new other more }
{
    let mut counts = BTreeMap::new(alloc);
    for car in cars {
        let count = count_car(&mut counts, *car)?;
        links.reserve(*car, count)?;
    }
    Ok(())
}
