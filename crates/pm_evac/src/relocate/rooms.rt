ghost use Rattle.std.specs.Prelude.{◌≡◌, ℕ, ◌+◌, ◌<◌, IfOk, OnOk};
ghost use Rattle.pm_space.specs.Linked.{sets_of, queues_of, HasRoom, times};
ghost use Rattle.pm_evac.specs.Relocate.Named.{named_by, naming};

use pm_space::{LinkTable, make_room_for_each};
use pm_types::{Addr, NoMemory};
use std::alloc::Global;

// So many fields that name a car are few: the car of each gets room for as many changes, and no list is made.
const FEW: u64 = 16;

// How many of these fields name a car.
fn count_naming(fields: &[Option<Addr>]) -> u64
    ensures { result ≡ naming fields.now }
{
    let mut many = 0;
    for field in fields {
        if field.is_some() {
            many += 1;
        }
    }
    many
}

// Makes room in the queue of each car that these fields name for so many changes. What waits stays, and so does all
// room that was made before, also after want of memory.
fn make_room_in_each(
    links: &mut LinkTable,
    fields: &[Option<Addr>],
    count: u64,
) -> Result<(), NoMemory>
    ensures sets { sets_of links.new ≡ sets_of links.old }
    ensures queues { queues_of links.new ≡ queues_of links.old }
    ensures room { OnOk result ((car : ℕ) → 0 < named_by fields.now car → HasRoom links.new car count) }
    ensures kept { (other more : ℕ) → HasRoom links.old other more → HasRoom links.new other more }
{
    for field in fields {
        if let Some(at) = field {
            links.reserve(at.car, count)?;
        }
    }
    Ok(())
}

// Makes room in the queues of the cars that these and those fields name for so many changes, where no more of the
// fields name a car. It takes no list.
fn make_room_for_few(
    links: &mut LinkTable,
    old: &[Option<Addr>],
    new: &[Option<Addr>],
    many: u64,
) -> Result<(), NoMemory>
    requires { naming old.now + naming new.now ≡ many }
    ensures sets { sets_of links.new ≡ sets_of links.old }
    ensures queues { queues_of links.new ≡ queues_of links.old }
    ensures room { OnOk result ((car : ℕ) → HasRoom links.new car (named_by old.now car + named_by new.now car)) }
{
    make_room_in_each(links, old, many)?;
    make_room_in_each(links, new, many)?;
    Ok(())
}

// Appends the cars that these fields name to a list, each as often as it is named.
fn add_named(cars: &mut Vec<u64>, fields: &[Option<Addr>]) -> Result<(), NoMemory>
    ensures { OnOk result ((car : ℕ) → times car cars.new.items
        ≡ times car cars.old.items + named_by fields.now car) }
{
    for field in fields {
        if let Some(at) = field {
            cars.push(at.car)?;
        }
    }
    Ok(())
}

// The cars that these and those fields name, each as often as it is named.
fn named_cars(
    alloc: Global,
    old: &[Option<Addr>],
    new: &[Option<Addr>],
) -> Result<Vec<u64>, NoMemory>
    ensures { IfOk result (λ cars. (car : ℕ) → times car cars.items
        ≡ named_by old.now car + named_by new.now car) }
{
    let mut cars = Vec::new(alloc);
    add_named(&mut cars, old)?;
    add_named(&mut cars, new)?;
    Ok(cars)
}

/// Makes room in the queues of the cars that these and those fields name, for as many changes as fields name a car. It
/// answers how many of all the fields name a car. What waits stays, also after want of memory.
pub(crate) fn make_room_for_named(
    links: &mut LinkTable,
    alloc: Global,
    old: &[Option<Addr>],
    new: &[Option<Addr>],
) -> Result<u64, NoMemory>
    ensures sets { sets_of links.new ≡ sets_of links.old }
    ensures queues { queues_of links.new ≡ queues_of links.old }
    ensures room { OnOk result ((car : ℕ) → HasRoom links.new car (named_by old.now car + named_by new.now car)) }
    ensures many { IfOk result (λ many. many ≡ naming old.now + naming new.now) }
{
    let many = count_naming(old) + count_naming(new);
    if many <= FEW {
        make_room_for_few(links, old, new, many)?;
        return Ok(many);
    }
    let cars = named_cars(alloc, old, new)?;
    make_room_for_each(links, alloc, &cars)?;
    Ok(many)
}
