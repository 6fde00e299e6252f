ghost use Rattle.std.specs.Prelude.{◌≡◌, ◌&&◌, ◌==◌, if◌then◌else◌, None};
ghost use Rattle.pm_remset.specs.Remembered.{first_that};
ghost use Rattle.pm_view.specs.declared.phase.Phase.TheVariants.{Moving};
ghost use Rattle.pm_view.specs.Candidates.{queue_of};
ghost use Rattle.pm_view.specs.Collecting.{applied_in};
ghost use Rattle.pm_view.specs.Reading.{slot_at};
ghost use Rattle.pm_view.specs.Events.{least, to_fix, went, has_gone};
ghost use Rattle.pm_space.specs.Shown.{view};
ghost use Rattle.pm_view.specs.Stale.{NamesOnly, IsSole};
ghost use Rattle.pm_law_collect.specs.Work.Names.{front_names_gone};
ghost use Rattle.pm_next.specs.Sought.{lesser, has_moved, is_moved};

use pm_cars::Look;
use pm_law_collect::work::only_the_slot_that_moved_last_is_named;
use pm_remset::Remset;
use pm_space::{Parts, Space};
use pm_types::{Addr, RefSource, Slot};
use std::cmp::Ordering;

/// A source that a car remembers, with the slot of the car that it names.
pub type Entry = (RefSource, u32);

// The lesser one of two entries.
fn lesser(one: Option<Entry>, other: Option<Entry>) -> Option<Entry>
    ensures { result ≡ lesser one other }
{
    let Some(first) = one else {
        return other;
    };
    let Some(second) = other else {
        return one;
    };
    match second.0.cmp(&first.0) {
        Ordering::Less => other,
        Ordering::Equal => one,
        Ordering::Greater => one,
    }
}

// The least source that names a slot, with it, where the slot is Moved.
fn least_of_moved(set: &Remset, slot: u32, content: &Slot) -> Option<Entry>
    ensures { result ≡ first_that (λ _ at. (at == slot) && has_moved content.now) set.now }
{
    match content {
        Slot::Moved(_) => match set.least_of(slot) {
            Some(source) => Some((source, slot)),
            None => None,
        },
        Slot::Live(_) => None,
    }
}

// The least source that names a slot that is Moved among these, with that slot.
fn least_moved(set: &Remset, slots: &[(u32, Slot)]) -> Option<Entry>
    ensures { result ≡ first_that (λ _ slot. is_moved slots.now slot) set.now }
{
    let mut least = None;
    for entry in slots {
        least = lesser(least, least_of_moved(set, entry.0, &entry.1));
    }
    least
}

/// The least source that a car remembers and that names a Moved slot, with the address to which the object went. It
/// looks at each slot of the car once, and at no source but the least of each Moved slot.
pub fn stale<F>(parts: &Parts<F>, car: u64) -> Option<(RefSource, Addr)>
    ensures { result ≡ to_fix (view parts.now) car }
{
    let Some(links) = parts.links.get(car) else {
        return None;
    };
    let Some(held) = parts.cars.get(car) else {
        return None;
    };
    let Some(found) = least_moved(&links.set, held.car.slots()) else {
        return None;
    };
    match held.car.look(found.1) {
        Look::Moved(to) => Some((found.0, to)),
        Look::Live => None,
        Look::Gone => None,
    }
}

// The same of the car that is emptied, where its stale sources name this slot only: no other slot is looked at.
fn stale_in_slot<F>(parts: &Parts<F>, car: u64, slot: u32) -> Option<(RefSource, Addr)>
    requires phase { (view parts.now).phase ≡ Moving car }
    requires sole { NamesOnly (view parts.now) slot }
    ensures { result ≡ to_fix (view parts.now) car }
{
    let Some(links) = parts.links.get(car) else {
        return None;
    };
    let Some(held) = parts.cars.get(car) else {
        return None;
    };
    match held.car.look(slot) {
        Look::Moved(to) => match links.set.least_of(slot) {
            Some(source) => Some((source, to)),
            None => None,
        },
        Look::Live => None,
        Look::Gone => None,
    }
}

/// The least source that the car which is emptied remembers and that names a Moved slot, with the address to which the
/// object went. Where the one slot that such a source can name is given it looks at no other slot, and else at each.
pub fn stale_at<F>(parts: &Parts<F>, car: u64, moved: Option<u32>) -> Option<(RefSource, Addr)>
    requires phase { (view parts.now).phase ≡ Moving car }
    requires sole { IsSole (view parts.now) moved }
    ensures { result ≡ to_fix (view parts.now) car }
{
    match moved {
        Some(slot) => stale_in_slot(parts, car, slot),
        None => stale(parts, car),
    }
}

/// The same with the slot that the space keeps.
pub fn stale_now<F: Drop>(space: &Space<F>, car: u64) -> Option<(RefSource, Addr)>
    requires { (view space.now.parts).phase ≡ Moving car }
    ensures { result ≡ to_fix (view space.now.parts) car }
{
    stale_at(&space.parts, car, space.moved)
}

// Whether the object of a slot moved away.
fn has_gone<F>(parts: &Parts<F>, at: Addr) -> bool
    ensures { result ≡ has_gone (went (slot_at (view parts.now).cars at)) }
{
    let Some(held) = parts.cars.get(at.car) else {
        return false;
    };
    match held.car.look(at.slot) {
        Look::Moved(_) => true,
        Look::Live => false,
        Look::Gone => false,
    }
}

// Whether the front change of a car's queue names a slot of the car whose object moved away.
fn front_names_gone<F>(parts: &Parts<F>, car: u64) -> bool
    ensures { result ≡ front_names_gone (view parts.now) car (queue_of (view parts.now) car) }
{
    let Some(links) = parts.links.get(car) else {
        return false;
    };
    let Some(change) = links.queue.front() else {
        return false;
    };
    match change.slot {
        Some(slot) => has_gone(parts, Addr { car, slot }),
        None => false,
    }
}

/// The one slot that stale sources can name, also once the front change of the car's queue is applied: the one that the
/// space keeps, and `None` where the change names a slot whose object moved away.
pub fn moved_once_applied<F: Drop>(space: &Space<F>, car: u64) -> Option<u32>
    ensures slot { result ≡ (if front_names_gone (view space.now.parts) car
        (queue_of (view space.now.parts) car) then None else space.now.moved) }
    ensures kept { IsSole (view space.now.parts) result }
    ensures applied { IsSole (applied_in (view space.now.parts) car) result }
{
    only_the_slot_that_moved_last_is_named();
    if front_names_gone(&space.parts, car) {
        None
    } else {
        space.moved
    }
}

/// The least source that a car remembers, with the slot that it names.
pub fn least<F>(parts: &Parts<F>, car: u64) -> Option<Entry>
    ensures { result ≡ least (view parts.now) car }
{
    match parts.links.get(car) {
        Some(links) => links.set.at_or_after(RefSource::Root(0)),
        None => None,
    }
}
