ghost use Rattle.std.specs.Prelude.{◌≡◌, ◌+◌, ◌<◌, ◌≤◌, ◌^◌, true, length, Some, IsSome, IfSome, IfNone, IfOk, vec_capacity, option_copied};
ghost use Rattle.pm_types.specs.declared.object.Slot.TheVariants.{Live};
ghost use Rattle.pm_cars.specs.Cars.{object_of};
ghost use Rattle.pm_cars.specs.Entries.{numbers, content_at, with_content, without, holds_object, first_place, IsAscending, IsAt, HasNone};

use crate::row::Row;
use pm_types::{NoMemory, Object, Slot};
use std::alloc::Global;

/// A slot, and what it holds. A slot that is Gone has no entry.
pub(crate) type Entry = (u32, Slot);

fn is_live(content: &Slot) -> bool
    ensures { result ≡ holds_object content.now }
{
    matches!(content, Slot::Live(_))
}

/// Whether the slot's entry is at this place.
pub(crate) fn is_at(entries: &[Entry], slot: u32, place: usize) -> bool
    ensures { result ≡ true → IsAt entries.now slot place }
{
    match entries.get(place) {
        Some(entry) => entry.0 == slot,
        None => false,
    }
}

// The place of the slot's entry, by halving.
fn search(entries: &[Entry], slot: u32) -> Option<usize>
    requires { IsAscending (numbers entries.now) }
    ensures found { IfSome result (IsAt entries.now slot) }
    ensures absent { IfNone result (HasNone entries.now slot) }
{
    entries.binary_search_by_key(&slot, |entry| entry.0).ok()
}

// The place of the slot's entry. Where its number alone tells its place, that is looked at first.
fn place_of(entries: &Row, slot: u32) -> Option<usize>
    requires { IsAscending (numbers entries.now.items) }
    ensures found { IfSome result (IsAt entries.now.items slot) }
    ensures absent { IfNone result (HasNone entries.now.items slot) }
{
    if let Some(place) = entries.numbered_place(slot) {
        return Some(place);
    }
    search(entries.as_slice(), slot)
}

/// What the slot holds.
#[tactic(auto, using(crate::proofs::Listed::content_absent))]
pub(crate) fn content_of(entries: &Row, slot: u32) -> Option<&Slot>
    requires { IsAscending (numbers entries.now.items) }
    ensures { option_copied result ≡ content_at entries.now.items slot }
{
    let place = place_of(entries, slot)?;
    Some(entries.content(place))
}

// Lets the slot hold this, where it has an entry, and hands back what it held.
#[tactic(auto, using(crate::proofs::Listed::content_absent))]
fn replace(entries: &mut Row, slot: u32, content: Slot) -> Option<Slot>
    requires { IsAscending (numbers entries.old.items) }
    ensures held { result ≡ content_at entries.old.items slot }
    ensures items { entries.new.items ≡ with_content entries.old.items slot content }
    ensures capacity { entries.new.capacity ≡ entries.old.capacity }
{
    let place = place_of(entries, slot)?;
    Some(entries.replace(place, content))
}

/// Lets a Live slot hold this, and hands its object back.
pub(crate) fn exchange(entries: &mut Row, slot: u32, content: Slot) -> Object
    requires ascending { IsAscending (numbers entries.old.items) }
    requires live { IsSome (object_of (content_at entries.old.items slot)) }
    ensures object { content_at entries.old.items slot ≡ Some (Live result) }
    ensures items { entries.new.items ≡ with_content entries.old.items slot content }
    ensures capacity { entries.new.capacity ≡ entries.old.capacity }
{
    match replace(entries, slot, content) {
        Some(Slot::Live(object)) => object,
        _ => unreachable!(),
    }
}

/// Lets the slot, which has an entry, hold the object.
pub(crate) fn put_back(entries: &mut Row, slot: u32, object: Object)
    requires ascending { IsAscending (numbers entries.old.items) }
    ensures items { entries.new.items ≡ with_content entries.old.items slot (Live object) }
    ensures capacity { entries.new.capacity ≡ entries.old.capacity }
{
    replace(entries, slot, Slot::Live(object));
}

// Takes the slot's entry away, where it has one, and hands back what it held.
#[tactic(auto, using(crate::proofs::Listed::content_absent))]
fn take(entries: &mut Row, slot: u32) -> Option<Slot>
    requires { IsAscending (numbers entries.old.items) }
    ensures held { result ≡ content_at entries.old.items slot }
    ensures items { entries.new.items ≡ without entries.old.items slot }
    ensures capacity { entries.old.capacity ≤ entries.new.capacity + 1 }
{
    let place = place_of(entries, slot)?;
    let entry = entries.remove(place);
    Some(entry.1)
}

/// Lets a Live slot be Gone, and hands its object back.
pub(crate) fn take_object(entries: &mut Row, slot: u32) -> Object
    requires ascending { IsAscending (numbers entries.old.items) }
    requires live { IsSome (object_of (content_at entries.old.items slot)) }
    ensures object { content_at entries.old.items slot ≡ Some (Live result) }
    ensures items { entries.new.items ≡ without entries.old.items slot }
    ensures capacity { entries.old.capacity ≤ entries.new.capacity + 1 }
{
    match take(entries, slot) {
        Some(Slot::Live(object)) => object,
        _ => unreachable!(),
    }
}

/// The place of the first Live entry, or the number of entries. None before `from` is Live.
pub(crate) fn first_live(entries: &[Entry], from: usize) -> usize
    requires { from ≤ first_place entries.now }
    ensures { result ≡ first_place entries.now }
{
    let mut place = from;
    while place < entries.len() && !is_live(&entries[place].1) {
        place += 1;
    }
    place
}

/// The same entries again, with space for so many more.
pub(crate) fn copy_all(
    alloc: Global,
    entries: &[Entry],
    spare: usize,
) -> Result<Vec<Entry>, NoMemory>
    requires { length entries.now + spare < 2 ^ 64 }
    ensures items { IfOk result (λ copied. copied.items ≡ entries.now) }
    ensures space { IfOk result (λ copied. length entries.now + spare ≤ vec_capacity copied) }
{
    let mut copied = Vec::with_capacity(alloc, entries.len() + spare)?;
    for (slot, content) in entries {
        copied.push_reserved((*slot, content.copy(alloc)?));
    }
    Ok(copied)
}
