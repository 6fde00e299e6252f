ghost use Rattle.std.specs.Prelude.{◌≡◌, ◌<◌, ◌++◌, ◌∷◌, [], length, slice_get, true, false, Some, None, IfSome, IfNone, IfOk, OnOk};
ghost use Rattle.std.specs.FinMap as map;
ghost use Rattle.pm_view.specs.Reading.{resolve};
ghost use Rattle.pm_copies.specs.Listed.{copy_in};
ghost use Rattle.pm_space.specs.Shown.{view};
ghost use Rattle.pm_walk.specs.declared.walk.Found.{Found};
ghost use Rattle.pm_walk.specs.Walked.{met_in, IsKept, LeadsTo, IsFieldAt, IsMet, IsSoundWalk, Grows, AreFoundBy, IsBegun, IsDoneAt, IsWholeWalk, IsPlaceOf, IsBroadWalk};

use pm_law_copies::walks::a_copy_is_walked_by_addresses;
use pm_space::{Space, object_at, resolve};
use pm_types::{Addr, Id, NoMemory};
use std::alloc::Global;
use std::collections::BTreeMap;

/// An object that a walk found, and what led to it.
#[derive(Clone, Copy, Debug)]
pub struct Found {
    /// Its identity.
    pub id: Id,
    /// Where it lies.
    pub at: Addr,
    /// The place in the walk of the object that holds it; `None` where a name stands for it.
    pub from: Option<usize>,
    /// The index of the field that holds it, or the place of the name among the names in ascending order.
    pub index: u32,
}

/// The objects that were found so far, each once and each behind what led to it, and the address of each by its
/// identity.
#[derive(Drop)]
pub struct Walk {
    pub found: Vec<Found>,
    pub met: BTreeMap<Id, Addr>,
}

// Nothing was found.
fn new_walk(alloc: Global) -> Walk
    ensures found { result.found.items ≡ [] }
    ensures met { met_in result ≡ map.empty }
{
    Walk {
        found: Vec::new(alloc),
        met: BTreeMap::new(alloc),
    }
}

// Puts one more behind those that were found.
fn add(walk: &mut Walk, found: Found) -> Result<(), NoMemory>
    ensures found { OnOk result (walk.new.found.items ≡ walk.old.found.items ++ found ∷ []) }
    ensures met { OnOk result (met_in walk.new ≡ map.insert (met_in walk.old) found.id found.at) }
{
    walk.found.push(found)?;
    walk.met.insert(found.id, found.at)?;
    Ok(())
}

// Finds the object to which an address leads, where it was not met.
fn meet<F>(
    walk: &mut Walk,
    space: &Space<F>,
    to: Addr,
    from: Option<usize>,
    index: u32,
) -> Result<(), NoMemory>
    requires sound { IsSoundWalk (view space.now.parts) walk.old }
    requires kept { IsKept (view space.now.parts) (resolve (view space.now.parts) to) }
    requires led { LeadsTo (view space.now.parts) walk.old.found.items (length walk.old.found.items) from index
        (resolve (view space.now.parts) to) }
    ensures sound { OnOk result (IsSoundWalk (view space.now.parts) walk.new) }
    ensures grows { OnOk result (Grows walk.old walk.new) }
    ensures met { OnOk result (IsMet (view space.now.parts) walk.new to) }
    ensures by { OnOk result (AreFoundBy walk.old.found.items walk.new.found.items from) }
{
    let at = resolve(&space.parts.cars, to);
    let Some(object) = object_at(&space.parts.cars, at) else {
        return Ok(());
    };
    let id = object.id;
    if walk.met.contains_key(&id) {
        return Ok(());
    }
    add(
        walk,
        Found {
            id,
            at,
            from,
            index,
        },
    )
}

/// The walk that has found what the names of the space stand for.
pub(crate) fn begin<F>(alloc: Global, space: &Space<F>) -> Result<Walk, NoMemory>
    ensures sound { IfOk result (IsSoundWalk (view space.now.parts)) }
    ensures begun { IfOk result (IsBegun (view space.now.parts)) }
    ensures by { IfOk result (λ walk. AreFoundBy [] walk.found.items None) }
{
    a_copy_is_walked_by_addresses();
    let mut walk = new_walk(alloc);
    space.parts.roots.sound();
    for place in 0..space.parts.roots.len() {
        let (_, _, at) = space.parts.roots.nth(place);
        meet(&mut walk, space, at, None, place as u32)?;
    }
    Ok(walk)
}

// What was found at a place.
fn found_at(walk: &Walk, place: usize) -> Found
    requires { place < length walk.now.found.items }
    ensures { slice_get walk.now.found.items place ≡ Some result }
{
    walk.found[place]
}

// Finds what a field of the object found at a place holds.
fn meet_field<F>(
    walk: &mut Walk,
    space: &Space<F>,
    place: usize,
    index: u32,
    field: Option<Addr>,
) -> Result<(), NoMemory>
    requires sound { IsSoundWalk (view space.now.parts) walk.old }
    requires held { IsFieldAt (view space.now.parts) walk.old.found.items place index field }
    ensures sound { OnOk result (IsSoundWalk (view space.now.parts) walk.new) }
    ensures grows { OnOk result (Grows walk.old walk.new) }
    ensures met { OnOk result (IfSome field (IsMet (view space.now.parts) walk.new)) }
    ensures by { OnOk result (AreFoundBy walk.old.found.items walk.new.found.items (Some place)) }
{
    a_copy_is_walked_by_addresses();
    match field {
        Some(to) => meet(walk, space, to, Some(place), index),
        None => Ok(()),
    }
}

/// Finds what the object that was found at this place holds, field by field.
pub(crate) fn look<F>(walk: &mut Walk, space: &Space<F>, place: usize) -> Result<(), NoMemory>
    requires place { place < length walk.old.found.items }
    requires sound { IsSoundWalk (view space.now.parts) walk.old }
    ensures sound { OnOk result (IsSoundWalk (view space.now.parts) walk.new) }
    ensures grows { OnOk result (Grows walk.old walk.new) }
    ensures done { OnOk result (IsDoneAt (view space.now.parts) walk.new place) }
    ensures by { OnOk result (AreFoundBy walk.old.found.items walk.new.found.items (Some place)) }
{
    let found = found_at(walk, place);
    let Some(object) = object_at(&space.parts.cars, found.at) else {
        return Ok(());
    };
    let fields = object.fields.as_slice();
    for index in 0..fields.len() {
        meet_field(walk, space, place, index as u32, fields[index])?;
    }
    Ok(())
}

/// Walks from the names of the space through all that they reach.
pub(crate) fn walk_space<F>(alloc: Global, space: &Space<F>) -> Result<Walk, NoMemory>
    ensures sound { IfOk result (IsSoundWalk (view space.now.parts)) }
    ensures whole { IfOk result (IsWholeWalk (view space.now.parts)) }
{
    let mut walk = begin(alloc, space)?;
    for place in 0..usize::MAX {
        if place >= walk.found.len() {
            return Ok(walk);
        }
        look(&mut walk, space, place)?;
    }
    Ok(walk)
}

// Whether the object of this identity was found at a place.
#[tactic(auto, using(crate::proofs::Broad::other_one))]
fn is_at(walk: &Walk, place: usize, id: Id) -> bool
    requires { place < length walk.now.found.items }
    ensures yes { result ≡ true → IsPlaceOf walk.now id place }
    ensures no { result ≡ false → (one : Found) → slice_get walk.now.found.items place ≡ Some one → one.id ≡ id → ⊥ }
{
    let found = found_at(walk, place);
    found.id == id
}

/// Walks from the names of the space, the nearest first, until it comes to the object of this identity: the walk so far
/// and the object's place in it. `None` where the names do not reach it.
pub fn walk_until<F>(
    alloc: Global,
    space: &Space<F>,
    id: Id,
) -> Result<(Walk, Option<usize>), NoMemory>
    ensures sound { IfOk result (λ done. IsSoundWalk (view space.now.parts) done.0) }
    ensures found { IfOk result (λ done. IfSome done.1 (IsPlaceOf done.0 id)) }
    ensures broad { IfOk result (λ done. IfSome done.1 (IsBroadWalk (view space.now.parts) done.0)) }
    ensures none { IfOk result (λ done. IfNone done.1 (map.get (copy_in (view space.now.parts)).heap id ≡ None)) }
{
    let mut walk = begin(alloc, space)?;
    for place in 0..usize::MAX {
        if place >= walk.found.len() {
            return Ok((walk, None));
        }
        if is_at(&walk, place, id) {
            return Ok((walk, Some(place)));
        }
        look(&mut walk, space, place)?;
    }
    Ok((walk, None))
}
