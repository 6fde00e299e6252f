//! Drawn young objects beside the walk of the plain slow program.

use crate::containers::nurseries::shapes::add_many;
use crate::containers::nurseries::{carry, has, hold, joined, set};
use crate::containers::spelling::name;
use pm_case_text::{Fault, counted, push_filled};
use pm_model::{Graph, Node, Objects, Roots};
use pm_nursery::Nursery;
use pm_types::{Bytes, Id};
use std::alloc::Global;

// The fields of each object, and the registers that hold one.
const DRAWN_FIELDS: u32 = 3;

const DRAWN_HOLDERS: u32 = 12;

// A number that is drawn by two others.
fn mixed(first: u32, second: u32) -> u32 {
    let near = first.wrapping_mul(2_654_435_761) ^ second.wrapping_mul(40_503);
    let far = (near ^ (near >> 15)).wrapping_mul(2_246_822_519);
    far ^ (far >> 13)
}

// One of so many objects.
fn one_of(number: u32, count: u32) -> Id {
    (number % count.max(1)).wrapping_add(1)
}

// What a field holds: three times of four null.
fn drawn(id: Id, index: u32, count: u32) -> Option<Id> {
    let number = mixed(id, index);
    if number % 4 == 0 {
        return Some(one_of(number / 4, count));
    }
    None
}

// What a register holds.
fn drawn_held(register: u32, count: u32) -> Id {
    one_of(mixed(register, 1_000_003), count)
}

// Sets the fields of an object, each to something else first.
fn set_drawn(nursery: &mut Nursery, id: Id, count: u32) -> Result<(), Fault> {
    for index in 0..DRAWN_FIELDS {
        set(nursery, id, index, Some(one_of(id.wrapping_mul(7), count)))?;
        set(nursery, id, index, drawn(id, index, count))?;
    }
    Ok(())
}

// Lets a register hold an object, and another one first.
fn hold_drawn(nursery: &mut Nursery, register: u32, count: u32) -> Result<(), Fault> {
    hold(nursery, register % 8, register, one_of(register, count))?;
    hold(nursery, register % 8, register, drawn_held(register, count))
}

// Sets the fields of all objects.
fn set_all(nursery: &mut Nursery, count: u32) -> Result<(), Fault> {
    for id in 1..=count {
        set_drawn(nursery, id, count)?;
    }
    Ok(())
}

// Lets the registers hold theirs.
fn hold_all(nursery: &mut Nursery, count: u32) -> Result<(), Fault> {
    for register in 0..DRAWN_HOLDERS {
        hold_drawn(nursery, register, count)?;
    }
    Ok(())
}

// A nursery of so many drawn objects.
fn nursery_of(alloc: Global, count: u32) -> Result<Nursery, Fault> {
    let mut nursery = Nursery::new(alloc);
    add_many(alloc, &mut nursery, count, DRAWN_FIELDS)?;
    set_all(&mut nursery, count)?;
    hold_all(&mut nursery, count)?;
    Ok(nursery)
}

// Adds what the fields of an object hold, where that is this one, or where any one will do.
fn push_fields(
    fields: &mut Vec<Option<Id>>,
    id: Id,
    only: Option<Id>,
    count: u32,
) -> Result<(), Fault> {
    for index in 0..DRAWN_FIELDS {
        let held = drawn(id, index, count);
        if only.is_none() {
            fields.push(held)?;
        } else if held == only {
            fields.push(Some(id))?;
        }
    }
    Ok(())
}

// Adds the objects that hold this one.
fn push_holders(fields: &mut Vec<Option<Id>>, id: Id, count: u32) -> Result<(), Fault> {
    for other in 1..=count {
        push_fields(fields, other, Some(id), count)?;
    }
    Ok(())
}

// The same object in a plain heap. Both ways round, its fields also hold the objects that hold it.
fn node_of(alloc: Global, id: Id, both_ways: bool, count: u32) -> Result<Node, Fault> {
    let mut fields = Vec::new(alloc);
    push_fields(&mut fields, id, None, count)?;
    if both_ways {
        push_holders(&mut fields, id, count)?;
    }
    Ok(Node::new(fields, Bytes::from_vec(Vec::new(alloc))))
}

// The same objects in a plain heap.
fn plain_of(alloc: Global, both_ways: bool, count: u32) -> Result<Objects, Fault> {
    let mut objects = Objects::new(alloc);
    for id in 1..=count {
        objects.insert(id, node_of(alloc, id, both_ways, count)?)?;
    }
    Ok(objects)
}

// Gives an object the name of a number.
fn bind(alloc: Global, roots: &mut Roots, number: u32, id: Id) -> Result<(), Fault> {
    let spelled = counted(alloc, "n%", number as u64)?;
    match name(alloc, spelled.as_str()) {
        Ok(name) => Ok(roots.bind(name, id)?),
        Err(fault) => Err(fault),
    }
}

// A name for each object that a register holds.
fn names_of(alloc: Global, count: u32) -> Result<Roots, Fault> {
    let mut roots = Roots::new(alloc);
    for register in 0..DRAWN_HOLDERS {
        bind(alloc, &mut roots, register, drawn_held(register, count))?;
    }
    Ok(roots)
}

// What the names reach in a plain heap, as the plain slow program walks.
fn walked(alloc: Global, objects: &Objects, roots: &Roots, count: u32) -> Result<Vec<Id>, Fault> {
    let graph = Graph::copied(alloc, objects, roots, 1)?;
    let mut ids = Vec::new(alloc);
    for id in 1..=count {
        if graph.objects().get(id).is_some() {
            ids.push(id)?;
        }
    }
    Ok(ids)
}

// What an object reaches in a plain heap.
fn walked_from(alloc: Global, objects: &Objects, id: Id, count: u32) -> Result<Vec<Id>, Fault> {
    let mut roots = Roots::new(alloc);
    bind(alloc, &mut roots, 0, id)?;
    walked(alloc, objects, &roots, count)
}

// Drawn objects in a nursery, and both ways round in a plain heap.
#[derive(Drop)]
struct Beside {
    nursery: Nursery,
    both_ways: Objects,
    count: u32,
    // How many are reached, and how many pieces there are.
    reached: u64,
    pieces: u64,
}

// Whether the same is reached as in the plain heap.
fn is_reached_alike(alloc: Global, beside: &mut Beside) -> Result<bool, Fault> {
    let objects = plain_of(alloc, false, beside.count)?;
    let roots = names_of(alloc, beside.count)?;
    let walked = walked(alloc, &objects, &roots, beside.count)?;
    let reached = beside.nursery.reached(alloc)?;
    beside.reached = reached.len() as u64;
    Ok(reached.as_slice() == walked.as_slice())
}

// Whether the same is joined to an object as is reached both ways round in the plain heap.
fn is_joined_alike(alloc: Global, beside: &Beside, id: Id) -> Result<bool, Fault> {
    let walked = walked_from(alloc, &beside.both_ways, id, beside.count)?;
    let joined = joined(alloc, &beside.nursery, id)?;
    Ok(joined.as_slice() == walked.as_slice())
}

// Whether the same is joined to each object.
fn are_joined_alike(alloc: Global, beside: &Beside) -> Result<bool, Fault> {
    let mut same = true;
    for id in 1..=beside.count {
        same &= is_joined_alike(alloc, beside, id)?;
    }
    Ok(same)
}

// Takes a piece away, if it is still there; whether it was the same as in the plain heap.
fn is_carried_alike(alloc: Global, beside: &mut Beside, id: Id) -> Result<bool, Fault> {
    if !has(&beside.nursery, id) {
        return Ok(true);
    }
    beside.pieces = beside.pieces.wrapping_add(1);
    let same = is_joined_alike(alloc, beside, id)?;
    carry(alloc, &mut beside.nursery, id)?;
    Ok(same)
}

// Takes all pieces away, one after another; whether each was the same as in the plain heap, and nothing is left.
fn are_carried_alike(alloc: Global, beside: &mut Beside) -> Result<bool, Fault> {
    let mut same = true;
    for id in 1..=beside.count {
        same &= is_carried_alike(alloc, beside, id)?;
    }
    Ok(same && beside.nursery.len() == 0 && beside.nursery.reached(alloc)?.is_empty())
}

// Whether all is as in the plain heap.
fn is_alike(alloc: Global, beside: &mut Beside) -> Result<bool, Fault> {
    let reached = is_reached_alike(alloc, beside)?;
    let joined = are_joined_alike(alloc, beside)?;
    let carried = are_carried_alike(alloc, beside)?;
    Ok(reached && joined && carried)
}

/// Whether so many drawn objects are reached and joined as the plain slow program walks. Adds how many are reached, and
/// in how many pieces they are.
pub(crate) fn is_long_right(alloc: Global, count: u32, out: &mut String) -> Result<bool, Fault> {
    let mut beside = Beside {
        nursery: nursery_of(alloc, count)?,
        both_ways: plain_of(alloc, true, count)?,
        count,
        reached: 0,
        pieces: 0,
    };
    let same = is_alike(alloc, &mut beside)?;
    push_filled(
        "% reached, % pieces\n",
        &[beside.reached, beside.pieces],
        out,
    )?;
    Ok(same)
}
