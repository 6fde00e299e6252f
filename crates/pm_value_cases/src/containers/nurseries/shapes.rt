//! Young objects by the hundred: the identities 1 to N.

use crate::containers::nurseries::{add, hold, set};
use pm_case_text::{Fault, refuse};
use pm_nursery::Nursery;
use pm_types::{CLIENTS, Id, REGISTERS};
use std::alloc::Global;

/// Adds so many objects of so many null fields each.
pub(crate) fn add_many(
    alloc: Global,
    nursery: &mut Nursery,
    count: u32,
    fields: u32,
) -> Result<(), Fault> {
    for id in 1..=count {
        add(alloc, nursery, id, fields, &[])?;
    }
    Ok(())
}

// The identity that stands so far behind this one, where the first one stands behind the last.
fn behind(id: Id, far: u32, count: u32) -> Id {
    (id.wrapping_sub(1).wrapping_add(far) % count.max(1)).wrapping_add(1)
}

// The fields of an object hold those that stand behind it: field 0 the next one.
fn weave_one(nursery: &mut Nursery, id: Id, count: u32, fields: u32) -> Result<(), Fault> {
    for index in 0..fields {
        let far = index.wrapping_add(1);
        set(nursery, id, index, Some(behind(id, far, count)))?;
    }
    Ok(())
}

// Each object holds those that stand behind it: a ring, where it has one field.
fn weave(nursery: &mut Nursery, count: u32, fields: u32) -> Result<(), Fault> {
    for id in 1..=count {
        weave_one(nursery, id, count, fields)?;
    }
    Ok(())
}

// Object 1 holds all others, the next one in its first field.
fn star(nursery: &mut Nursery, count: u32) -> Result<(), Fault> {
    for id in 2..=count {
        set(nursery, 1, id.wrapping_sub(2), Some(id))?;
    }
    Ok(())
}

// Each object but the first holds the one before it, and the last one is written first.
fn line(nursery: &mut Nursery, count: u32) -> Result<(), Fault> {
    for id in (2..=count).rev() {
        set(nursery, id, 0, Some(id.wrapping_sub(1)))?;
    }
    Ok(())
}

// Each register of a client holds an object: register 0 the first one, and so on, and then the first one again.
fn hold_of_client(nursery: &mut Nursery, client: u32, count: u32) -> Result<(), Fault> {
    for register in 0..REGISTERS {
        hold(nursery, client, register, behind(1, register, count))?;
    }
    Ok(())
}

// Each register of each client holds an object.
fn hold_all(nursery: &mut Nursery, count: u32) -> Result<(), Fault> {
    for client in 0..CLIENTS {
        hold_of_client(nursery, client, count)?;
    }
    Ok(())
}

/// Makes a call about the identities 1 to N: `many N FIELDS`, `woven N FIELDS`, `star N`, `line N`, `all-hold N`.
pub(crate) fn shape(
    alloc: Global,
    nursery: &mut Nursery,
    call: &str,
    count: u32,
    fields: Option<u32>,
) -> Result<(), Fault> {
    match (call, fields) {
        ("many", Some(fields)) => add_many(alloc, nursery, count, fields),
        ("woven", Some(fields)) => weave(nursery, count, fields),
        ("star", None) => star(nursery, count),
        ("line", None) => line(nursery, count),
        ("all-hold", None) => hold_all(nursery, count),
        _ => Err(refuse("no such call")),
    }
}
