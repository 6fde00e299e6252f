//! Slots that are read and written.

ghost use Rattle.std.specs.Prelude.{◌≤◌, length};
ghost use Rattle.pm_types.specs.declared.limits.TheConstants.{FIELDS};
ghost use Rattle.pm_layout.specs.Spelling.{HasSpelling};

use crate::spelling::push_again;
use pm_case_text::{
    Fault, part, place, push_filled, push_said, push_value, push_value_line, refuse,
};
use pm_layout::{read_slot, size, write_slot};
use pm_types::{FIELDS, OLD_FIELDS, Slot};
use std::alloc::Global;

// Whether the slot, written behind the bytes that stand before it, gives the bytes up to this place.
fn is_again(alloc: Global, all: &[u8], at: usize, slot: &Slot, next: usize) -> Result<bool, Fault>
    requires { HasSpelling FIELDS slot.now }
{
    let mut again = all.get(..at).unwrap_or(all).to_vec(alloc)?;
    write_slot(slot, &mut again)?;
    Ok(all.get(..next) == Some(again.as_slice()))
}

// Adds a slot, its size, the place behind it, and whether it is written so again.
fn push_found(
    alloc: Global,
    all: &[u8],
    at: usize,
    slot: &Slot,
    next: usize,
    out: &mut String,
) -> Result<(), Fault>
    requires { HasSpelling FIELDS slot.now }
{
    let numbers = [size(slot) as u64, next as u64];
    push_value(slot, out)?;
    push_filled(" of % bytes, next %, written ", &numbers, out)?;
    push_again(is_again(alloc, all, at, slot, next), out)
}

// Adds the slot that begins at a place, or why there is none.
fn push_read(alloc: Global, all: &[u8], at: usize, out: &mut String) -> Result<(), Fault>
    requires { at ≤ length all.now }
{
    match read_slot(alloc, all, at, FIELDS) {
        Ok((slot, next)) => push_found(alloc, all, at, &slot, next, out),
        Err(fault) => push_value_line(&fault, out),
    }
}

/// `PLACE`: the slot that begins there, as the version that is written has it.
pub(crate) fn push_slot(
    alloc: Global,
    all: &[u8],
    text: &str,
    out: &mut String,
) -> Result<(), Fault> {
    match place(text) {
        Ok(at) if at <= all.len() => push_read(alloc, all, at, out),
        _ => Err(refuse("past the end")),
    }
}

/// The place behind the slot of at most so many fields that the bytes begin with.
pub(crate) fn push_end(alloc: Global, all: &[u8], most: u32, out: &mut String) -> Result<(), Fault>
    requires { most ≤ FIELDS }
{
    match read_slot(alloc, all, 0, most) {
        Ok((_, next)) => push_said("next", next as u64, out),
        Err(fault) => push_value_line(&fault, out),
    }
}

/// `COUNT`: the place behind the slot of version 1 that so many of the first bytes begin with.
pub(crate) fn push_old_cut(
    alloc: Global,
    all: &[u8],
    text: &str,
    out: &mut String,
) -> Result<(), Fault> {
    match part(all, 0, place(text)?) {
        Ok(cut) => push_end(alloc, cut, OLD_FIELDS, out),
        Err(fault) => Err(fault),
    }
}
