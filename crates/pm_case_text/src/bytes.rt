//! Bytes at places of others.

use crate::fault::{Fault, refuse};
use crate::words::{placed, raw_bytes};
use std::alloc::Global;

/// So many bytes from a place on.
pub fn part(all: &[u8], from: usize, count: usize) -> Result<&[u8], Fault> {
    let found = match from.checked_add(count) {
        Some(end) => all.get(from..end),
        None => None,
    };
    found.ok_or(refuse("past the end"))
}

/// Writes bytes over those that stand at a place.
pub fn put(all: &mut [u8], at: usize, bytes: &[u8]) -> Result<(), Fault> {
    for (index, byte) in bytes.iter().enumerate() {
        match all.get_mut(at.saturating_add(index)) {
            Some(found) => *found = *byte,
            None => return Err(refuse("past the end")),
        }
    }
    Ok(())
}

/// `PLACE HEX`: these bytes stand at that place.
pub fn patch(alloc: Global, all: &mut [u8], text: &str) -> Result<(), Fault> {
    let (at, digits) = placed(text)?;
    let bytes = raw_bytes(alloc, digits)?;
    put(all, at, bytes.as_slice())
}
