//! A run beside the plain slow program.

use crate::{Fault, push_filled, refuse};
use pm_model::Oracle;
use pm_types::{CLIENTS, Entry};
use std::alloc::Global;

// Whether the plain program replies to the command as the entry says.
fn is_alike(alloc: Global, oracle: &mut Oracle, entry: &Entry) -> Result<bool, Fault> {
    if entry.client >= CLIENTS {
        return Err(refuse("no such client"));
    }
    match oracle.answer(alloc, entry.client, &entry.cmd) {
        Ok(reply) => Ok(reply == entry.reply),
        Err(_) => Err(refuse("no memory")),
    }
}

// How many of the commands of a journal the plain program replies to alike.
fn count_alike(alloc: Global, oracle: &mut Oracle, journal: &[Entry]) -> Result<u64, Fault> {
    let mut alike = 0u64;
    for entry in journal {
        alike = alike.saturating_add(is_alike(alloc, oracle, entry)? as u64);
    }
    Ok(alike)
}

/// How many of the commands of a run's journal, begun on a new store, the plain slow program replies to alike.
pub fn alike_in(alloc: Global, journal: &[Entry]) -> Result<u64, Fault> {
    count_alike(alloc, &mut Oracle::new(alloc), journal)
}

/// Adds how many they are, and of how many commands.
pub fn push_alike(alloc: Global, journal: &[Entry], out: &mut String) -> Result<(), Fault> {
    let alike = alike_in(alloc, journal)?;
    push_filled("oracle alike % of %\n", &[alike, journal.len() as u64], out)
}
