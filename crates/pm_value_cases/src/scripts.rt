//! The scripts that are parted.

use pm_case_text::{Fault, push_filled, push_lines, refuse, small};
use pm_script::{Script, ScriptFault, read_script};
use pm_types::{CLIENTS, SOURCE_BYTES};
use std::alloc::Global;

// Reads a script.
fn read(alloc: Global, bytes: &[u8]) -> Result<Script, Fault> {
    if bytes.len() > SOURCE_BYTES {
        return Err(refuse("too long"));
    }
    match read_script(alloc, bytes) {
        Ok(script) => Ok(script),
        Err(ScriptFault::Memory(_)) => Err(refuse("no memory")),
        Err(_) => Err(refuse("no script")),
    }
}

/// The script of these lines, which ` / ` stands between.
pub(crate) fn spelled(alloc: Global, lines: &str) -> Result<Script, Fault> {
    let mut bytes = Vec::new(alloc);
    match push_lines(&mut bytes, lines) {
        Ok(()) => read(alloc, bytes.as_slice()),
        Err(fault) => Err(fault),
    }
}

// Adds so many lines, in which the clients ask in turn.
fn push_in_turn(count: u32, text: &mut String) -> Result<(), Fault> {
    for line in 0..count as u64 {
        let client = line % CLIENTS as u64;
        let number = line / CLIENTS as u64;
        push_filled("% load 0 0 %\n", &[client, number], text)?;
    }
    Ok(())
}

/// The script of so many lines, in which the clients ask in turn. The commands of each have the numbers from 0 on.
pub(crate) fn in_turn(alloc: Global, lines: &str) -> Result<Script, Fault> {
    let mut text = String::new(alloc);
    push_in_turn(small(lines)?, &mut text)?;
    read(alloc, text.as_bytes())
}
