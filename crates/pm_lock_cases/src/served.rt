//! What a journal serves of a script.

use pm_case_text::told::alike_in;
use pm_case_text::{Fault, push_filled, push_value_line, push_words};
use pm_script::Line;
use pm_types::{CLIENTS, Cmd, Entry};
use std::alloc::Global;

// Adds a command, where it is of this client.
fn push_of(client: u32, cmd: &Cmd, who: u32, text: &mut String) -> Result<(), Fault> {
    if client == who {
        return push_value_line(cmd, text);
    }
    Ok(())
}

// Adds the commands of a client in lines, one behind another.
fn push_asked(lines: &[Line], who: u32, text: &mut String) -> Result<(), Fault> {
    for line in lines {
        if let Line::Client { client, cmd } = line {
            push_of(*client, cmd, who, text)?;
        }
    }
    Ok(())
}

// Adds the commands of a client in a journal.
fn push_answered(journal: &[Entry], who: u32, text: &mut String) -> Result<(), Fault> {
    for entry in journal {
        push_of(entry.client, &entry.cmd, who, text)?;
    }
    Ok(())
}

// Whether the journal has a first part of a client's commands: 1 or 0; and whether it has all of them.
fn part_of(
    alloc: Global,
    lines: &[Line],
    journal: &[Entry],
    who: u32,
) -> Result<(u64, u64), Fault> {
    let mut all = String::new(alloc);
    let mut part = String::new(alloc);
    push_asked(lines, who, &mut all)?;
    push_answered(journal, who, &mut part)?;
    let is_first = all.as_str().starts_with(part.as_str());
    let is_whole = all.as_str() == part.as_str();
    Ok((is_first as u64, is_whole as u64))
}

/// Of how many clients the journal has a first part of their commands, and of how many all of them.
pub(crate) fn count_parts(
    alloc: Global,
    lines: &[Line],
    journal: &[Entry],
) -> Result<(u64, u64), Fault> {
    let mut first = 0u64;
    let mut whole = 0u64;
    for who in 0..CLIENTS {
        let (is_first, is_whole) = part_of(alloc, lines, journal, who)?;
        first = first.saturating_add(is_first);
        whole = whole.saturating_add(is_whole);
    }
    Ok((first, whole))
}

/// Adds whether the plain slow program replies to each command of the journal alike, from an empty world on.
pub(crate) fn push_legal(alloc: Global, journal: &[Entry], out: &mut String) -> Result<(), Fault> {
    let alike = alike_in(alloc, journal)?;
    let commands = journal.len() as u64;
    if alike == commands {
        return push_words(" / legal\n", out);
    }
    push_filled(" / % of % legal\n", &[alike, commands], out)
}
