//! Lines of a script, as a step spells them.

use pm_case_text::{Fault, refuse, small};
use pm_script::{Script, read_script};
use pm_types::SOURCE_BYTES;
use std::alloc::{AllocError, Global};

// Adds a line of a script, in which an `H` at the end stands for 4,096 bytes 00.
fn push_line(lines: &mut Vec<u8>, line: &str) -> Result<(), AllocError> {
    let front = line.strip_suffix('H').unwrap_or(line);
    lines.extend_from_slice(front.as_bytes())?;
    if front.len() < line.len() {
        lines.resize(lines.len().saturating_add(2 * 4096), b'0')?;
    }
    lines.extend_from_slice(b"\n")
}

// Adds a line so many times.
fn push_times(lines: &mut Vec<u8>, times: u32, line: &str) -> Result<(), Fault> {
    for _ in 0..times {
        push_line(lines, line)?;
    }
    Ok(())
}

// Adds a part of a script: a line, or `N* ` and a line, which then stands there so many times.
fn push_part(lines: &mut Vec<u8>, part: &str) -> Result<(), Fault> {
    let (times, line) = part.split_once("* ").unwrap_or(("1", part));
    push_times(lines, small(times)?, line)
}

// Adds the lines of a script, whose parts stand between ` / `.
fn push_parts(lines: &mut Vec<u8>, text: &str) -> Result<(), Fault> {
    for part in text.split(" / ") {
        push_part(lines, part)?;
    }
    Ok(())
}

// Reads these bytes as a script.
fn read(alloc: Global, bytes: &[u8]) -> Result<Script, Fault> {
    if bytes.len() > SOURCE_BYTES {
        return Err(refuse("Script"));
    }
    read_script(alloc, bytes).ok().ok_or(refuse("Script"))
}

/// The script whose lines stand between ` / `.
pub(crate) fn script_of(alloc: Global, text: &str) -> Result<Script, Fault> {
    let mut lines = Vec::new(alloc);
    push_parts(&mut lines, text)?;
    read(alloc, lines.as_slice())
}
