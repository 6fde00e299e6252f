//! Lines that stand in one line, with ` / ` between them.

ghost use Rattle.std.specs.Prelude.{◌≤◌, length, IfOk};
ghost use Rattle.pm_types.specs.declared.limits.TheConstants.{SOURCE_BYTES};

use crate::fault::{Fault, refuse};
use pm_types::SOURCE_BYTES;
use std::alloc::Global;

/// Adds these lines, each with a newline; no line where there is no text.
pub fn push_lines(out: &mut Vec<u8>, text: &str) -> Result<(), Fault> {
    if text.is_empty() {
        return Ok(());
    }
    for line in text.split(" / ") {
        out.extend_from_slice(line.as_bytes())?;
        out.push(b'\n')?;
    }
    Ok(())
}

/// These lines, as a script that may be read: a source has so many bytes at most.
pub fn script_text(alloc: Global, text: &str) -> Result<Vec<u8>, Fault>
    ensures { IfOk result (λ lines. length lines.items ≤ SOURCE_BYTES) }
{
    let mut lines = Vec::new(alloc);
    push_lines(&mut lines, text)?;
    if lines.len() > SOURCE_BYTES {
        return Err(refuse("too long"));
    }
    Ok(lines)
}
