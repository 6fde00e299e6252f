//! Lines that are read one after the other, in one dialect.
ghost use Rattle.std.specs.Prelude.{◌≡◌, ◌≤◌, ◌<◌, length, nat_eq};
ghost use Rattle.std.specs.List.{slice_split};
ghost use Rattle.pm_types.specs.declared.limits.TheConstants.{SCRIPT_LINES, SOURCE_BYTES};
ghost use Rattle.pm_script.specs.Lines.{lines_of, is_silent};
ghost use Rattle.pm_script.specs.Reading.{Answers, Tells, numbered, body_at, lines_at, script_at};

use crate::body::read_body;
use crate::fault::{LineFault, ScriptFault};
use crate::parts::{count_byte, take_part};
use crate::said::Said;
use pm_types::{SCRIPT_LINES, SOURCE_BYTES};
use std::alloc::Global;

// Whether a line says nothing.
fn is_silent(body: &[u8]) -> bool
    ensures { result ≡ is_silent body.now }
{
    match body {
        [] => true,
        [first, ..] => *first == b'#',
    }
}

// The bytes without the newline that ends the last line.
fn last_unended(bytes: &[u8]) -> &[u8]
    requires { 0 < length bytes.now }
    ensures { slice_split (λ b. nat_eq b 10) result.now ≡ lines_of bytes.now }
{
    bytes.strip_suffix(b"\n").unwrap_or(bytes)
}

// Reads the line of this number, which says something.
fn read_numbered<L: Said>(alloc: Global, number: u32, body: &[u8]) -> Result<L, ScriptFault>
    ensures { Answers result (numbered number (body_at L.dialect L.asked body.now)) }
{
    match read_body(alloc, body) {
        Ok(line) => Ok(line),
        Err(LineFault::Bad(cause)) => Err(ScriptFault::Line { number, cause }),
        Err(LineFault::Memory(refused)) => Err(ScriptFault::Memory(refused)),
    }
}

// Reads the lines between newlines, with room for so many of them.
fn read_lines<L: Said>(alloc: Global, bytes: &[u8], room: usize) -> Result<Vec<L>, ScriptFault>
    requires { length (slice_split (λ b. nat_eq b 10) bytes.now) ≤ SCRIPT_LINES }
    ensures { Tells (λ lines. lines.items) result (lines_at (body_at L.dialect L.asked) 1 (slice_split (λ b. nat_eq b 10) bytes.now)) }
{
    let mut lines = Vec::with_capacity(alloc, room)?;
    let mut number = 0;
    let mut rest = Some(bytes);
    while let Some((body, after)) = take_part(rest, b'\n') {
        rest = after;
        number += 1;
        if is_silent(body) {
            continue;
        }
        let line = read_numbered(alloc, number, body)?;
        lines.push(line)?;
    }
    Ok(lines)
}

/// Reads all lines, which are counted before any is read.
#[tactic(auto, unfolding(crate::specs::Reading::script_at))]
pub(crate) fn read_all<L: Said>(alloc: Global, bytes: &[u8]) -> Result<Vec<L>, ScriptFault>
    requires { length bytes.now ≤ SOURCE_BYTES }
    ensures { Tells (λ lines. lines.items) result (script_at (body_at L.dialect L.asked) bytes.now) }
{
    if bytes.is_empty() {
        return Ok(Vec::new(alloc));
    }
    let bytes = last_unended(bytes);
    let ended = count_byte(bytes, b'\n');
    if ended >= SCRIPT_LINES {
        return Err(ScriptFault::TooManyLines);
    }
    read_lines(alloc, bytes, ended + 1)
}
