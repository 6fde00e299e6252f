ghost use Rattle.std.specs.Prelude.{◌≡◌, ◌≤◌, [], length, OnOk, IfErr};
ghost use Rattle.pm_types.specs.declared.limits.TheConstants.{SOURCE_BYTES};
ghost use Rattle.pm_dump.specs.Dump.{dump_lines};
ghost use Rattle.pm_dump.specs.Spelled.{SpellsLines};
ghost use Rattle.pm_dump.specs.Faults.{AreInPlace};
ghost use Rattle.pm_dump.specs.Read.{dump_in, before_in, AreKept, ReadsLine, FailsAt, FailsLines};

use crate::fault::{DumpCause, DumpFault, LineFault};
use crate::line::read_line;
use crate::parts::Parts;
use pm_script::cut;
use std::alloc::Global;

// Reads the line of this number, which stands behind those that were read.
fn read_numbered(
    alloc: Global,
    parts: &mut Parts,
    number: u64,
    line: &[u8],
) -> Result<(), DumpFault>
    requires kept { AreKept parts.old }
    requires short { length line.now ≤ SOURCE_BYTES }
    ensures ok { OnOk result (ReadsLine (before_in parts.old) line.now (before_in parts.new)) }
    ensures kept { OnOk result (AreKept parts.new) }
    ensures err { IfErr result (FailsAt (before_in parts.old) line.now number) }
{
    match read_line(alloc, parts, line) {
        Ok(()) => Ok(()),
        Err(LineFault::Bad(cause)) => Err(DumpFault::Line { number, cause }),
        Err(LineFault::Memory(refused)) => Err(DumpFault::Memory(refused)),
    }
}

/// Reads all lines, up to the end: what they spell, with each line in its place, or the first that is bad in its form,
/// its order or its limits.
pub(crate) fn read_lines(alloc: Global, parts: &mut Parts, bytes: &[u8]) -> Result<(), DumpFault>
    requires kept { AreKept parts.old }
    requires first { before_in parts.old ≡ [] }
    requires short { length bytes.now ≤ SOURCE_BYTES }
    ensures spelled { OnOk result (SpellsLines bytes.now (dump_lines (dump_in parts.new))) }
    ensures placed { OnOk result (AreInPlace [] (dump_lines (dump_in parts.new))) }
    ensures kept { OnOk result (AreKept parts.new) }
    ensures err { IfErr result (FailsLines bytes.now) }
{
    let mut left = bytes;
    let mut number = 1u64;
    while let Some((line, rest)) = cut(left, b'\n') {
        read_numbered(alloc, parts, number, line)?;
        left = rest;
        number += 1;
    }
    if !parts.ended {
        return Err(DumpFault::Line {
            number,
            cause: DumpCause::Form,
        });
    }
    if !left.is_empty() {
        return Err(DumpFault::Line {
            number,
            cause: DumpCause::Form,
        });
    }
    Ok(())
}
