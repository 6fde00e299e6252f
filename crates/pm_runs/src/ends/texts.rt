//! What the program writes on standard error.
ghost use Rattle.std.specs.Prelude.{◌≡◌, ◌≤◌, ◌++◌, length, IfOk, codes, decimal};
ghost use Rattle.pm_script.specs.declared.fault.ScriptFault.TheVariants as script_fault;
ghost use Rattle.pm_dump.specs.declared.fault.DumpFault.TheVariants as dump_fault;
ghost use Rattle.pm_runs.specs.Ends.Ends.{cause_word, detail_line, dump_line, dump_word, refused_so, script_line, shipped_line};

use crate::ends::Detail;
use pm_dump::{DumpCause, DumpFault};
use pm_script::{Cause, ScriptFault};
use pm_serial::output::line::{Line, append, append_digest, append_number, line_with};
use pm_ship::Shipped;
use pm_types::{NoMemory, OpenFault};
use std::alloc::Global;

// A line with a number at its end.
fn numbered_line(words: &[u8], number: u64) -> Line
    requires { length words.now ≤ 128 }
    ensures { result.items ≡ words.now ++ decimal number ++ codes "\n" }
{
    let mut line = line_with(words);
    append_number(&mut line, number);
    append(&mut line, b"\n");
    line
}

// The word for what is wrong with a line.
fn cause_word(cause: Cause) -> &'static [u8]
    ensures word { result.now ≡ cause_word cause }
    ensures short { length result.now ≤ 8 }
{
    match cause {
        Cause::LineTooLong => b"too-long",
        Cause::Client => b"client",
        Cause::Word => b"word",
        Cause::Count => b"count",
        Cause::Number => b"number",
        Cause::Hex => b"hex",
        Cause::Name => b"name",
    }
}

// The line of a script of which this line is the first that is bad.
fn bad_line(number: u32, cause: Cause) -> Line
    ensures { result.items ≡ script_line (script_fault.Line number cause) }
{
    let mut line = line_with(b"pmos: script line ");
    append_number(&mut line, u64::from(number));
    append(&mut line, b" ");
    append(&mut line, cause_word(cause));
    append(&mut line, b"\n");
    line
}

// The line of a script that is bad.
fn script_fault_of(fault: &ScriptFault) -> Line
    ensures { result.items ≡ script_line fault.now }
{
    match fault {
        ScriptFault::Line { number, cause } => bad_line(*number, *cause),
        ScriptFault::TooManyLines => line_with(b"pmos: script too many lines\n"),
        ScriptFault::TooLong => line_with(b"pmos: script too long\n"),
        ScriptFault::Memory(_) => line_with(b"pmos: no memory\n"),
    }
}

// The word for what is wrong with a line of a dump.
fn dump_word(cause: DumpCause) -> &'static [u8]
    ensures word { result.now ≡ dump_word cause }
    ensures short { length result.now ≤ 8 }
{
    match cause {
        DumpCause::Form => b"form",
        DumpCause::Order => b"order",
        DumpCause::Limit => b"limit",
        DumpCause::Dangling => b"dangling",
    }
}

// The line of a dump of which this line is the one that is told.
fn bad_dump_line(number: u64, cause: DumpCause) -> Line
    ensures { result.items ≡ dump_line (dump_fault.Line number cause) }
{
    let mut line = line_with(b"pmos: dump line ");
    append_number(&mut line, number);
    append(&mut line, b" ");
    append(&mut line, dump_word(cause));
    append(&mut line, b"\n");
    line
}

// The line of a dump that is bad.
fn dump_fault_of(fault: &DumpFault) -> Line
    ensures { result.items ≡ dump_line fault.now }
{
    match fault {
        DumpFault::Line { number, cause } => bad_dump_line(*number, *cause),
        DumpFault::Memory(_) => line_with(b"pmos: no memory\n"),
    }
}

// The line of a page that is damaged, behind these words.
fn damaged_line(front: &[u8], page: u64, kept: &[u8; 32], found: &[u8; 32]) -> Line
    requires { length front.now ≤ 16 }
    ensures { result.items ≡ refused_so front.now (OpenFault.Damaged page kept.now found.now) }
{
    let mut line = line_with(front);
    append(&mut line, b"damaged page ");
    append_number(&mut line, page);
    append(&mut line, b" kept ");
    append_digest(&mut line, kept);
    append(&mut line, b" found ");
    append_digest(&mut line, found);
    append(&mut line, b"\n");
    line
}

// The line of a page that is malformed.
fn malformed_line(front: &[u8], page: u64, at: u32) -> Line
    requires { length front.now ≤ 16 }
    ensures { result.items ≡ refused_so front.now (OpenFault.Malformed page at) }
{
    let mut line = line_with(front);
    append(&mut line, b"malformed page ");
    append_number(&mut line, page);
    append(&mut line, b" at ");
    append_number(&mut line, u64::from(at));
    append(&mut line, b"\n");
    line
}

// The line of a store of another version.
fn version_line(front: &[u8], version: u32) -> Line
    requires { length front.now ≤ 16 }
    ensures { result.items ≡ refused_so front.now (OpenFault.Version version) }
{
    let mut line = line_with(front);
    append(&mut line, b"version ");
    append_number(&mut line, u64::from(version));
    append(&mut line, b"\n");
    line
}

// A line of these words behind those.
fn worded_line(front: &[u8], words: &[u8]) -> Line
    requires front { length front.now ≤ 16 }
    requires words { length words.now ≤ 128 }
    ensures { result.items ≡ front.now ++ words.now }
{
    let mut line = line_with(front);
    append(&mut line, words);
    line
}

// The line of a store that is refused, behind these words.
fn refusal_of(front: &[u8], fault: &OpenFault) -> Line
    requires { length front.now ≤ 16 }
    ensures { result.items ≡ refused_so front.now fault.now }
{
    match fault {
        OpenFault::NotAStore => worded_line(front, b"not a store\n"),
        OpenFault::Version(version) => version_line(front, *version),
        OpenFault::Damaged { page, kept, found } => damaged_line(front, *page, kept, found),
        OpenFault::Malformed { page, at } => malformed_line(front, *page, *at),
        OpenFault::Disk { .. } => worded_line(front, b"disk fault\n"),
        OpenFault::Memory(_) => worded_line(front, b"no memory\n"),
    }
}

// The line of a standby whose copy has a later number than the first store's.
fn ahead_line(to: u32, from: u32) -> Line
    ensures { result.items ≡ codes "pmos: standby ahead " ++ decimal to ++ codes " " ++ decimal from ++ codes "\n" }
{
    let mut line = line_with(b"pmos: standby ahead ");
    append_number(&mut line, u64::from(to));
    append(&mut line, b" ");
    append_number(&mut line, u64::from(from));
    append(&mut line, b"\n");
    line
}

/// The line that tells what was shipped: the number of the copy, and how many pages were written. It takes no memory.
pub fn shipped_line(shipped: &Shipped) -> Line
    ensures { result.items ≡ shipped_line shipped.now }
{
    let mut line = line_with(b"shipped ");
    append_number(&mut line, u64::from(shipped.epoch));
    append(&mut line, b" ");
    append_number(&mut line, shipped.written);
    append(&mut line, b"\n");
    line
}

/// The line of an end. It takes no memory.
pub fn line_of(detail: &Detail) -> Line
    ensures { result.items ≡ detail_line detail.now }
{
    match detail {
        Detail::Fine => line_with(b""),
        Detail::Usage => line_with(b"pmos: usage\n"),
        Detail::Script(fault) => script_fault_of(fault),
        Detail::Dump(fault) => dump_fault_of(fault),
        Detail::Reading { .. } => line_with(b"pmos: read fault\n"),
        Detail::Writing { .. } => line_with(b"pmos: write fault\n"),
        Detail::Device { .. } => line_with(b"pmos: disk fault\n"),
        Detail::NotEmpty(bytes) => numbered_line(b"pmos: not empty ", *bytes),
        Detail::Refused(fault) => refusal_of(b"pmos: ", fault),
        Detail::Standby(fault) => refusal_of(b"pmos: standby ", fault),
        Detail::Ahead { to, from } => ahead_line(*to, *from),
        Detail::Foreign(number) => numbered_line(b"pmos: standby foreign ", u64::from(*number)),
        Detail::OtherDevice { .. } => line_with(b"pmos: standby disk fault\n"),
        Detail::Memory { .. } => line_with(b"pmos: no memory\n"),
    }
}

/// The line that the program writes on standard error where it ended so. It has its newline; there is nothing to
/// write where all is fine.
pub fn detail_text(alloc: Global, detail: &Detail) -> Result<Vec<u8>, NoMemory>
    ensures { IfOk result (λ text. text.items ≡ detail_line detail.now) }
{
    Ok(line_of(detail).as_slice().to_vec(alloc)?)
}
