//! Dumps that are read.

use crate::dump_lines::lines;
use pm_case_text::{Fault, push_filled, push_value, push_value_line, push_words, refuse};
use pm_dump::{Dump, DumpCause, DumpFault, DumpObject, DumpRoot, read_dump};
use pm_types::SOURCE_BYTES;
use std::alloc::Global;

// What is said of a line that is bad for this cause.
fn said_of_line(cause: DumpCause) -> &'static str {
    match cause {
        DumpCause::Form => "line % form\n",
        DumpCause::Order => "line % order\n",
        DumpCause::Limit => "line % limit\n",
        DumpCause::Dangling => "line % dangling\n",
    }
}

// Adds why the bytes are no dump.
fn push_fault(fault: DumpFault, out: &mut String) -> Result<(), Fault> {
    match fault {
        DumpFault::Line { number, cause } => push_filled(said_of_line(cause), &[number], out),
        DumpFault::Memory(_) => Err(refuse("no memory")),
    }
}

// How many fields and how many bytes the objects of a dump have.
fn sums(dump: &Dump) -> (u64, u64) {
    let mut fields = 0u64;
    let mut bytes = 0u64;
    for at in 0..dump.object_count() {
        let object = dump.object(at);
        fields = fields.saturating_add(object.fields.len() as u64);
        bytes = bytes.saturating_add(object.bytes.len() as u64);
    }
    (fields, bytes)
}

// Adds how much a dump has: its next identity, objects, their fields and bytes, and names.
fn push_counts(dump: &Dump, out: &mut String) -> Result<(), Fault> {
    let (fields, bytes) = sums(dump);
    let objects = dump.object_count() as u64;
    let names = dump.roots().len() as u64;
    let numbers = [dump.next(), objects, fields, bytes, names];
    push_filled("next % objects % fields % bytes % names %\n", &numbers, out)
}

// Adds an object.
fn push_object(object: DumpObject<'_>, out: &mut String) -> Result<(), Fault> {
    push_filled("% ", &[object.id as u64], out)?;
    push_value(&object.fields, out)?;
    push_words(" ", out)?;
    push_value_line(&object.bytes, out)
}

// Adds a name.
fn push_root(root: &DumpRoot, out: &mut String) -> Result<(), Fault> {
    push_value(&root.name.as_slice(), out)?;
    push_filled(" %\n", &[root.id as u64], out)
}

// Adds each object of a dump.
fn push_objects(dump: &Dump, out: &mut String) -> Result<(), Fault> {
    for at in 0..dump.object_count() {
        push_object(dump.object(at), out)?;
    }
    Ok(())
}

// Adds each object and each name of a dump.
fn push_all(dump: &Dump, out: &mut String) -> Result<(), Fault> {
    push_objects(dump, out)?;
    for root in dump.roots() {
        push_root(root, out)?;
    }
    Ok(())
}

// Adds how much a dump has, and then all of it if it is wanted whole.
fn push_found(dump: &Dump, whole: bool, out: &mut String) -> Result<(), Fault> {
    push_counts(dump, out)?;
    if whole { push_all(dump, out) } else { Ok(()) }
}

// Reads bytes, and adds what they say.
fn push_read(alloc: Global, bytes: &[u8], whole: bool, out: &mut String) -> Result<(), Fault> {
    if bytes.len() > SOURCE_BYTES {
        return Err(refuse("too long"));
    }
    match read_dump(alloc, bytes) {
        Ok(dump) => push_found(&dump, whole, out),
        Err(fault) => push_fault(fault, out),
    }
}

/// `DUMP`: how much the dump has, or why it is none; and then each object and each name if it is wanted whole.
pub(crate) fn push_dump(
    alloc: Global,
    text: &str,
    whole: bool,
    out: &mut String,
) -> Result<(), Fault> {
    let bytes = lines(alloc, text)?;
    push_read(alloc, bytes.as_slice(), whole, out)
}

/// `DUMP`: how much the dump has without its last newline.
pub(crate) fn push_cut_dump(alloc: Global, text: &str, out: &mut String) -> Result<(), Fault> {
    let mut bytes = lines(alloc, text)?;
    bytes.pop();
    push_read(alloc, bytes.as_slice(), false, out)
}
