//! Calls of a disk over a file of a system that writes down each call.

use crate::file_cases::disks::{Calls, push_call};
use crate::file_cases::fake_files::FakeFiles;
use crate::file_cases::system::System;
use pm_case_text::{CallsOf, Fault, first_word, push_calls, push_words, refuse};
use pm_file::FileDisk;
use std::alloc::Global;
use std::fmt::Write;

// A disk over the file of a system.
#[derive(Drop)]
struct Over<'a> {
    system: &'a System,
    disk: FileDisk<FakeFiles<'a>>,
}

/// Descriptors that are open: the last digit is 1 where descriptor 0 is, the one before it where descriptor 1 is, and
/// so on.
pub(crate) fn opened(digits: &str) -> Result<u32, Fault> {
    u32::from_str_radix(digits, 2)
        .ok()
        .ok_or(refuse("no descriptors"))
}

/// Adds the descriptors that are open, as `opened` reads them.
pub(crate) fn push_descriptors(system: &System, out: &mut String) -> Result<(), Fault> {
    let open = system.open();
    Ok(write!(out, "{open:b}")?)
}

// Adds what was asked of the system since this was added last.
fn push_heard(system: &System, out: &mut String) -> Result<(), Fault> {
    match system.calls() {
        Ok(calls) => Ok(write!(out, " ({calls})")?),
        Err(_) => Err(refuse("busy")),
    }
}

// A call of the disk, and what the system was asked by it.
fn push_asked(
    alloc: Global,
    over: &mut Over,
    call: &str,
    text: &str,
    out: &mut String,
) -> Result<(), Fault> {
    push_call(alloc, &mut over.disk, call, text, out)?;
    push_heard(over.system, out)
}

// The call of the system that fails from here on.
fn push_fail(alloc: Global, system: &System, call: &str, out: &mut String) -> Result<(), Fault> {
    match system.fail(String::from_str(alloc, call)?) {
        Ok(()) => push_words("ok", out),
        Err(_) => Err(refuse("busy")),
    }
}

impl<'a> CallsOf<Over<'a>> for Calls {
    // A call: one of any disk, `fail`, or `open`.
    fn call(
        alloc: Global,
        called: &mut Over<'a>,
        text: &str,
        out: &mut String,
    ) -> Result<(), Fault> {
        let (call, rest) = first_word(text);
        match call {
            "fail" => push_fail(alloc, called.system, rest, out),
            "open" => push_descriptors(called.system, out),
            _ => push_asked(alloc, called, call, rest, out),
        }
    }
}

/// `PATH CALLS`: the calls, between ` / `, of a new disk over the file of a system by this path. Behind the answer of
/// each call of the disk stands what the system was asked. Behind the last call the disk is closed.
pub(crate) fn push_disk(
    alloc: Global,
    system: &System,
    text: &str,
    out: &mut String,
) -> Result<(), Fault> {
    let (path, calls) = first_word(text);
    let disk = FileDisk::at(FakeFiles { system }, alloc, path)?;
    push_calls::<Calls, _>(alloc, &mut Over { system, disk }, calls, out)
}
