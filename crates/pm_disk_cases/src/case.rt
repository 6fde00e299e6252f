//! A case: its steps, one a line.

ghost use Rattle.std.specs.Prelude.{◌≡◌, length};
ghost use Rattle.pm_types.specs.declared.limits.TheConstants.{PAGE_BYTES};

use crate::cars::{push_car, push_car_in, push_old_car, push_slots};
use crate::catalogs::{push_catalog, push_catalog_in, push_entries};
use crate::disks::push_disk;
use crate::headers::{push_digest, push_header, seal};
use crate::peers::{push_asks, push_peer};
use crate::slots::{push_end, push_old_cut, push_slot};
use crate::streams::{push_reader, push_sink, push_source, push_writer};
use pm_case_text::{
    Count, Fault, first_word, is_silent, patch, push_case, raw_bytes, refuse, written_out,
};
use pm_types::{FIELDS, OLD_FIELDS, PAGE_BYTES};
use std::alloc::Global;

/// What a case has come to.
#[derive(Drop)]
pub struct Case {
    /// The bytes that are read.
    bytes: Vec<u8>,
}

// A step that calls a disk or a stream, or another one.
fn push_step(
    alloc: Global,
    all: &[u8],
    step: &str,
    text: &str,
    out: &mut String,
) -> Result<(), Fault> {
    match step {
        "disk" => push_disk(alloc, text, false, out),
        "fuse" => push_disk(alloc, text, true, out),
        "source" => push_source(alloc, text, out),
        "sink" => push_sink(alloc, text, out),
        "reader" => push_reader(alloc, text, out),
        "writer" => push_writer(alloc, text, out),
        "peer" => push_peer(alloc, text, out),
        "asks" => push_asks(alloc, text, out),
        _ => push_read(alloc, all, step, text, out),
    }
}

// A step that reads bytes.
fn push_read(
    alloc: Global,
    all: &[u8],
    step: &str,
    text: &str,
    out: &mut String,
) -> Result<(), Fault> {
    match step {
        "digest" => push_digest(alloc, text, out),
        "slot" => push_slot(alloc, all, text, out),
        "old-cut" => push_old_cut(alloc, all, text, out),
        "car-in" => push_car_in(alloc, all, text, out),
        "catalog-in" => push_catalog_in(alloc, all, text, out),
        _ => push_patched(alloc, all, step, text, out),
    }
}

// A step that reads the bytes with a patch where there is one.
fn push_patched(
    alloc: Global,
    all: &[u8],
    step: &str,
    text: &str,
    out: &mut String,
) -> Result<(), Fault> {
    let mut copy = all.to_vec(alloc)?;
    if !text.is_empty() {
        patch(alloc, copy.as_mut_slice(), text)?;
    }
    push_damaged(alloc, copy.as_slice(), step, out)
}

// A step that reads bytes that have their patch.
fn push_damaged(alloc: Global, all: &[u8], step: &str, out: &mut String) -> Result<(), Fault> {
    match step {
        "slot-end" => push_end(alloc, all, FIELDS, out),
        "old-slot" => push_end(alloc, all, OLD_FIELDS, out),
        "header" => push_header(alloc, all, out),
        _ if all.len() == PAGE_BYTES => push_page(alloc, all, step, out),
        _ => Err(refuse("no such step, or no page")),
    }
}

// A step that reads a page.
fn push_page(alloc: Global, page: &[u8], step: &str, out: &mut String) -> Result<(), Fault>
    requires { length page.now ≡ PAGE_BYTES }
{
    match step {
        "car" => push_car(alloc, page, out),
        "old-car" => push_old_car(alloc, page, out),
        "slots" => push_slots(alloc, page, out),
        "catalog" => push_catalog(alloc, page, out),
        "entries" => push_entries(alloc, page, out),
        _ => Err(refuse("no such step")),
    }
}

impl Case {
    /// A case that has just begun: no byte.
    pub fn new(alloc: Global) -> Case {
        Case {
            bytes: Vec::new(alloc),
        }
    }

    // Begins the case of this name.
    fn begin(&mut self, alloc: Global, name: &str, out: &mut String) -> Result<(), Fault> {
        self.bytes = Vec::new(alloc);
        push_case(name, out)
    }

    // The bytes are these, and zeros behind them up to so many.
    fn lay(&mut self, alloc: Global, text: &str, count: usize) -> Result<(), Fault> {
        self.bytes = raw_bytes(alloc, text)?;
        if self.bytes.len() < count {
            self.bytes.resize(count, 0)?;
        }
        Ok(())
    }

    // A step that says what is read, or another one: its first word, and what follows.
    fn step(&mut self, alloc: Global, line: &str, out: &mut String) -> Result<(), Fault> {
        let (step, text) = first_word(line);
        match step {
            "case" => self.begin(alloc, text, out),
            "bytes" => self.lay(alloc, text, 0),
            "page" => self.lay(alloc, text, PAGE_BYTES),
            "put" => patch(alloc, self.bytes.as_mut_slice(), text),
            "seal" => seal(self.bytes.as_mut_slice()),
            _ => push_step(alloc, self.bytes.as_slice(), step, text, out),
        }
    }

    /// Takes a line of the input, and adds what it gives. A line that begins with `#`, and one that is empty, say
    /// nothing.
    pub fn take(&mut self, alloc: Global, line: &str, out: &mut String) -> Result<(), Fault> {
        if is_silent(line) {
            return Ok(());
        }
        let line = written_out(alloc, line, Count::Bytes)?;
        self.step(alloc, line.as_str(), out)
    }
}
