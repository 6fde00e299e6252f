//! A line of the input: a case's name, or a step.

use crate::dumps::{push_cut_dump, push_dump};
use crate::parts::{push_asked_of_long, push_long, push_parts, push_takes};
use crate::values::{push_copies, push_digest, push_name, push_register, push_room};
use crate::young_scripts::{push_cut_young, push_young};
use pm_case_text::{Count, Fault, first_word, is_silent, push_case, refuse, written_out};
use std::alloc::Global;

// A step on one value, which is written out: its first word, and what follows.
fn push_value(alloc: Global, step: &str, text: &str, out: &mut String) -> Result<(), Fault> {
    match step {
        "name" => push_name(alloc, text, out),
        "register" => push_register(text, out),
        "room" => push_room(text, out),
        "sha256" => push_digest(alloc, text, out),
        "copies" => push_copies(alloc, out),
        _ => Err(refuse("no such step")),
    }
}

// Takes a step on one value, once it is written out.
fn push_written(alloc: Global, step: &str, text: &str, out: &mut String) -> Result<(), Fault> {
    let text = written_out(alloc, text, Count::None)?;
    push_value(alloc, step, text.as_str(), out)
}

// A step: its first word, and what follows.
fn push_step(alloc: Global, step: &str, text: &str, out: &mut String) -> Result<(), Fault> {
    match step {
        "case" => push_case(text, out),
        "parts" => push_parts(alloc, text, out),
        "takes" => push_takes(alloc, text, out),
        "long" => push_long(alloc, text, out),
        "asked" => push_asked_of_long(alloc, text, out),
        "read" => push_dump(alloc, text, false, out),
        "all" => push_dump(alloc, text, true, out),
        "cut" => push_cut_dump(alloc, text, out),
        "young" | "young-count" => push_young(alloc, text, step == "young", out),
        "young-cut" => push_cut_young(alloc, text, out),
        _ => push_written(alloc, step, text, out),
    }
}

/// Takes a line of the input, and adds what it gives. A line that begins with `#`, and one that is empty, say nothing.
pub fn take(alloc: Global, line: &str, out: &mut String) -> Result<(), Fault> {
    if is_silent(line) {
        return Ok(());
    }
    let (step, text) = first_word(line);
    push_step(alloc, step, text, out)
}
