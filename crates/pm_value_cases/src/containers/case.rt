//! A line of the input: a case's name, or a step.

use crate::containers::anchors::push_anchor;
use crate::containers::choosers::push_pick;
use crate::containers::numbers::push_numbered;
use crate::containers::nurseries::push_nursery;
use crate::containers::queues::push_queue;
use crate::containers::registers::push_registers;
use crate::containers::roots::push_roots;
use crate::containers::sets::{push_gathered, push_set};
use crate::containers::spelling::push_same;
use crate::containers::tables::push_table;
use crate::containers::trains::push_trains;
use crate::containers::{numbers, nurseries, queues, sets, trains};
use pm_case_text::{Fault, first_word, is_silent, push_case, refuse, small};
use pm_types::ROOTS;
use std::alloc::Global;

// A step: its first word, and what follows.
fn push_step(alloc: Global, step: &str, text: &str, out: &mut String) -> Result<(), Fault> {
    match step {
        "case" => push_case(text, out),
        "roots" => push_roots(alloc, 0, text, out),
        "names" => push_roots(alloc, ROOTS, text, out),
        "table" => push_table(alloc, text, out),
        "set" => push_set(alloc, text, out),
        "gathered" => push_gathered(alloc, text, out),
        _ => push_small(alloc, step, text, out),
    }
}

// A step about a container that is small.
fn push_small(alloc: Global, step: &str, text: &str, out: &mut String) -> Result<(), Fault> {
    match step {
        "queue" => push_queue(alloc, text, out),
        "registers" => push_registers(alloc, text, out),
        "anchor" => push_anchor(alloc, text, out),
        "pick" => push_pick(alloc, text, out),
        "numbered" => push_numbered(alloc, text, out),
        "trains" => push_trains(alloc, text, out),
        "nursery" => push_nursery(alloc, text, out),
        _ => push_long(alloc, step, text, out),
    }
}

// Whether a container answers right in so many calls.
fn is_right(alloc: Global, step: &str, count: u32, out: &mut String) -> Result<bool, Fault> {
    match step {
        "long-numbered" => numbers::is_long_right(alloc, count),
        "long-queue" => queues::is_long_right(alloc, count),
        "long-set" => sets::is_long_right(alloc, count, false),
        "long-gathered" => sets::is_long_right(alloc, count, true),
        "long-trains" => trains::is_long_right(alloc, count, out),
        "long-nursery" => nurseries::drawn::is_long_right(alloc, count, out),
        _ => Err(refuse("no such step")),
    }
}

// A step that makes so many calls of a container.
fn push_long(alloc: Global, step: &str, text: &str, out: &mut String) -> Result<(), Fault> {
    match small(text) {
        Ok(count) => {
            let right = is_right(alloc, step, count, out);
            push_same(right, out)
        }
        Err(_) => Err(refuse("no such step")),
    }
}

/// Takes a line of the input, and adds what it gives. A line that begins with `#`, and one that is empty, say nothing.
pub fn take(alloc: Global, line: &str, out: &mut String) -> Result<(), Fault> {
    if is_silent(line) {
        return Ok(());
    }
    let (step, text) = first_word(line);
    push_step(alloc, step, text, out)
}
