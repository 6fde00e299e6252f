//! What is told of registers and of names.

use pm_case_text::{Fault, push_text, push_words};
use pm_space::Space;
use pm_walk::{object_text, root_text};
use std::alloc::Global;

// Adds a line that is told, or that there is none.
fn push_line(line: Option<Vec<u8>>, out: &mut String) -> Result<(), Fault> {
    match line {
        Some(line) => push_text(line.as_slice(), out),
        None => push_words("none\n", out),
    }
}

// Adds what registers 1 and 2 of clients 0 and 1 hold.
fn push_registers<F>(space: &Space<F>, alloc: Global, out: &mut String) -> Result<(), Fault> {
    push_line(object_text(alloc, space, 0, 1)?, out)?;
    push_line(object_text(alloc, space, 0, 2)?, out)?;
    push_line(object_text(alloc, space, 1, 1)?, out)?;
    push_line(object_text(alloc, space, 1, 2)?, out)
}

// Adds the names at places 0 to 2.
fn push_names<F>(space: &Space<F>, alloc: Global, out: &mut String) -> Result<(), Fault> {
    push_line(root_text(alloc, space, 0)?, out)?;
    push_line(root_text(alloc, space, 1)?, out)?;
    push_line(root_text(alloc, space, 2)?, out)
}

/// Adds what registers 1 and 2 of clients 0 and 1 hold, and the names at places 0 to 2.
pub(crate) fn push_texts<F>(
    space: &Space<F>,
    alloc: Global,
    out: &mut String,
) -> Result<(), Fault> {
    push_registers(space, alloc, out)?;
    push_names(space, alloc, out)
}
