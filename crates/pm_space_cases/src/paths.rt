//! Paths that are found in a space, and others that are none.

use pm_case_text::{Fault, push_filled, push_text, push_words, refuse};
use pm_space::Space;
use pm_types::{Id, Name};
use pm_walk::paths::{Path, PathStep, check_path, find_path, path_text};
use std::alloc::Global;

// How many changes a path of so many steps has: one of each index, one of each identity, six of the whole, and one more
// where there are two steps to turn round.
fn changes(steps: usize) -> usize {
    steps
        .saturating_mul(2)
        .saturating_add(if steps > 1 { 7 } else { 6 })
}

// Changes the whole of the steps: the first is missing, the last is missing, the last stands there twice, there is none,
// or each stands where the one as far from the other end stood. Other numbers change none.
fn change_whole(steps: &mut Vec<PathStep>, number: usize) -> Result<(), Fault> {
    match number {
        0 if !steps.is_empty() => {
            steps.remove(0);
        }
        1 => {
            steps.pop();
        }
        2 => if let Some(step) = steps.last().copied() {
            steps.push(step)?;
        },
        3 => steps.clear(),
        6 => steps.reverse(),
        _ => {}
    }
    Ok(())
}

// Changes the steps: the index or the identity of one is one more, or the whole changes.
fn change(steps: &mut Vec<PathStep>, number: usize) -> Result<(), Fault> {
    let count = steps.len();
    if let Some(step) = steps.get_mut(number) {
        step.index = step.index.wrapping_add(1);
    } else if let Some(step) = steps.get_mut(number.saturating_sub(count)) {
        step.id = step.id.wrapping_add(1);
    } else {
        change_whole(steps, number.saturating_sub(count).saturating_sub(count))?;
    }
    Ok(())
}

// The path with a change. Change 4 behind those of the steps is a name that is not bound.
fn changed(alloc: Global, path: &Path, number: usize) -> Result<Path, Fault> {
    let mut steps = path.steps().to_vec(alloc)?;
    change(&mut steps, number)?;
    let whole = path.steps().len().saturating_mul(2);
    let name = if number == whole.saturating_add(4) {
        b"unbound"
    } else {
        path.name().as_slice()
    };
    let name = Name::read(alloc, name).ok().ok_or(refuse("Step"))?;
    Ok(Path::new(name, steps))
}

// Whether the path with a change is accepted. Change 5 behind those of the steps asks for the next identity.
fn is_accepted<F>(
    space: &Space<F>,
    alloc: Global,
    id: Id,
    path: &Path,
    number: usize,
) -> Result<bool, Fault> {
    let whole = path.steps().len().saturating_mul(2);
    let asked = if number == whole.saturating_add(5) {
        id.wrapping_add(1)
    } else {
        id
    };
    Ok(check_path(space, asked, &changed(alloc, path, number)?))
}

// How many of the first changes are refused.
fn refused<F>(
    space: &Space<F>,
    alloc: Global,
    id: Id,
    path: &Path,
    changes: usize,
) -> Result<u64, Fault> {
    let mut refused = 0u64;
    for number in 0..changes {
        if !is_accepted(space, alloc, id, path, number)? {
            refused = refused.saturating_add(1);
        }
    }
    Ok(refused)
}

// Adds a path, whether it is accepted, and how many of those with a change are refused.
fn push_path<F>(
    space: &Space<F>,
    alloc: Global,
    id: Id,
    path: &Path,
    out: &mut String,
) -> Result<(), Fault> {
    push_text(path_text(alloc, path)?.as_slice(), out)?;
    let all = changes(path.steps().len());
    let refused = refused(space, alloc, id, path, all)?;
    let text = if check_path(space, id, path) {
        "accepted; changed, % of % refused\n"
    } else {
        "refused; changed, % of % refused\n"
    };
    push_filled(text, &[refused, all as u64], out)
}

// Adds how long a path is, and whether it is accepted.
fn push_length<F>(space: &Space<F>, id: Id, path: &Path, out: &mut String) -> Result<(), Fault> {
    let text = if check_path(space, id, path) {
        "% steps, accepted\n"
    } else {
        "% steps, refused\n"
    };
    push_filled(text, &[path.steps().len() as u64], out)
}

/// What is told of a path that is found.
#[derive(Clone, Copy)]
pub(crate) enum Found {
    /// The path, whether it is accepted, and how many of those with one change are refused.
    Whole,
    /// How long it is, and whether it is accepted.
    Length,
}

/// What is told of a path to this identity; or `none`.
pub(crate) fn push_found<F>(
    space: &Space<F>,
    alloc: Global,
    id: Id,
    found: Found,
    out: &mut String,
) -> Result<(), Fault> {
    match (&find_path(alloc, space, id)?, found) {
        (Some(path), Found::Whole) => push_path(space, alloc, id, path, out),
        (Some(path), Found::Length) => push_length(space, id, path, out),
        (None, _) => push_words("none\n", out),
    }
}
