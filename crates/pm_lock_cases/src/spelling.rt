//! How the lines of a case are spelled.

use pm_case_text::{Fault, refuse, script_text, small};
use pm_script::{Script, read_script};
use std::alloc::Global;

// Adds the number of a worker.
fn push_worker(workers: &mut Vec<u32>, word: &str) -> Result<(), Fault> {
    Ok(workers.push(small(word)?)?)
}

// Adds numbers of workers, with a space between each two.
fn push_workers(workers: &mut Vec<u32>, text: &str) -> Result<(), Fault> {
    for word in text.split(' ') {
        push_worker(workers, word)?;
    }
    Ok(())
}

/// Numbers of workers, with a space between each two.
pub(crate) fn workers(alloc: Global, text: &str) -> Result<Vec<u32>, Fault> {
    let mut workers = Vec::new(alloc);
    push_workers(&mut workers, text)?;
    Ok(workers)
}

/// The script whose lines ` / ` stands between.
pub(crate) fn script(alloc: Global, text: &str) -> Result<Script, Fault> {
    let lines = script_text(alloc, text)?;
    read_script(alloc, lines.as_slice())
        .ok()
        .ok_or(refuse("no script"))
}
