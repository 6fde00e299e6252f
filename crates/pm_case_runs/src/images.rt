//! A script that is run on the images of a disk.

use crate::failing::push_look;
use crate::running::{RunEnd, run_script};
use pm_case_text::told::RUN;
use pm_case_text::{Fault, numbered, push_filled, push_lines};
use std::alloc::Global;
use std::sync::Wait;
use std::thread::Threads;

// The script of these lines.
fn script_of(alloc: Global, lines: &str) -> Result<Vec<u8>, Fault> {
    let mut script = Vec::new(alloc);
    push_lines(&mut script, lines)?;
    Ok(script)
}

/// How many calls opening makes of a disk that holds these bytes.
pub fn opening<R: AllocGlobal + Threads + Wait + Sync>(rt: &R, disk: &[u8]) -> Result<u64, Fault> {
    let ended = run_script(rt, disk, RUN, &[])?;
    Ok(ended.disk.calls().len() as u64)
}

// Adds what a script gives on the image of the last run's disk that this pick chooses.
fn push_image<R: AllocGlobal + Threads + Wait + Sync>(
    rt: &R,
    last: &RunEnd,
    pick: u64,
    script: &[u8],
    out: &mut String,
) -> Result<(), Fault> {
    push_filled("image %: ", &[pick], out)?;
    let image = last.disk.image(rt.alloc(), pick)?;
    push_look(rt, script, image.as_slice(), out)
}

// Adds what a script gives on each image of the last run's disk whose pick is below this number.
fn push_each<R: AllocGlobal + Threads + Wait + Sync>(
    rt: &R,
    last: &RunEnd,
    picks: u64,
    script: &[u8],
    out: &mut String,
) -> Result<(), Fault> {
    for pick in 0..picks {
        push_image(rt, last, pick, script, out)?;
    }
    Ok(())
}

/// `N LINES`: adds what the lines give on each image of the last run's disk whose pick is below N.
pub fn push_images<R: AllocGlobal + Threads + Wait + Sync>(
    rt: &R,
    last: &RunEnd,
    text: &str,
    out: &mut String,
) -> Result<(), Fault> {
    let (picks, lines) = numbered(text)?;
    let script = script_of(rt.alloc(), lines)?;
    push_each(rt, last, picks, script.as_slice(), out)
}
