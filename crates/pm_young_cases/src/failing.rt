//! Runs over a disk that fails, and what they leave.

use crate::commands::push_script;
use pm_case_text::{Fault, Texts, push_filled, push_words, refuse};
use pm_disk::{DiskCall, MemDisk};
use pm_script::YoungLine;
use std::alloc::Global;

// More writes than this have too many images.
const MOST_WRITES: u64 = 10;

/// What is run.
#[derive(Clone, Copy)]
pub(crate) struct Run<'a> {
    /// The bytes that it finds on the disk.
    pub(crate) disk: &'a [u8],
    /// The lines that are run.
    pub(crate) lines: &'a [YoungLine],
    /// With what each image is looked at.
    pub(crate) look: &'a [YoungLine],
}

/// Runs the lines over a disk that fails the call of this number alone, and adds what that gives, a line; no call has the
/// number 0.
pub(crate) fn push_over(
    alloc: Global,
    run: &Run,
    call: u64,
    out: &mut String,
) -> Result<MemDisk, Fault> {
    let fails = vec![in alloc; call]?;
    let disk = MemDisk::new(run.disk.to_vec(alloc)?, fails);
    let disk = push_script(alloc, disk, run.lines, out)?;
    push_words("\n", out)?;
    Ok(disk)
}

// How many calls of the disk are made where none fails.
fn calls_of(alloc: Global, run: &Run) -> Result<u64, Fault> {
    let mut unseen = String::new(alloc);
    let disk = push_over(alloc, run, 0, &mut unseen)?;
    Ok(disk.calls().len() as u64)
}

/// How many calls opening makes of a disk with these bytes.
pub(crate) fn calls_of_opening(alloc: Global, disk: &[u8]) -> Result<u64, Fault> {
    let run = Run {
        disk,
        lines: &[],
        look: &[],
    };
    calls_of(alloc, &run)
}

// How many writes there are since the last sync behind this call, of so many before it.
fn behind(call: &DiskCall, writes: u64) -> u64 {
    match call {
        DiskCall::Write { .. } => writes.saturating_add(1),
        DiskCall::Sync => 0,
        DiskCall::Len | DiskCall::Read { .. } => writes,
    }
}

// How many writes the first calls of a disk made since their last sync.
fn unsynced(calls: &[DiskCall], first: usize) -> u64 {
    let mut writes = 0u64;
    for call in calls.get(..first).unwrap_or(calls) {
        writes = behind(call, writes);
    }
    writes
}

// Counts what the look gives on an image.
fn note_look(
    alloc: Global,
    image: Vec<u8>,
    look: &[YoungLine],
    texts: &mut Texts,
) -> Result<(), Fault> {
    let mut text = String::new(alloc);
    let disk = MemDisk::new(image, Vec::new(alloc));
    push_script(alloc, disk, look, &mut text)?;
    texts.note(text)
}

// Counts what the look gives on each of the first images of a disk.
fn note_images(
    alloc: Global,
    disk: &MemDisk,
    picks: u64,
    look: &[YoungLine],
    texts: &mut Texts,
) -> Result<(), Fault> {
    for pick in 0..picks {
        let image = disk.image(alloc, pick)?;
        note_look(alloc, image, look, texts)?;
    }
    Ok(())
}

// Adds what the look gives on each image that a crash leaves after so many calls of a disk, and of how many images.
fn push_images(
    alloc: Global,
    disk: &MemDisk,
    made: usize,
    look: &[YoungLine],
    out: &mut String,
) -> Result<(), Fault> {
    let writes = unsynced(disk.calls(), made);
    if writes > MOST_WRITES {
        return Err(refuse("too many images"));
    }
    let mut texts = Texts::new(alloc);
    note_images(alloc, disk, 1u64 << writes, look, &mut texts)?;
    texts.push(out)
}

// Runs over a disk that fails the call behind so many alone, and adds what that gives, and what the look gives on each
// image that a crash there may leave.
fn push_failing(alloc: Global, run: &Run, made: u64, out: &mut String) -> Result<(), Fault> {
    let disk = push_over(alloc, run, made.saturating_add(1), out)?;
    push_images(alloc, &disk, made as usize, run.look, out)
}

// The same for each number of calls made before. The first call that fails is told by the number 1.
fn push_each(
    alloc: Global,
    run: &Run,
    first: u64,
    last: u64,
    out: &mut String,
) -> Result<(), Fault> {
    for made in first..last {
        let number = made.saturating_sub(first).saturating_add(1);
        push_filled("call %: ", &[number], out)?;
        push_failing(alloc, run, made, out)?;
    }
    Ok(())
}

/// Runs the lines for each call of the disk behind those of the opening, over a disk that fails that call alone. Adds the
/// call's number behind the opening, from 1, and what that run gives, and, a line for each that is different, how often the
/// look gives it, on the images that a crash at that call may leave.
pub(crate) fn push_failings(alloc: Global, run: &Run, out: &mut String) -> Result<(), Fault> {
    let first = calls_of_opening(alloc, run.disk)?;
    let last = calls_of(alloc, run)?;
    push_each(alloc, run, first, last, out)
}
