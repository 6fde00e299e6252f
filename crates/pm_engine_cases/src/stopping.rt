//! What a crash leaves.

use crate::chosen::Chosen;
use crate::running::push_run;
use pm_case_text::{Fault, Texts, push_filled, push_words, refuse};
use pm_disk::fuse::FuseDisk;
use pm_disk::{DiskCall, MemDisk};
use pm_script::Line;
use pm_types::PAGE_BYTES;
use std::alloc::Global;

// More writes than this have too many images.
const MOST_WRITES: u64 = 10;

/// What is run.
#[derive(Clone, Copy)]
pub(crate) struct Run<'a> {
    /// The bytes that it finds on the disk.
    pub(crate) disk: &'a [u8],
    /// The lines that are run.
    pub(crate) lines: &'a [Line],
    /// With what each image is looked at.
    pub(crate) look: &'a [Line],
    /// Behind so many lines each time the engine lets its entries go; never, for 0.
    pub(crate) forget: u64,
    /// Which train an object moves to.
    pub(crate) chosen: Chosen,
}

/// A disk with these bytes that fails the call of this number; no call has the number 0.
pub(crate) fn disk_of(alloc: Global, bytes: &[u8], call: u64) -> Result<MemDisk, Fault> {
    let fails = vec![in alloc; call]?;
    Ok(MemDisk::new(bytes.to_vec(alloc)?, fails))
}

/// Runs the lines over a disk that fails the call of this number, and adds what that gives, a line.
pub(crate) fn push_over(
    alloc: Global,
    run: &Run,
    call: u64,
    goes_on: bool,
    out: &mut String,
) -> Result<MemDisk, Fault> {
    let disk = disk_of(alloc, run.disk, call)?;
    let disk = push_run(alloc, disk, run.lines, goes_on, run.forget, run.chosen, out)?;
    push_words("\n", out)?;
    Ok(disk)
}

// How many calls of the disk are made where none fails.
fn calls_of(alloc: Global, run: &Run) -> Result<u64, Fault> {
    let mut unseen = String::new(alloc);
    let disk = push_over(alloc, run, 0, false, &mut unseen)?;
    Ok(disk.calls().len() as u64)
}

/// How many calls opening makes of a disk with these bytes.
pub(crate) fn opening(alloc: Global, disk: &[u8]) -> Result<u64, Fault> {
    let run = Run {
        disk,
        lines: &[],
        look: &[],
        forget: 0,
        chosen: Chosen::First,
    };
    calls_of(alloc, &run)
}

// How many writes there are since the last sync behind this call, of so many before it.
fn behind(call: &DiskCall, writes: u64) -> u64 {
    match call {
        DiskCall::Write { .. } => writes.saturating_add(1),
        DiskCall::Sync => 0,
        DiskCall::Len | DiskCall::Read { .. } => writes,
    }
}

// How many writes the first calls of a disk made since their last sync.
fn unsynced(calls: &[DiskCall], first: usize) -> u64 {
    let mut writes = 0u64;
    for call in calls.get(..first).unwrap_or(calls) {
        writes = behind(call, writes);
    }
    writes
}

// Counts what the look gives on an image.
fn note_look(alloc: Global, image: Vec<u8>, look: &[Line], texts: &mut Texts) -> Result<(), Fault> {
    let mut text = String::new(alloc);
    let disk = MemDisk::new(image, Vec::new(alloc));
    push_run(alloc, disk, look, false, 0, Chosen::First, &mut text)?;
    texts.note(text)
}

// Counts what the look gives on each of the first images of a disk.
fn note_images(
    alloc: Global,
    disk: &MemDisk,
    picks: u64,
    look: &[Line],
    texts: &mut Texts,
) -> Result<(), Fault> {
    for pick in 0..picks {
        let image = disk.image(alloc, pick)?;
        note_look(alloc, image, look, texts)?;
    }
    Ok(())
}

/// Adds what the look gives on each image that a crash leaves after so many calls of a disk, none of which failed, and of
/// how many images.
pub(crate) fn push_images(
    alloc: Global,
    disk: &MemDisk,
    made: usize,
    look: &[Line],
    out: &mut String,
) -> Result<(), Fault> {
    let writes = unsynced(disk.calls(), made);
    if writes > MOST_WRITES {
        return Err(refuse("too many images"));
    }
    let mut texts = Texts::new(alloc);
    note_images(alloc, disk, 1u64 << writes, look, &mut texts)?;
    texts.push(out)
}

// Runs over a disk that fails the call behind so many and each one from then on; and adds what that gives.
fn push_fused_at(alloc: Global, run: &Run, made: u64, out: &mut String) -> Result<(), Fault> {
    let disk = FuseDisk::new(disk_of(alloc, run.disk, 0)?, made);
    push_run(alloc, disk, run.lines, true, run.forget, run.chosen, out)?;
    push_words("\n", out)
}

// Runs over a disk that fails the call behind so many alone, and goes on with the next line after that; and adds what that
// gives.
fn push_failing_at(alloc: Global, run: &Run, made: u64, out: &mut String) -> Result<(), Fault> {
    push_over(alloc, run, made.saturating_add(1), true, out)?;
    Ok(())
}

// Runs over a disk that stops after so many calls; and adds what that gives, and what the look gives on each image that it
// may leave.
fn push_stop_at(alloc: Global, run: &Run, made: u64, out: &mut String) -> Result<(), Fault> {
    let disk = push_over(alloc, run, made.saturating_add(1), false, out)?;
    push_images(alloc, &disk, made as usize, run.look, out)
}

// The same of that step.
fn push_step_at(
    alloc: Global,
    step: &str,
    run: &Run,
    made: u64,
    out: &mut String,
) -> Result<(), Fault> {
    match step {
        "fails" => push_failing_at(alloc, run, made, out),
        "fuses" => push_fused_at(alloc, run, made, out),
        _ => push_stop_at(alloc, run, made, out),
    }
}

// The text before the number of calls, or of the call that fails.
fn before_number(step: &str) -> &'static str {
    if step == "fails" {
        "call %: "
    } else {
        "after %: "
    }
}

// Adds the same for each number of calls made before, behind those of the opening. The first call that fails is told by its
// own number, from 1.
fn push_each(
    alloc: Global,
    step: &str,
    run: &Run,
    opening: u64,
    end: u64,
    out: &mut String,
) -> Result<(), Fault> {
    let first = (step == "fails") as u64;
    for made in opening..end {
        let number = made.saturating_sub(opening).saturating_add(first);
        push_filled(before_number(step), &[number], out)?;
        push_step_at(alloc, step, run, made, out)?;
    }
    Ok(())
}

/// `fails`, `fuses` or `stops`: runs the lines for each call of the disk behind those of the opening, over a disk that
/// fails that call alone, or it and each one behind it, or stops there, and once more where all were made; and adds what
/// each of these runs gives, and what the look gives on each image that it may leave where it stops.
pub(crate) fn push_stops(
    alloc: Global,
    step: &str,
    run: &Run,
    out: &mut String,
) -> Result<(), Fault> {
    let opening = opening(alloc, run.disk)?;
    let calls = calls_of(alloc, run)?;
    let end = calls.saturating_add((step == "stops") as u64);
    push_each(alloc, step, run, opening, end, out)
}

// Adds one call of the disk: its kind, and for a write the page and the byte where it begins.
fn push_call(call: &DiskCall, out: &mut String) -> Result<(), Fault> {
    match call {
        DiskCall::Len => push_words(" len", out),
        DiskCall::Read { .. } => push_words(" read", out),
        DiskCall::Write { at, .. } => {
            let page_bytes = PAGE_BYTES as u64;
            push_filled(" write %:%", &[*at / page_bytes, *at % page_bytes], out)
        }
        DiskCall::Sync => push_words(" sync", out),
    }
}

// Adds these calls.
fn push_each_call(calls: &[DiskCall], out: &mut String) -> Result<(), Fault> {
    for call in calls {
        push_call(call, out)?;
    }
    Ok(())
}

/// Adds the calls of a disk but the first ones: a write with its page and the byte where it begins.
pub(crate) fn push_calls(disk: &MemDisk, first: u64, out: &mut String) -> Result<(), Fault> {
    push_words("calls", out)?;
    push_each_call(disk.calls().get(first as usize..).unwrap_or(&[]), out)?;
    push_words("\n", out)
}
