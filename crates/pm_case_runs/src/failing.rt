//! Runs of one script whose disk, source or sink fails at each of its calls in turn.

use crate::ends::push_counts;
use crate::running::{RunEnd, run, run_script};
use crate::shown::push_run_in_line;
use pm_case_text::told::{RUN, Setting};
use pm_case_text::{Fault, Texts, push_filled, refuse};
use pm_disk::{DiskCall, MemDisk};
use std::alloc::Global;
use std::sync::Wait;
use std::thread::Threads;

// More runs than this are not made.
const MOST_RUNS: u64 = 1000;

/// What is run again and again.
#[derive(Drop)]
pub struct Repeated<'a> {
    // With what each run begins, but for what fails.
    setting: Setting,
    // The bytes that each run finds on the disk.
    disk: &'a [u8],
    // The script with which the disk is looked at afterwards.
    look: &'a [u8],
}

impl Repeated<'_> {
    /// What was said of the next run so far and these lines, over disks that hold these bytes, and the look. Nothing is
    /// said of the next run then.
    pub fn new<'a>(
        alloc: Global,
        said: &mut Setting,
        lines: &str,
        disk: &'a [u8],
        other: &[u8],
        look: &'a [u8],
    ) -> Result<Repeated<'a>, Fault> {
        let setting = said.take(alloc, lines, other)?;
        Ok(Repeated {
            setting,
            disk,
            look,
        })
    }
}

/// Adds what the look gives on a disk of these bytes, as one line.
pub(crate) fn push_look<R: AllocGlobal + Threads + Wait + Sync>(
    rt: &R,
    look: &[u8],
    disk: &[u8],
    out: &mut String,
) -> Result<(), Fault> {
    let ended = run_script(rt, disk, RUN, look)?;
    push_run_in_line(rt.alloc(), &ended, out)
}

// Adds what a run gives, as one line behind its number.
fn push_numbered(alloc: Global, number: u64, run: &RunEnd, out: &mut String) -> Result<(), Fault> {
    push_filled("%: ", &[number], out)?;
    push_run_in_line(alloc, run, out)
}

// Counts what the look gives on one image.
fn count_image<R: AllocGlobal + Threads + Wait + Sync>(
    rt: &R,
    look: &[u8],
    image: &[u8],
    texts: &mut Texts,
) -> Result<(), Fault> {
    let mut text = String::new(rt.alloc());
    push_look(rt, look, image, &mut text)?;
    text.pop();
    texts.note(text)
}

// Counts what the look gives on the images of a disk that the picks below this number choose.
fn count_images<R: AllocGlobal + Threads + Wait + Sync>(
    rt: &R,
    look: &[u8],
    disk: &MemDisk,
    picks: u64,
    texts: &mut Texts,
) -> Result<(), Fault> {
    for pick in 0..picks {
        let image = disk.image(rt.alloc(), pick)?;
        count_image(rt, look, image.as_slice(), texts)?;
    }
    Ok(())
}

// Adds what the look gives on these images.
fn push_looks<R: AllocGlobal + Threads + Wait + Sync>(
    rt: &R,
    look: &[u8],
    disk: &MemDisk,
    picks: u64,
    out: &mut String,
) -> Result<(), Fault> {
    let mut texts = Texts::new(rt.alloc());
    count_images(rt, look, disk, picks, &mut texts)?;
    texts.push(out)
}

// Adds what a run over this fuse gave, and what the look gives on the images that it left; whether it ended with 0.
fn push_fused<R: AllocGlobal + Threads + Wait + Sync>(
    rt: &R,
    look: &[u8],
    passes: u64,
    picks: u64,
    run: &RunEnd,
    out: &mut String,
) -> Result<bool, Fault> {
    push_numbered(rt.alloc(), passes, run, out)?;
    push_looks(rt, look, &run.disk, picks, out)?;
    Ok(run.status == 0)
}

// Runs over a fuse that passes so many calls on.
fn run_fused<R: AllocGlobal + Threads + Wait + Sync>(
    rt: &R,
    repeated: &Repeated,
    passes: u64,
) -> Result<RunEnd, Fault> {
    let mut setting = repeated.setting.again(rt.alloc())?;
    setting.passes = passes;
    run(rt, repeated.disk, setting)
}

// Does so, and adds what that gave, and what the look gives on the images that it left; whether it ended with 0.
fn push_fuse<R: AllocGlobal + Threads + Wait + Sync>(
    rt: &R,
    repeated: &Repeated,
    passes: u64,
    picks: u64,
    out: &mut String,
) -> Result<bool, Fault> {
    let run = run_fused(rt, repeated, passes)?;
    push_fused(rt, repeated.look, passes, picks, &run, out)
}

/// Runs over a fuse that passes no call on, one call, and so on, until a run ends with 0, and adds what each of them
/// gives and what the look gives on the images that it leaves.
pub fn push_fuses<R: AllocGlobal + Threads + Wait + Sync>(
    rt: &R,
    repeated: &Repeated,
    picks: u64,
    out: &mut String,
) -> Result<(), Fault> {
    for passes in 0..MOST_RUNS {
        if push_fuse(rt, repeated, passes, picks, out)? {
            return Ok(());
        }
    }
    Err(refuse("no run ends with 0"))
}

// Whether a call is a write.
fn is_write(call: &DiskCall) -> bool {
    matches!(call, DiskCall::Write { .. })
}

// The number of the write of this number among these calls, or 0, which no call has.
fn write_at(calls: &[DiskCall], wanted: u64) -> u64 {
    let mut writes = 0u64;
    let mut number = 0u64;
    for call in calls {
        number = number.saturating_add(1);
        if is_write(call) {
            writes = writes.saturating_add(1);
        }
        if writes == wanted {
            return number;
        }
    }
    0
}

// The number of the call that is the write of this number, or 0, which no call has.
fn number_of_write<R: AllocGlobal + Threads + Wait + Sync>(
    rt: &R,
    repeated: &Repeated,
    write: u64,
) -> Result<u64, Fault> {
    let setting = repeated.setting.again(rt.alloc())?;
    let whole = run(rt, repeated.disk, setting)?;
    Ok(write_at(whole.disk.calls(), write))
}

// The number of the call that fails in this turn: that of the turn, or where writes fail of the write of that number.
fn call_at<R: AllocGlobal + Threads + Wait + Sync>(
    rt: &R,
    repeated: &Repeated,
    part: &str,
    turn: u64,
) -> Result<u64, Fault> {
    if part == "writes" {
        number_of_write(rt, repeated, turn)
    } else {
        Ok(turn)
    }
}

// With what a run begins whose part fails its call of this number.
fn failing(alloc: Global, repeated: &Repeated, part: &str, call: u64) -> Result<Setting, Fault> {
    let mut setting = repeated.setting.again(alloc)?;
    setting.set_fails(part, vec![in alloc; call]?);
    Ok(setting)
}

// Adds how many bytes were written, and whether the disk was called.
fn push_written(written: usize, called: bool, out: &mut String) -> Result<(), Fault> {
    let text = if called {
        "- % written, disk called"
    } else {
        "- % written, disk not called"
    };
    push_filled(text, &[written as u64], out)
}

// Adds the same of a run, and the counts of failed calls, where its end tells them.
fn push_marks(run: &RunEnd, out: &mut String) -> Result<(), Fault> {
    push_written(run.written().len(), !run.disk.calls().is_empty(), out)?;
    push_counts(&run.detail, out)
}

// Adds what a run gave whose call of a part failed, and what the look gives afterwards; whether it ended with 0.
fn push_failed<R: AllocGlobal + Threads + Wait + Sync>(
    rt: &R,
    look: &[u8],
    turn: u64,
    run: &RunEnd,
    out: &mut String,
) -> Result<bool, Fault> {
    push_numbered(rt.alloc(), turn, run, out)?;
    push_marks(run, out)?;
    push_look(rt, look, run.disk(), out)?;
    Ok(run.status == 0)
}

// Runs over parts of which one fails at its call of this turn.
fn run_failing<R: AllocGlobal + Threads + Wait + Sync>(
    rt: &R,
    repeated: &Repeated,
    part: &str,
    turn: u64,
) -> Result<RunEnd, Fault> {
    let call = call_at(rt, repeated, part, turn)?;
    let setting = failing(rt.alloc(), repeated, part, call)?;
    run(rt, repeated.disk, setting)
}

// Does so, and adds what that gave, and what the look gives afterwards; whether it ended with 0.
fn push_failing<R: AllocGlobal + Threads + Wait + Sync>(
    rt: &R,
    repeated: &Repeated,
    part: &str,
    turn: u64,
    out: &mut String,
) -> Result<bool, Fault> {
    let run = run_failing(rt, repeated, part, turn)?;
    push_failed(rt, repeated.look, turn, &run, out)
}

// Does so for its first call, then for its second one, and so on, until a run ends with 0.
fn push_each_failing<R: AllocGlobal + Threads + Wait + Sync>(
    rt: &R,
    repeated: &Repeated,
    part: &str,
    out: &mut String,
) -> Result<(), Fault> {
    for turn in 1..=MOST_RUNS {
        if push_failing(rt, repeated, part, turn, out)? {
            return Ok(());
        }
    }
    Err(refuse("no run ends with 0"))
}

/// Runs over parts of which the one of this name fails at its first call, then at its second one, and so on, until a
/// run ends with 0, and adds what each of them gives, how much it wrote, and what the look gives afterwards.
pub fn push_failings<R: AllocGlobal + Threads + Wait + Sync>(
    rt: &R,
    repeated: &Repeated,
    part: &str,
    out: &mut String,
) -> Result<(), Fault> {
    match part {
        "disk" | "writes" | "source" | "sink" => push_each_failing(rt, repeated, part, out),
        _ => Err(refuse("nothing of that name fails")),
    }
}
