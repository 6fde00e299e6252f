//! Runs by workers of scripts that are drawn.

use crate::running::{RunEnd, run_script};
use pm_case_text::told::{RUN_THREADS, alike_in, generated};
use pm_case_text::{Fault, push_filled, refuse};
use std::alloc::Global;
use std::sync::Wait;
use std::thread::Threads;

// The words of a run of this mode.
fn words_of(mode: &str) -> Result<&str, Fault> {
    match mode {
        "threads" => Ok(RUN_THREADS),
        "seats" => Ok("run store.pmos seats"),
        _ => Err(refuse("no such mode")),
    }
}

// What is counted of runs.
#[derive(Clone, Copy)]
struct Counts {
    // How many ended with 0.
    done: u64,
    // How many replies the plain slow program gives alike.
    alike: u64,
    // How many replies there were.
    replies: u64,
}

// Counts what there is of a run.
fn count_run(alloc: Global, run: &RunEnd, counts: &mut Counts) -> Result<(), Fault> {
    let alike = alike_in(alloc, run.journal())?;
    counts.done = counts.done.saturating_add((run.status == 0) as u64);
    counts.alike = counts.alike.saturating_add(alike);
    counts.replies = counts.replies.saturating_add(run.journal().len() as u64);
    Ok(())
}

// Runs a script of this many lines that is drawn from a seed, with these words.
fn run_drawn<R: AllocGlobal + Threads + Wait + Sync>(
    rt: &R,
    disk: &[u8],
    words: &str,
    lines: u64,
    seed: u64,
) -> Result<RunEnd, Fault> {
    let drawn = generated(rt.alloc(), lines, seed)?;
    run_script(rt, disk, words, drawn.as_bytes())
}

// Runs it, and counts what there is of that.
fn count_drawn<R: AllocGlobal + Threads + Wait + Sync>(
    rt: &R,
    disk: &[u8],
    words: &str,
    lines: u64,
    seed: u64,
    counts: &mut Counts,
) -> Result<(), Fault> {
    let run = run_drawn(rt, disk, words, lines, seed)?;
    count_run(rt.alloc(), &run, counts)
}

// Does so for each seed below this number.
fn count_each<R: AllocGlobal + Threads + Wait + Sync>(
    rt: &R,
    disk: &[u8],
    words: &str,
    runs: u64,
    lines: u64,
    counts: &mut Counts,
) -> Result<(), Fault> {
    for seed in 0..runs {
        count_drawn(rt, disk, words, lines, seed, counts)?;
    }
    Ok(())
}

/// Adds how many of these runs of a mode, `threads` or `seats`, each of a script from a seed of its own, were done, and how
/// many of their replies the plain slow program gives alike, in the order in which the run answered.
pub fn push_drawn<R: AllocGlobal + Threads + Wait + Sync>(
    rt: &R,
    disk: &[u8],
    mode: &str,
    runs: u64,
    lines: u64,
    out: &mut String,
) -> Result<(), Fault> {
    let mut counts = Counts {
        done: 0,
        alike: 0,
        replies: 0,
    };
    count_each(rt, disk, words_of(mode)?, runs, lines, &mut counts)?;
    let numbers = [counts.done, counts.alike, counts.replies];
    push_filled("% runs done, % of % replies alike\n", &numbers, out)
}
