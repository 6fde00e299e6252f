//! A line of the input: a case's name, or the step.

use crate::meeting_cases::meeting::Meeting;
use crate::meeting_cases::running::{Run, run};
use pm_case_text::{Fault, first_word, is_silent, push_case, push_filled, push_words, refuse};
use std::sync::Wait;
use std::thread::Threads;

// Adds a line: how the run ended, how many turns were begun and ended, and how many holds ran out.
fn push_counts(gate: &Meeting, status: u8, out: &mut String) -> Result<(), Fault> {
    let (begun, left, ran_out) = gate.counts();
    let numbers = [status as u64, begun, left, ran_out];
    let text = "status %, % turns begun, % ended, % holds ran out\n";
    push_filled(text, &numbers, out)
}

// Adds the last line that the run wrote.
fn push_last(run: &Run, out: &mut String) -> Result<(), Fault> {
    let text = str::from_utf8(run.sink.written()).unwrap_or("?");
    push_words(text.lines().last().unwrap_or("?"), out)?;
    push_words("\n", out)
}

// Adds whether the workers met.
fn push_met(gate: &Meeting, run: &Run, out: &mut String) -> Result<(), Fault> {
    push_counts(gate, run.status, out)?;
    push_last(run, out)
}

// Runs the program in this mode through a new gate, and adds whether the workers met.
fn push_meeting<R: AllocGlobal + Threads + Wait + Sync>(
    rt: &R,
    mode: &str,
    out: &mut String,
) -> Result<(), Fault> {
    let gate = Meeting::new();
    push_met(&gate, &run(rt, mode, &gate), out)
}

/// Takes a line of the input, and adds what it gives. A line that begins with `#`, and one that is empty, say nothing.
pub fn take<R: AllocGlobal + Threads + Wait + Sync>(
    rt: &R,
    line: &str,
    out: &mut String,
) -> Result<(), Fault> {
    if is_silent(line) {
        return Ok(());
    }
    let (step, name) = first_word(line);
    match step {
        "case" => push_case(name, out),
        "meeting" => push_meeting(rt, name, out),
        _ => Err(refuse("no such step")),
    }
}
