//! A line of the input: a case's name, or a step.

use crate::called::push_calls;
use crate::logged::push_logbook;
use crate::opened::push_opened;
use crate::reopened::push_reopened;
use crate::shared::push_passes;
use crate::spelling::workers;
use crate::threaded::push_threads;
use pm_case_text::{
    Count, Fault, first_word, is_silent, number, push_case, push_filled, refuse, written_out,
};
use std::alloc::Global;
use std::sync::Wait;
use std::thread::Threads;

// How many calls of the disk the opening of a new store and these turns make.
fn calls_of(alloc: Global, turns: &[u32], lines: &str) -> Result<u64, Fault> {
    let mut unseen = String::new(alloc);
    push_opened(alloc, 0, lines, turns, &mut unseen)
}

// How many calls of the disk the opening of a new store makes.
fn opening(alloc: Global) -> Result<u64, Fault> {
    calls_of(alloc, &[], "")
}

// `WORKERS : SCRIPT`, or `N : SCRIPT`, parted.
fn parted(text: &str) -> Result<(&str, &str), Fault> {
    text.split_once(" : ").ok_or(refuse("no such step"))
}

// Makes the turns over a disk that fails the call behind so many, those of the opening among them, and adds what came of
// them, a line.
fn push_failing_at(
    alloc: Global,
    turns: &[u32],
    lines: &str,
    made: u64,
    out: &mut String,
) -> Result<(), Fault> {
    push_opened(alloc, made.saturating_add(1), lines, turns, out)?;
    Ok(())
}

// Does the same for each of these calls.
fn push_each_failing(
    alloc: Global,
    turns: &[u32],
    lines: &str,
    opening: u64,
    calls: u64,
    out: &mut String,
) -> Result<(), Fault> {
    for made in opening..calls {
        let number = made.saturating_add(1).saturating_sub(opening);
        push_filled("call %: ", &[number], out)?;
        push_failing_at(alloc, turns, lines, made, out)?;
    }
    Ok(())
}

// Makes the turns once for each call of the disk that they make, over a disk that fails that call alone; and adds what
// came of them, a line each.
fn push_failing(alloc: Global, turns: &[u32], lines: &str, out: &mut String) -> Result<(), Fault> {
    let opening = opening(alloc)?;
    let calls = calls_of(alloc, turns, lines)?;
    push_each_failing(alloc, turns, lines, opening, calls, out)
}

// Makes the turns, and adds what came of them, a line.
fn push_turns(alloc: Global, turns: &[u32], lines: &str, out: &mut String) -> Result<(), Fault> {
    push_opened(alloc, 0, lines, turns, out)?;
    Ok(())
}

// Makes the turns once, or once for each call that fails.
fn push_turned(
    alloc: Global,
    fails: bool,
    turns: &[u32],
    lines: &str,
    out: &mut String,
) -> Result<(), Fault> {
    if fails {
        push_failing(alloc, turns, lines, out)
    } else {
        push_turns(alloc, turns, lines, out)
    }
}

// The same, as it is spelled.
fn push_turned_text(alloc: Global, fails: bool, text: &str, out: &mut String) -> Result<(), Fault> {
    let (turns, lines) = parted(text)?;
    let turns = workers(alloc, turns)?;
    push_turned(alloc, fails, turns.as_slice(), lines, out)
}

// `N SCRIPT`: runs it in threads over a disk that fails call N behind those of the opening.
fn push_failing_threads<R: Threads + Wait + Sync>(
    rt: &R,
    alloc: Global,
    text: &str,
    out: &mut String,
) -> Result<(), Fault> {
    let (call, lines) = parted(text)?;
    let call = number(call)?.saturating_add(opening(alloc)?);
    push_threads(rt, alloc, call, lines, "threads", out)
}

// `N SCRIPT`: runs it by workers with passes over a disk that fails call N behind those of the opening.
fn push_failing_calls<R: Threads + Wait + Sync>(
    rt: &R,
    alloc: Global,
    text: &str,
    out: &mut String,
) -> Result<(), Fault> {
    let (call, lines) = parted(text)?;
    let call = number(call)?.saturating_add(opening(alloc)?);
    push_calls(rt, alloc, call, lines, "seats", out)
}

// `N : PART : PART ..`: makes the events of the parts at a logbook over a disk that fails call N behind those of the
// opening; no call fails where N is 0.
fn push_logbook_text(alloc: Global, text: &str, out: &mut String) -> Result<(), Fault> {
    let (call, parts) = parted(text)?;
    let call = number(call)?;
    if call == 0 {
        return push_logbook(alloc, 0, parts, out);
    }
    push_logbook(alloc, call.saturating_add(opening(alloc)?), parts, out)
}

// `N : TEXT`: shares an engine over a disk that fails call N behind those of the opening, or none where N is 0, and makes
// what the step says.
fn push_passes_text<R: Threads + Wait + Sync>(
    rt: &R,
    alloc: Global,
    way: &str,
    text: &str,
    out: &mut String,
) -> Result<(), Fault> {
    let (call, text) = parted(text)?;
    let call = number(call)?;
    if call == 0 {
        return push_passes(rt, alloc, 0, way, text, out);
    }
    let call = call.saturating_add(opening(alloc)?);
    push_passes(rt, alloc, call, way, text, out)
}

// A step: its first word, and what follows.
fn push_step<R: Threads + Wait + Sync>(
    rt: &R,
    alloc: Global,
    step: &str,
    text: &str,
    out: &mut String,
) -> Result<(), Fault> {
    match step {
        "case" => push_case(text, out),
        "turns" | "fails" => push_turned_text(alloc, step == "fails", text, out),
        "threads" | "alone" | "between" => push_threads(rt, alloc, 0, text, step, out),
        "threads-fail" => push_failing_threads(rt, alloc, text, out),
        "seats" | "seats-between" => push_calls(rt, alloc, 0, text, step, out),
        "seats-fail" => push_failing_calls(rt, alloc, text, out),
        "seats-open" => push_reopened(rt, alloc, text, out),
        "logbook" => push_logbook_text(alloc, text, out),
        "passes" | "met" | "unmet" | "split" | "together" => {
            push_passes_text(rt, alloc, step, text, out)
        }
        _ => Err(refuse("no such step")),
    }
}

/// Takes a line of the input, and adds what it gives. A line that begins with `#`, and one that is empty, say nothing.
pub fn take<R: Threads + Wait + Sync>(
    rt: &R,
    alloc: Global,
    line: &str,
    out: &mut String,
) -> Result<(), Fault> {
    if is_silent(line) {
        return Ok(());
    }
    let line = written_out(alloc, line, Count::FromZero)?;
    let (step, text) = first_word(line.as_str());
    push_step(rt, alloc, step, text, out)
}
