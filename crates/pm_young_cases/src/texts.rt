//! The texts that runs of lines write.

ghost use Rattle.pm_place.specs.Choosers.{IsChooser};
ghost use Rattle.pm_script.specs.Young.{AreYoungLines};
ghost use Rattle.pm_young.specs.Seen.{chooser};
ghost use Rattle.pm_young_run.specs.Running.{IsFreshYoung};

use crate::commands::young_script;
use crate::failing::calls_of_opening;
use crate::serial::serial_replies;
use pm_case_text::{Fault, numbered, push_filled, push_words, refuse};
use pm_disk::MemDisk;
use pm_io::{MemSink, Sink};
use pm_place::Placement;
use pm_script::{YoungLine, YoungScript};
use pm_young::YoungEngine;
use pm_young_run::{Stop, run_young_lines};
use std::alloc::Global;

// More calls of a sink than this no run makes.
const MOST_CALLS: u64 = 100;

// What a run left.
#[derive(Drop)]
struct Left {
    // Why it stopped before its end.
    ran: Result<(), Stop>,
    // What was written, and how much of it is finished.
    sink: MemSink,
    // How many commands were answered, and how many events were made.
    entries: u64,
    events: u64,
}

// A sink that fails the call of this number and all behind it; no call has the number 0.
fn failing_sink(alloc: Global, first: u64) -> Result<MemSink, Fault> {
    let mut fails = Vec::new(alloc);
    if first > 0 {
        for behind in 0..MOST_CALLS {
            fails.push(first.saturating_add(behind))?;
        }
    }
    Ok(MemSink::new(alloc, fails))
}

// Runs the lines over an engine that was opened, and takes it apart.
fn left_by<F: Fn(&[u64]) -> usize + Drop>(
    alloc: Global,
    mut engine: YoungEngine<MemDisk, F>,
    lines: Vec<YoungLine>,
    mut sink: MemSink,
) -> Left
    requires clients { AreYoungLines lines.items }
    requires fresh { IsFreshYoung engine }
    requires chooser { IsChooser F.Fn (chooser engine) }
{
    let ran = run_young_lines(alloc, lines, &mut engine, &mut sink);
    let (_disk, _journal, tally, _heap) = engine.into_parts();
    Left {
        ran,
        sink,
        entries: tally.entries(),
        events: tally.events(),
    }
}

// Runs a script over a disk with these bytes that fails the call of this number alone.
fn left_on(
    alloc: Global,
    bytes: &[u8],
    call: u64,
    script: YoungScript,
    sink: MemSink,
) -> Result<Left, Fault> {
    let fails = vec![in alloc; call]?;
    let disk = MemDisk::new(bytes.to_vec(alloc)?, fails);
    match YoungEngine::open_young(alloc, disk, Placement::new(|_: &[u64]| 0)) {
        Ok(engine) => Ok(left_by(alloc, engine, script.into_lines(), sink)),
        Err(_) => Err(refuse("no store")),
    }
}

// Runs the lines that ` / ` stands between, with a sink that fails this call and all behind it.
fn left_with(
    alloc: Global,
    bytes: &[u8],
    call: u64,
    first: u64,
    text: &str,
) -> Result<Left, Fault> {
    let script = young_script(alloc, text)?;
    left_on(alloc, bytes, call, script, failing_sink(alloc, first)?)
}

// How a run ended, in a few words.
fn end_of(ran: &Result<(), Stop>) -> &'static str {
    match ran {
        Ok(()) => "ended",
        Err(Stop::Writing) => "write fault",
        Err(Stop::Device) => "disk fault",
        Err(Stop::Memory(_)) => "no memory",
    }
}

// Adds how a run ended, and what it left, a line.
fn push_left(left: &Left, out: &mut String) -> Result<(), Fault> {
    let sink = &left.sink;
    let numbers = [
        sink.written().len() as u64,
        sink.finished(),
        sink.faults(),
        left.entries,
        left.events,
    ];
    push_words(end_of(&left.ran), out)?;
    push_filled(
        ", % bytes, % finished, % failed / % entries, % events\n",
        &numbers,
        out,
    )
}

// Adds the last lines of a text, this number at most, with ` / ` behind each.
fn push_last_lines(text: &[u8], count: u64, out: &mut String) -> Result<(), Fault> {
    let Ok(text) = str::from_utf8(text) else {
        return Err(refuse("no text"));
    };
    let passed = text.lines().count().saturating_sub(count as usize);
    for (place, line) in text.lines().enumerate() {
        if place >= passed {
            push_words(line, out)?;
            push_words(" / ", out)?;
        }
    }
    Ok(())
}

// `CALL N LINES`, behind the call of the disk that fails.
fn push_written_at(
    alloc: Global,
    bytes: &[u8],
    call: u64,
    text: &str,
    out: &mut String,
) -> Result<(), Fault> {
    let (first, rest) = numbered(text)?;
    let (count, lines) = numbered(rest)?;
    let left = left_with(alloc, bytes, call, first, lines)?;
    push_last_lines(left.sink.written(), count, out)?;
    push_left(&left, out)
}

/// `CALL FIRST N LINES`: runs the lines over a disk whose call of this number behind the opening fails, none for 0, and with
/// a sink that fails this call and all behind it, none for 0. Adds the last N lines that it wrote, how it ended, how many
/// bytes are written and finished, how many calls of the sink failed, and how many entries and events there are, a line.
pub(crate) fn push_written(
    alloc: Global,
    bytes: &[u8],
    text: &str,
    out: &mut String,
) -> Result<(), Fault> {
    let (call, rest) = numbered(text)?;
    if call == 0 {
        return push_written_at(alloc, bytes, 0, rest, out);
    }
    let call = call.saturating_add(calls_of_opening(alloc, bytes)?);
    push_written_at(alloc, bytes, call, rest, out)
}

// Adds what a run left whose sink failed, beside all that is written where none fails.
fn push_beside(whole: &[u8], left: &Left, out: &mut String) -> Result<(), Fault> {
    if !whole.starts_with(left.sink.written()) {
        push_words("another text, ", out)?;
    }
    push_left(left, out)
}

/// Runs the lines once for each call of the sink, which fails that call and all behind it, and once where none fails. Adds a
/// line each, with the number of the call before what the run left; and whether it wrote something else than a first part of
/// what is written where none fails.
pub(crate) fn push_failing_sinks(
    alloc: Global,
    bytes: &[u8],
    text: &str,
    out: &mut String,
) -> Result<(), Fault> {
    let whole = left_with(alloc, bytes, 0, 0, text)?;
    for first in 1..MOST_CALLS {
        let left = left_with(alloc, bytes, 0, first, text)?;
        push_filled("call %: ", &[first], out)?;
        push_beside(whole.sink.written(), &left, out)?;
        if left.ran.is_ok() {
            return Ok(());
        }
    }
    Err(refuse("too many calls"))
}

// Adds how a run with sweeps goes beside the replies of one without a nursery, a line.
fn push_compared(serial: &[u8], left: &Left, count: u64, out: &mut String) -> Result<(), Fault> {
    let Some(behind) = left.sink.written().strip_prefix(serial) else {
        return push_words("other replies\n", out);
    };
    let replies = serial.iter().filter(|byte| **byte == b'\n').count();
    push_filled("alike, % replies / ", &[replies as u64], out)?;
    push_last_lines(behind, count, out)?;
    push_words(end_of(&left.ran), out)?;
    push_words("\n", out)
}

/// `N LINES`: runs the lines with a sweep between each two of them, and without a nursery and a sweep. Adds `alike` and how
/// many replies there are, the last N of the lines that the run with sweeps wrote behind them, and how it ended, a line; or
/// that it wrote other replies.
pub(crate) fn push_swept(
    alloc: Global,
    bytes: &[u8],
    text: &str,
    out: &mut String,
) -> Result<(), Fault> {
    let (count, lines) = numbered(text)?;
    let serial = serial_replies(alloc, bytes, lines)?;
    let swept = lines.replace(alloc, " / ", " / ! young / ")?;
    let left = left_with(alloc, bytes, 0, 0, swept.as_str())?;
    push_compared(serial.as_slice(), &left, count, out)
}
