//! Lines of a script over an engine.

ghost use Rattle.std.specs.Prelude.{◌≡◌};
ghost use Rattle.pm_place.specs.Choosers.{IsChooser};
ghost use Rattle.pm_engine.specs.Shown.{chooser};

use crate::chosen::{Chosen, place_of};
use pm_case_text::{Fault, push_filled, push_text, push_value, push_words, refuse};
use pm_disk::Disk;
use pm_engine::{Engine, Tally};
use pm_place::Placement;
use pm_script::{Line, reply_text};
use pm_shadow::Pages;
use pm_types::{CLIENTS, Cmd, EngineFault, Entry, OpenFault, WatchLine};
use std::alloc::Global;
use std::fmt::{Debug, Write};

// Adds the reply's line of an entry.
fn push_entry(alloc: Global, entry: &Entry, out: &mut String) -> Result<bool, Fault> {
    let mut line = reply_text(alloc, entry)?;
    line.pop();
    push_words(" / ", out)?;
    push_text(line.as_slice(), out)?;
    Ok(true)
}

// Adds the reply's line of the journal's last entry.
fn push_last_entry(alloc: Global, journal: &[Entry], out: &mut String) -> Result<bool, Fault> {
    match journal.last() {
        Some(entry) => push_entry(alloc, entry, out),
        None => Err(refuse("no entry")),
    }
}

// Adds why a call was not done, where the disk is why.
fn push_fault(fault: EngineFault, out: &mut String) -> Result<bool, Fault> {
    let (text, numbers) = match fault {
        EngineFault::Disk { before, after } => (" / disk fault % %", [before, after]),
        EngineFault::Reopen { count } => (" / reopen %", [count, 0]),
        EngineFault::Memory(_) => return Err(refuse("no memory")),
    };
    push_filled(text, &numbers, out)?;
    Ok(false)
}

// Gives a client's command, and adds the reply's line of the journal's last entry; whether it was done.
fn push_answer<D: Disk, F: Drop>(
    alloc: Global,
    engine: &mut Engine<D, F>,
    client: u32,
    cmd: &Cmd,
    out: &mut String,
) -> Result<bool, Fault>
    ensures { chooser engine.new ≡ chooser engine.old }
{
    if client >= CLIENTS {
        return Err(refuse("no client"));
    }
    match engine.client(alloc, client, cmd) {
        Ok(_) => push_last_entry(alloc, engine.recent(), out),
        Err(fault) => push_fault(fault, out),
    }
}

// Adds what an event answered.
fn push_answered<T: Debug>(answer: &T, out: &mut String) -> Result<bool, Fault> {
    push_words(" / ", out)?;
    push_value(answer, out)?;
    Ok(true)
}

// Makes an event of the collector, or a flush event, and adds what it answered; whether it was done.
fn push_event<D: Disk, F: Fn(&[u64]) -> usize + Drop>(
    alloc: Global,
    engine: &mut Engine<D, F>,
    collects: bool,
    out: &mut String,
) -> Result<bool, Fault>
    requires { IsChooser F.Fn (chooser engine.old) }
    ensures { chooser engine.new ≡ chooser engine.old }
{
    if collects {
        match engine.collect(alloc) {
            Ok(step) => push_answered(&step, out),
            Err(fault) => push_fault(fault, out),
        }
    } else {
        match engine.flush(alloc) {
            Ok(flushed) => push_answered(&flushed, out),
            Err(fault) => push_fault(fault, out),
        }
    }
}

// Makes so many events, and adds what each of them answered; whether all were done.
fn push_events<D: Disk, F: Fn(&[u64]) -> usize + Drop>(
    alloc: Global,
    engine: &mut Engine<D, F>,
    collects: bool,
    count: u32,
    out: &mut String,
) -> Result<bool, Fault>
    requires { IsChooser F.Fn (chooser engine.old) }
    ensures { chooser engine.new ≡ chooser engine.old }
{
    for _ in 0..count {
        if !push_event(alloc, engine, collects, out)? {
            return Ok(false);
        }
    }
    Ok(true)
}

// Runs a line, and adds what that gave; whether it was done.
fn push_line<D: Disk, F: Fn(&[u64]) -> usize + Drop>(
    alloc: Global,
    engine: &mut Engine<D, F>,
    line: &Line,
    out: &mut String,
) -> Result<bool, Fault>
    requires { IsChooser F.Fn (chooser engine.old) }
    ensures { chooser engine.new ≡ chooser engine.old }
{
    match line {
        Line::Client { client, cmd } => push_answer(alloc, engine, *client, cmd, out),
        Line::Flush(count) => push_events(alloc, engine, false, *count, out),
        Line::Gc(count) => push_events(alloc, engine, true, *count, out),
    }
}

// Lets the entries of an engine go, where the number of lines that were run is a multiple of this one, which is over 0.
fn forget_at<D: Disk, F: Drop>(engine: &mut Engine<D, F>, ran: u64, forget: u64)
    ensures { chooser engine.new ≡ chooser engine.old }
{
    if forget > 0 && ran % forget == 0 {
        engine.forget_entries();
    }
}

// Runs the lines, and adds what each of them gave. It ends where one was not done, or goes on. Behind so many lines each
// time the engine's entries are let go.
fn push_lines<D: Disk, F: Fn(&[u64]) -> usize + Drop>(
    alloc: Global,
    engine: &mut Engine<D, F>,
    lines: &[Line],
    goes_on: bool,
    forget: u64,
    out: &mut String,
) -> Result<(), Fault>
    requires { IsChooser F.Fn (chooser engine.old) }
{
    let mut ran = 0u64;
    for line in lines {
        let done = push_line(alloc, engine, line, out)?;
        ran = ran.saturating_add(1);
        forget_at(engine, ran, forget);
        if !(done || goes_on) {
            return Ok(());
        }
    }
    Ok(())
}

// Adds the number of the copy that was found, and runs the lines.
fn push_copy<D: Disk, F: Fn(&[u64]) -> usize + Drop>(
    alloc: Global,
    engine: &mut Engine<D, F>,
    number: u32,
    lines: &[Line],
    goes_on: bool,
    forget: u64,
    out: &mut String,
) -> Result<(), Fault>
    requires { IsChooser F.Fn (chooser engine.old) }
{
    push_filled("copy %", &[number as u64], out)?;
    push_lines(alloc, engine, lines, goes_on, forget, out)
}

// Lets an engine go: its disk, and what it came to.
fn parted<D: Disk + Drop, F: Drop>(engine: Engine<D, F>) -> (D, Tally) {
    let (disk, _journal, tally, _heap) = engine.into_parts();
    (disk, tally)
}

// Adds the lines of the watches.
fn push_watches(lines: &[WatchLine], out: &mut String) -> Result<(), Fault> {
    for line in lines {
        push_answered(line, out)?;
    }
    Ok(())
}

// Adds what an engine came to.
fn push_tally(tally: &Tally, out: &mut String) -> Result<(), Fault> {
    let numbers = [
        tally.entries(),
        tally.events(),
        tally.steps(),
        tally.completed(),
        tally.standing(),
    ];
    let text = " / % entries, % events, % steps, % completed, % standing";
    push_filled(text, &numbers, out)?;
    push_watches(tally.lines(), out)
}

// Adds, where all was said of the lines and it goes on after a fault, what the engine came to.
fn push_ended(
    said: Result<(), Fault>,
    tally: &Tally,
    goes_on: bool,
    out: &mut String,
) -> Result<(), Fault> {
    said?;
    if goes_on {
        return push_tally(tally, out);
    }
    Ok(())
}

// A disk that is handed back, where all was said.
fn kept<D: Disk + Drop>(disk: D, said: Result<(), Fault>) -> Result<D, Fault> {
    match said {
        Ok(()) => Ok(disk),
        Err(fault) => Err(fault),
    }
}

// Runs the lines over an engine that was opened, and adds what they gave and, where it goes on after a fault, what the
// engine came to.
fn push_served<D: Disk + Drop, F: Fn(&[u64]) -> usize + Drop>(
    alloc: Global,
    mut engine: Engine<D, F>,
    number: u32,
    lines: &[Line],
    goes_on: bool,
    forget: u64,
    out: &mut String,
) -> Result<D, Fault>
    requires { IsChooser F.Fn (chooser engine) }
{
    let said = push_copy(alloc, &mut engine, number, lines, goes_on, forget, out);
    let (disk, tally) = parted(engine);
    kept(disk, push_ended(said, &tally, goes_on, out))
}

// Adds why there is no store on a disk, and hands it back.
fn push_unopened<D: Disk + Drop>(disk: D, fault: OpenFault, out: &mut String) -> Result<D, Fault> {
    write!(out, "{fault}")?;
    Ok(disk)
}

// Opens the store of a disk, and runs the lines over it. An object moves to the train that is chosen.
fn push_opened<D: Disk + Drop>(
    alloc: Global,
    disk: D,
    number: u32,
    lines: &[Line],
    goes_on: bool,
    forget: u64,
    chosen: Chosen,
    out: &mut String,
) -> Result<D, Fault> {
    let place = Placement::new(move |trains: &[u64]| place_of(chosen, trains));
    match Engine::open_store(alloc, disk, place) {
        Ok(engine) => push_served(alloc, engine, number, lines, goes_on, forget, out),
        Err((disk, fault)) => push_unopened(disk, fault, out),
    }
}

/// Opens the store of a disk, and runs the lines over it; an object moves to the train that is chosen. It adds the number
/// of the copy that was found, the replies and what each event answered, or why there is no store, with ` / ` between them.
/// Once a call has answered that the disk failed it ends, or goes on with the next line. Behind each `forget` lines, where
/// that is over 0, the engine lets its entries go. The disk is handed back.
pub(crate) fn push_run<D: Disk + Drop>(
    alloc: Global,
    disk: D,
    lines: &[Line],
    goes_on: bool,
    forget: u64,
    chosen: Chosen,
    out: &mut String,
) -> Result<D, Fault> {
    match Pages::attach(alloc, disk) {
        Ok(pages) => {
            let number = pages.header().epoch;
            push_opened(
                alloc,
                pages.into_disk(),
                number,
                lines,
                goes_on,
                forget,
                chosen,
                out,
            )
        }
        Err((disk, fault)) => push_unopened(disk, fault, out),
    }
}
