//! Events of a logbook, asked by one caller after another.

ghost use Rattle.std.specs.Prelude.{◌≡◌, ◌<◌, ◌≤◌, IfOk};
ghost use Rattle.pm_place.specs.Choosers.{IsChooser};
ghost use Rattle.pm_engine.specs.Shown.{chooser};
ghost use Rattle.pm_seats.specs.Shown.{engine_in, next_in};
ghost use Rattle.pm_seats.specs.declared.limits.TheConstants.{LAST_EVENT};

use crate::opened::{disk_of, new_disk, open};
use crate::spelling::script;
use crate::turned::push_entry;
use pm_case_text::{Fault, numbered, push_filled, push_value, push_words, refuse};
use pm_disk::{Disk, MemDisk};
use pm_place::Placement;
use pm_script::Line;
use pm_seats::{LAST_EVENT, Logbook, SeatFault, Seen};
use pm_types::{CLIENTS, Cmd};
use std::alloc::Global;
use std::fmt::Debug;

/// Adds what an event answered.
pub(crate) fn push_answer<T: Debug>(answer: &T, out: &mut String) -> Result<(), Fault> {
    push_value(answer, out)?;
    push_words(" / ", out)
}

// Adds who asked a command, its place, and its reply.
fn push_seen<D: Disk, F: Drop>(
    alloc: Global,
    book: &Logbook<D, F>,
    number: u64,
    seen: &Seen,
    out: &mut String,
) -> Result<(), Fault> {
    push_filled("% at %", &[number, seen.place], out)?;
    push_entry(alloc, book.engine().recent().get(seen.place as usize), out)
}

// Adds what came of a command that the caller of this number asked.
fn push_asked<D: Disk, F: Drop>(
    alloc: Global,
    book: &Logbook<D, F>,
    number: u64,
    answer: &Result<Seen, SeatFault>,
    out: &mut String,
) -> Result<(), Fault> {
    match answer {
        Ok(seen) => push_seen(alloc, book, number, seen, out),
        Err(fault) => push_answer(fault, out),
    }
}

// Asks a command within so many events, and adds what came of it.
fn push_client<D: Disk, F: Drop>(
    alloc: Global,
    book: &mut Logbook<D, F>,
    number: u64,
    limit: u64,
    client: u32,
    cmd: &Cmd,
    out: &mut String,
) -> Result<(), Fault>
    requires number { number < next_in book.old }
    requires limit { limit ≤ LAST_EVENT }
    ensures chooser { chooser (engine_in book.new) ≡ chooser (engine_in book.old) }
    ensures next { next_in book.new ≡ next_in book.old }
{
    if client >= CLIENTS {
        return Err(refuse("no client"));
    }
    if book.engine().events() > limit {
        return Err(refuse("past the limit"));
    }
    let answer = book.client_within(alloc, number, client, cmd, limit);
    push_asked(alloc, book, number, &answer, out)
}

// Makes an event of the collector within so many events, and adds what came of it.
fn push_collect<D: Disk, F: Fn(&[u64]) -> usize + Drop>(
    alloc: Global,
    book: &mut Logbook<D, F>,
    limit: u64,
    out: &mut String,
) -> Result<(), Fault>
    requires limit { limit ≤ LAST_EVENT }
    requires chooser { IsChooser F.Fn (chooser (engine_in book.old)) }
    ensures chooser { chooser (engine_in book.new) ≡ chooser (engine_in book.old) }
    ensures next { next_in book.new ≡ next_in book.old }
{
    if book.engine().events() > limit {
        return Err(refuse("past the limit"));
    }
    match book.collect_within(alloc, limit) {
        Ok(step) => push_answer(&step, out),
        Err(fault) => push_answer(&fault, out),
    }
}

// The same so many times.
fn push_collects<D: Disk, F: Fn(&[u64]) -> usize + Drop>(
    alloc: Global,
    book: &mut Logbook<D, F>,
    limit: u64,
    count: u32,
    out: &mut String,
) -> Result<(), Fault>
    requires limit { limit ≤ LAST_EVENT }
    requires chooser { IsChooser F.Fn (chooser (engine_in book.old)) }
    ensures chooser { chooser (engine_in book.new) ≡ chooser (engine_in book.old) }
    ensures next { next_in book.new ≡ next_in book.old }
{
    for _ in 0..count {
        push_collect(alloc, book, limit, out)?;
    }
    Ok(())
}

// Makes a flush event within so many events, and adds what came of it.
fn push_flush<D: Disk, F: Drop>(
    alloc: Global,
    book: &mut Logbook<D, F>,
    limit: u64,
    out: &mut String,
) -> Result<(), Fault>
    requires limit { limit ≤ LAST_EVENT }
    ensures chooser { chooser (engine_in book.new) ≡ chooser (engine_in book.old) }
    ensures next { next_in book.new ≡ next_in book.old }
{
    if book.engine().events() > limit {
        return Err(refuse("past the limit"));
    }
    match book.flush_within(alloc, limit) {
        Ok(flushed) => push_answer(&flushed, out),
        Err(fault) => push_answer(&fault, out),
    }
}

// The same so many times.
fn push_flushes<D: Disk, F: Drop>(
    alloc: Global,
    book: &mut Logbook<D, F>,
    limit: u64,
    count: u32,
    out: &mut String,
) -> Result<(), Fault>
    requires limit { limit ≤ LAST_EVENT }
    ensures chooser { chooser (engine_in book.new) ≡ chooser (engine_in book.old) }
    ensures next { next_in book.new ≡ next_in book.old }
{
    for _ in 0..count {
        push_flush(alloc, book, limit, out)?;
    }
    Ok(())
}

// Makes the events of a line.
fn push_line<D: Disk, F: Fn(&[u64]) -> usize + Drop>(
    alloc: Global,
    book: &mut Logbook<D, F>,
    number: u64,
    limit: u64,
    line: &Line,
    out: &mut String,
) -> Result<(), Fault>
    requires number { number < next_in book.old }
    requires limit { limit ≤ LAST_EVENT }
    requires chooser { IsChooser F.Fn (chooser (engine_in book.old)) }
    ensures chooser { chooser (engine_in book.new) ≡ chooser (engine_in book.old) }
    ensures next { next_in book.new ≡ next_in book.old }
{
    match line {
        Line::Client { client, cmd } => push_client(alloc, book, number, limit, *client, cmd, out),
        Line::Gc(count) => push_collects(alloc, book, limit, *count, out),
        Line::Flush(count) => push_flushes(alloc, book, limit, *count, out),
    }
}

// Makes the events of lines, all asked by one caller.
fn push_lines<D: Disk, F: Fn(&[u64]) -> usize + Drop>(
    alloc: Global,
    book: &mut Logbook<D, F>,
    number: u64,
    limit: u64,
    lines: &[Line],
    out: &mut String,
) -> Result<(), Fault>
    requires number { number < next_in book.old }
    requires limit { limit ≤ LAST_EVENT }
    requires chooser { IsChooser F.Fn (chooser (engine_in book.old)) }
    ensures chooser { chooser (engine_in book.new) ≡ chooser (engine_in book.old) }
    ensures next { next_in book.new ≡ next_in book.old }
{
    for line in lines {
        push_line(alloc, book, number, limit, line, out)?;
    }
    Ok(())
}

// `LIMIT SCRIPT`: makes the events of the script within so many events, all asked by one caller.
fn push_part<D: Disk, F: Fn(&[u64]) -> usize + Drop>(
    alloc: Global,
    book: &mut Logbook<D, F>,
    number: u64,
    part: &str,
    out: &mut String,
) -> Result<(), Fault>
    requires number { number < next_in book.old }
    requires chooser { IsChooser F.Fn (chooser (engine_in book.old)) }
    ensures chooser { chooser (engine_in book.new) ≡ chooser (engine_in book.old) }
{
    let (limit, lines) = numbered(part)?;
    if limit > LAST_EVENT {
        return Err(refuse("no limit"));
    }
    let script = script(alloc, lines)?;
    push_lines(alloc, book, number, limit, script.as_slice(), out)
}

// Draws the number of the next caller.
fn drawn<D: Disk, F: Drop>(book: &mut Logbook<D, F>) -> Result<u64, Fault>
    ensures number { IfOk result (λ number. number < next_in book.new) }
    ensures chooser { chooser (engine_in book.new) ≡ chooser (engine_in book.old) }
{
    match book.draw() {
        Some(number) => Ok(number),
        None => Err(refuse("no number")),
    }
}

// Makes the events of the parts, each asked by a caller of its own: the first has number 0, each other one is drawn.
fn push_parts<D: Disk, F: Fn(&[u64]) -> usize + Drop>(
    alloc: Global,
    book: &mut Logbook<D, F>,
    text: &str,
    out: &mut String,
) -> Result<(), Fault>
    requires next { next_in book.old ≡ 1 }
    requires chooser { IsChooser F.Fn (chooser (engine_in book.old)) }
{
    let mut number = 0;
    for part in text.split(" : ") {
        push_part(alloc, book, number, part, out)?;
        number = drawn(book)?;
    }
    Ok(())
}

// Adds how many entries there are, how many events were made, and how many of them by the collector and by flushes.
fn push_numbers<D: Disk, F: Drop>(book: &Logbook<D, F>, out: &mut String) -> Result<(), Fault> {
    let entries = book.entries();
    let events = book.engine().events();
    let made = book.engine().steps();
    let flushed = events.saturating_sub(entries).saturating_sub(made);
    let numbers = [entries, events, made, flushed];
    push_filled("% entries, % events, % made, % flushed\n", &numbers, out)
}

// Makes the events of the parts, and adds what the logbook has come to.
fn push_told<D: Disk, F: Fn(&[u64]) -> usize + Drop>(
    alloc: Global,
    book: &mut Logbook<D, F>,
    text: &str,
    out: &mut String,
) -> Result<(), Fault>
    requires next { next_in book.old ≡ 1 }
    requires chooser { IsChooser F.Fn (chooser (engine_in book.old)) }
{
    push_parts(alloc, book, text, out)?;
    push_numbers(book, out)
}

// Makes the events of the parts at a new logbook, and lets it go.
fn push_logged<F: Fn(&[u64]) -> usize + Drop>(
    alloc: Global,
    mut book: Logbook<MemDisk, F>,
    text: &str,
    out: &mut String,
) -> Result<(), Fault>
    requires next { next_in book ≡ 1 }
    requires chooser { IsChooser F.Fn (chooser (engine_in book)) }
{
    let said = push_told(alloc, &mut book, text, out);
    drop(disk_of(book.into_engine()));
    said
}

/// Opens a new store whose disk fails the call of this number, makes the events of these parts at its logbook, and adds
/// what came of each, a line.
pub(crate) fn push_logbook(
    alloc: Global,
    call: u64,
    text: &str,
    out: &mut String,
) -> Result<(), Fault> {
    let disk = new_disk(alloc, call)?;
    let engine = open(alloc, disk, Placement::new(|_: &[u64]| 0))?;
    push_logged(alloc, Logbook::new(engine), text, out)
}
