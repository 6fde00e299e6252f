//! Calls of callers with passes, one after another.

ghost use Rattle.std.specs.Prelude.{◌<◌, IfOk};
ghost use Rattle.std.specs.Thread.{IsSync};
ghost use Rattle.pm_types.specs.declared.limits.TheConstants.{CLIENTS};
ghost use Rattle.pm_place.specs.Choosers.{IsChooser};
ghost use Rattle.pm_engine.specs.Shown.{chooser, serving};
ghost use Rattle.pm_engine.specs.Events.Running.{IsFresh};
ghost use Rattle.pm_engine.specs.contracts.Engine as engines;
ghost use Rattle.pm_seats.specs.Sharing.{IsPassOf, first_engine};

use crate::logged::push_answer;
use crate::opened::{disk_of, new_disk, open};
use crate::served::push_legal;
use crate::spelling::script;
use pm_case_text::{Fault, push_filled, push_value, refuse, small};
use pm_disk::Disk;
use pm_engine::Engine;
use pm_passes::Pass;
use pm_place::Placement;
use pm_script::{Line, Script};
use pm_seats::{SeatFault, Seen, Shared};
use pm_types::{CLIENTS, Cmd, Entry};
use std::alloc::Global;
use std::fmt::Debug;
use std::sync::Wait;
use std::thread::{Threads, join};

// Adds what an event answered, or why it was not made.
fn push_came<T: Debug, E: Debug>(answer: &Result<T, E>, out: &mut String) -> Result<(), Fault> {
    match answer {
        Ok(made) => push_answer(made, out),
        Err(fault) => push_answer(fault, out),
    }
}

// Adds the reply to a command and its place, or why there is none.
fn push_seen(answer: &Result<Seen, SeatFault>, out: &mut String) -> Result<(), Fault> {
    match answer {
        Ok(seen) => {
            push_value(&seen.reply, out)?;
            push_filled(" at % / ", &[seen.place], out)
        }
        Err(fault) => push_answer(fault, out),
    }
}

// Calls a command, and adds what came of it.
fn push_call<D: Disk + Drop, F: Drop, R: Wait>(
    rt: &R,
    alloc: Global,
    shared: &Shared<D, F>,
    pass: &mut Pass<Entry>,
    client: u32,
    cmd: &Cmd,
    out: &mut String,
) -> Result<(), Fault>
    requires { IsPassOf (engines.the_row D.row F.row D.Disk).coded shared.now pass.old }
    ensures { IsPassOf (engines.the_row D.row F.row D.Disk).coded shared.now pass.new }
{
    if client >= CLIENTS {
        return Err(refuse("no client"));
    }
    let answer = shared.call(rt, alloc, pass, client, cmd);
    push_seen(&answer, out)
}

// Makes so many events of the collector, and adds what came of each.
fn push_collects<D: Disk + Drop, F: Fn(&[u64]) -> usize + Drop, R: Wait>(
    rt: &R,
    alloc: Global,
    shared: &Shared<D, F>,
    pass: &mut Pass<Entry>,
    count: u32,
    out: &mut String,
) -> Result<(), Fault>
    requires chooser { IsChooser F.Fn (chooser (first_engine shared.now)) }
    requires pass { IsPassOf (engines.the_row D.row F.row D.Disk).coded shared.now pass.old }
    ensures { IsPassOf (engines.the_row D.row F.row D.Disk).coded shared.now pass.new }
{
    for _ in 0..count {
        let answer = shared.collect(rt, alloc, pass);
        push_came(&answer, out)?;
    }
    Ok(())
}

// Makes so many flush events, and adds what came of each.
fn push_flushes<D: Disk + Drop, F: Drop, R: Wait>(
    rt: &R,
    alloc: Global,
    shared: &Shared<D, F>,
    pass: &mut Pass<Entry>,
    count: u32,
    out: &mut String,
) -> Result<(), Fault>
    requires { IsPassOf (engines.the_row D.row F.row D.Disk).coded shared.now pass.old }
    ensures { IsPassOf (engines.the_row D.row F.row D.Disk).coded shared.now pass.new }
{
    for _ in 0..count {
        let answer = shared.flush(rt, alloc, pass);
        push_came(&answer, out)?;
    }
    Ok(())
}

// Makes the events of a line.
fn push_line<D: Disk + Drop, F: Fn(&[u64]) -> usize + Drop, R: Wait>(
    rt: &R,
    alloc: Global,
    shared: &Shared<D, F>,
    pass: &mut Pass<Entry>,
    line: &Line,
    out: &mut String,
) -> Result<(), Fault>
    requires chooser { IsChooser F.Fn (chooser (first_engine shared.now)) }
    requires pass { IsPassOf (engines.the_row D.row F.row D.Disk).coded shared.now pass.old }
    ensures { IsPassOf (engines.the_row D.row F.row D.Disk).coded shared.now pass.new }
{
    match line {
        Line::Client { client, cmd } => push_call(rt, alloc, shared, pass, *client, cmd, out),
        Line::Gc(count) => push_collects(rt, alloc, shared, pass, *count, out),
        Line::Flush(count) => push_flushes(rt, alloc, shared, pass, *count, out),
    }
}

// Makes the events of a script with this pass, and adds what came of each.
fn push_script<D: Disk + Drop, F: Fn(&[u64]) -> usize + Drop, R: Wait>(
    rt: &R,
    alloc: Global,
    shared: &Shared<D, F>,
    pass: &mut Pass<Entry>,
    lines: &str,
    out: &mut String,
) -> Result<(), Fault>
    requires chooser { IsChooser F.Fn (chooser (first_engine shared.now)) }
    requires pass { IsPassOf (engines.the_row D.row F.row D.Disk).coded shared.now pass.old }
    ensures { IsPassOf (engines.the_row D.row F.row D.Disk).coded shared.now pass.new }
{
    let script = script(alloc, lines)?;
    for line in script.as_slice() {
        push_line(rt, alloc, shared, pass, line, out)?;
    }
    Ok(())
}

// Adds a pass: its number, and its shares.
fn push_pass(pass: &Pass<Entry>, out: &mut String) -> Result<(), Fault> {
    push_filled("pass % has % / ", &[pass.number(), pass.shares()], out)
}

// Splits a pass off.
fn split_off<D: Disk + Drop, F: Drop, R: Wait>(
    rt: &R,
    shared: &Shared<D, F>,
    pass: &mut Pass<Entry>,
) -> Result<Pass<Entry>, Fault>
    requires pass { IsPassOf (engines.the_row D.row F.row D.Disk).coded shared.now pass.old }
    ensures pass { IsPassOf (engines.the_row D.row F.row D.Disk).coded shared.now pass.new }
    ensures other { IfOk result (IsPassOf (engines.the_row D.row F.row D.Disk).coded shared.now) }
{
    if pass.shares() < 2 {
        return Err(refuse("one share"));
    }
    Ok(shared.split(rt, pass)?)
}

// Adds what an engine has come to: its events, how many of them the collector made, its entries, and whether the plain
// slow program replies alike.
fn push_engine<D: Disk + Drop, F: Drop>(
    alloc: Global,
    engine: &Engine<D, F>,
    out: &mut String,
) -> Result<(), Fault> {
    let entries = engine.entries();
    let numbers = [engine.events(), engine.steps(), entries];
    push_filled("% events, % steps, % entries", &numbers, out)?;
    push_legal(alloc, engine.recent(), out)
}

// Closes with this pass, adds what the engine has come to, and lets it go.
fn push_closed<D: Disk + Drop, F: Drop, R: Wait>(
    rt: &R,
    alloc: Global,
    shared: Shared<D, F>,
    pass: Pass<Entry>,
    out: &mut String,
) -> Result<(), Fault>
    requires { IsPassOf (engines.the_row D.row F.row D.Disk).coded shared pass }
{
    push_filled("% shares: ", &[pass.shares()], out)?;
    let engine = shared.close(rt, pass);
    let said = push_engine(alloc, &engine, out);
    drop(disk_of(engine));
    said
}

// The first pass makes the events of the first script. Two more are split from it, one after the other, and make those of
// theirs. The last is met first, then the other, and the first pass closes.
fn push_three<D: Disk + Drop, F: Fn(&[u64]) -> usize + Drop, R: Wait>(
    rt: &R,
    alloc: Global,
    shared: Shared<D, F>,
    first: Pass<Entry>,
    scripts: (&str, &str, &str),
    out: &mut String,
) -> Result<(), Fault>
    requires chooser { IsChooser F.Fn (chooser (first_engine shared)) }
    requires pass { IsPassOf (engines.the_row D.row F.row D.Disk).coded shared first }
{
    let mut first = first;
    push_script(rt, alloc, &shared, &mut first, scripts.0, out)?;
    let mut one = split_off(rt, &shared, &mut first)?;
    let mut two = split_off(rt, &shared, &mut first)?;
    push_script(rt, alloc, &shared, &mut one, scripts.1, out)?;
    push_script(rt, alloc, &shared, &mut two, scripts.2, out)?;
    push_pass(&one, out)?;
    push_pass(&two, out)?;
    shared.meet(rt, &mut first, two);
    shared.meet(rt, &mut first, one);
    push_closed(rt, alloc, shared, first, out)
}

// Takes another pass in, or lets it go.
fn meet_if<D: Disk + Drop, F: Drop, R: Wait>(
    rt: &R,
    shared: &Shared<D, F>,
    pass: &mut Pass<Entry>,
    other: Pass<Entry>,
    met: bool,
)
    requires pass { IsPassOf (engines.the_row D.row F.row D.Disk).coded shared.now pass.old }
    requires other { IsPassOf (engines.the_row D.row F.row D.Disk).coded shared.now other }
    ensures { IsPassOf (engines.the_row D.row F.row D.Disk).coded shared.now pass.new }
{
    if met {
        shared.meet(rt, pass, other);
    }
}

// The first pass makes the events of the first script. Another is split from it, and makes those of the second. It is met,
// or let go, and the first pass closes with the shares that it has.
fn push_two<D: Disk + Drop, F: Fn(&[u64]) -> usize + Drop, R: Wait>(
    rt: &R,
    alloc: Global,
    shared: Shared<D, F>,
    first: Pass<Entry>,
    scripts: (&str, &str),
    met: bool,
    out: &mut String,
) -> Result<(), Fault>
    requires chooser { IsChooser F.Fn (chooser (first_engine shared)) }
    requires pass { IsPassOf (engines.the_row D.row F.row D.Disk).coded shared first }
{
    let mut first = first;
    push_script(rt, alloc, &shared, &mut first, scripts.0, out)?;
    let mut other = split_off(rt, &shared, &mut first)?;
    push_script(rt, alloc, &shared, &mut other, scripts.1, out)?;
    push_pass(&other, out)?;
    meet_if(rt, &shared, &mut first, other, met);
    push_closed(rt, alloc, shared, first, out)
}

// Splits so many passes off, and lets them go.
fn split_times<D: Disk + Drop, F: Drop, R: Wait>(
    rt: &R,
    shared: &Shared<D, F>,
    pass: &mut Pass<Entry>,
    count: u32,
) -> Result<(), Fault>
    requires { IsPassOf (engines.the_row D.row F.row D.Disk).coded shared.now pass.old }
    ensures { IsPassOf (engines.the_row D.row F.row D.Disk).coded shared.now pass.new }
{
    for _ in 0..count {
        split_off(rt, shared, pass)?;
    }
    Ok(())
}

// Calls a command so often.
fn call_often<D: Disk + Drop, F: Drop, R: Wait>(
    rt: &R,
    alloc: Global,
    shared: &Shared<D, F>,
    mut pass: Pass<Entry>,
    client: u32,
    cmd: &Cmd,
    count: u32,
) -> Pass<Entry>
    requires client { client < CLIENTS }
    requires pass { IsPassOf (engines.the_row D.row F.row D.Disk).coded shared.now pass }
    ensures { IsPassOf (engines.the_row D.row F.row D.Disk).coded shared.now result }
{
    for _ in 0..count {
        let _answer = shared.call(rt, alloc, &mut pass, client, cmd);
    }
    pass
}

// Two passes call a command so often, as clients 1 and 2, each in a thread of its own. They come back as one.
fn call_together<D: Disk + Drop + Send, F: Drop + Send, R: Threads + Wait + Sync>(
    rt: &R,
    alloc: Global,
    shared: &Shared<D, F>,
    one: Pass<Entry>,
    two: Pass<Entry>,
    cmd: &Cmd,
    count: u32,
) -> Pass<Entry>
    requires one { IsPassOf (engines.the_row D.row F.row D.Disk).coded shared.now one }
    requires two { IsPassOf (engines.the_row D.row F.row D.Disk).coded shared.now two }
    ensures { IsPassOf (engines.the_row D.row F.row D.Disk).coded shared.now result }
{
    let (mut one, two) = join(
        rt,
        || -> Pass<Entry>
            requires crosses { IsSync R.row }
            requires pass { IsPassOf (engines.the_row D.row F.row D.Disk).coded shared.now one }
            ensures pass { IsPassOf (engines.the_row D.row F.row D.Disk).coded shared.entry.now result }
        { call_often(rt, alloc, shared, one, 1, cmd, count) },
        || -> Pass<Entry>
            requires crosses { IsSync R.row }
            requires pass { IsPassOf (engines.the_row D.row F.row D.Disk).coded shared.now two }
            ensures pass { IsPassOf (engines.the_row D.row F.row D.Disk).coded shared.entry.now result }
        { call_often(rt, alloc, shared, two, 2, cmd, count) },
    );
    shared.meet(rt, &mut one, two);
    one
}

// Splits so many passes off, lets them go, and closes with what is left.
fn push_split<D: Disk + Drop, F: Drop, R: Wait>(
    rt: &R,
    alloc: Global,
    shared: Shared<D, F>,
    first: Pass<Entry>,
    count: u32,
    out: &mut String,
) -> Result<(), Fault>
    requires { IsPassOf (engines.the_row D.row F.row D.Disk).coded shared first }
{
    let mut first = first;
    split_times(rt, &shared, &mut first, count)?;
    push_closed(rt, alloc, shared, first, out)
}

// Adds of how many entries each of these clients is the one that asked.
fn push_clients(journal: &[Entry], out: &mut String) -> Result<(), Fault> {
    let one = journal.iter().filter(|entry| entry.client == 1).count() as u64;
    let two = journal.iter().filter(|entry| entry.client == 2).count() as u64;
    push_filled("% of client 1, % of client 2: ", &[one, two], out)
}

// Adds what an engine that two clients asked has come to.
fn push_both<D: Disk + Drop, F: Drop>(
    alloc: Global,
    engine: &Engine<D, F>,
    out: &mut String,
) -> Result<(), Fault> {
    push_clients(engine.recent(), out)?;
    push_engine(alloc, engine, out)
}

// Two passes call a command so often, each in a thread of its own, and what they come to is closed.
fn push_together<D: Disk + Drop + Send, F: Drop + Send, R: Threads + Wait + Sync>(
    rt: &R,
    alloc: Global,
    shared: Shared<D, F>,
    first: Pass<Entry>,
    cmd: &Cmd,
    count: u32,
    out: &mut String,
) -> Result<(), Fault>
    requires { IsPassOf (engines.the_row D.row F.row D.Disk).coded shared first }
{
    let mut first = first;
    let other = split_off(rt, &shared, &mut first)?;
    let first = call_together(rt, alloc, &shared, first, other, cmd, count);
    push_filled("% shares: ", &[first.shares()], out)?;
    let engine = shared.close(rt, first);
    let said = push_both(alloc, &engine, out);
    drop(disk_of(engine));
    said
}

// The command of a script of one line.
fn only_command(script: &Script) -> Result<&Cmd, Fault> {
    match script.as_slice().first() {
        Some(Line::Client { cmd, .. }) => Ok(cmd),
        _ => Err(refuse("no command")),
    }
}

// The texts on both sides of a ` : `.
fn two_texts(text: &str) -> Result<(&str, &str), Fault> {
    text.split_once(" : ").ok_or(refuse("no such step"))
}

// Makes what a step says with an engine that is shared, and adds what came of it.
fn push_way<D: Disk + Drop + Send, F: Fn(&[u64]) -> usize + Drop + Send, R: Threads + Wait + Sync>(
    rt: &R,
    alloc: Global,
    shared: Shared<D, F>,
    first: Pass<Entry>,
    way: &str,
    text: &str,
    out: &mut String,
) -> Result<(), Fault>
    requires chooser { IsChooser F.Fn (chooser (first_engine shared)) }
    requires pass { IsPassOf (engines.the_row D.row F.row D.Disk).coded shared first }
{
    match way {
        "split" => push_split(rt, alloc, shared, first, small(text)?, out),
        "met" | "unmet" => {
            push_two(
                rt,
                alloc,
                shared,
                first,
                two_texts(text)?,
                way == "met",
                out,
            )
        }
        "together" => {
            let (count, line) = two_texts(text)?;
            let script = script(alloc, line)?;
            let cmd = only_command(&script)?;
            push_together(rt, alloc, shared, first, cmd, small(count)?, out)
        }
        _ => {
            let (zero, others) = two_texts(text)?;
            let (one, two) = two_texts(others)?;
            push_three(rt, alloc, shared, first, (zero, one, two), out)
        }
    }
}

// Shares an engine, makes what a step says, and adds what came of it.
fn push_shared<
    D: Disk + Drop + Send,
    F: Fn(&[u64]) -> usize + Drop + Send,
    R: Threads + Wait + Sync,
>(
    rt: &R,
    alloc: Global,
    engine: Engine<D, F>,
    way: &str,
    text: &str,
    out: &mut String,
) -> Result<(), Fault>
    requires fresh { IsFresh (serving engine) }
    requires chooser { IsChooser F.Fn (chooser engine) }
{
    match Shared::open(alloc, engine) {
        Ok((shared, first)) => push_way(rt, alloc, shared, first, way, text, out),
        Err((engine, _)) => {
            drop(disk_of(engine));
            Err(refuse("no memory"))
        }
    }
}

/// Opens a new store whose disk fails the call of this number, shares its engine, and adds what comes of a step, a line:
///
/// - `passes`, and three scripts: a pass makes the events of the first one; two more are split from it, one after the
///   other, and make those of theirs; all meet, and the first one closes;
/// - `met` or `unmet`, and two scripts: a pass makes the events of the first one; another is split from it, and makes those
///   of the second; it is met, or let go, and the first one closes;
/// - `split`, and a number: so many passes are split from one, which closes;
/// - `together`, a number and a line: two passes call its command so often, as clients 1 and 2, each in a thread.
pub(crate) fn push_passes<R: Threads + Wait + Sync>(
    rt: &R,
    alloc: Global,
    call: u64,
    way: &str,
    text: &str,
    out: &mut String,
) -> Result<(), Fault> {
    let disk = new_disk(alloc, call)?;
    let engine = open(alloc, disk, Placement::new(|_: &[u64]| 0))?;
    push_shared(rt, alloc, engine, way, text, out)
}
