//! Commands without events, over a space in memory.

ghost use Rattle.pm_place.specs.Choosers.{IsChooser};

use crate::frozen::push_frozen;
use crate::paths::{Found, push_found};
use crate::scripted::{Course, Shows, new_course, run_text};
use pm_case_text::{Fault, push_filled, push_said, push_value_line, refuse};
use pm_space::Space;
use std::alloc::Global;

// The lines with the number of a time in place of the second `%`, and its rest modulo 1,024 in place of the first.
fn numbered_lines(alloc: Global, lines: &str, time: u64) -> Result<String, Fault> {
    let mut text = String::new(alloc);
    push_filled(lines, &[time % 1024, time], &mut text)?;
    Ok(text)
}

// Carries out lines that are numbered.
fn run_time<F: Fn(&[u64]) -> usize + Drop>(
    space: &mut Space<F>,
    alloc: Global,
    lines: &str,
    time: u64,
    course: &mut Course,
    out: &mut String,
) -> Result<(), Fault>
    requires { IsChooser F.Fn space.old.parts.place }
    ensures { IsChooser F.Fn space.new.parts.place }
{
    let text = numbered_lines(alloc, lines, time)?;
    run_text(space, alloc, text.as_str(), course, out)
}

// Carries out lines so many times, with the number of the time in them, and answers how many commands were refused.
fn run_times<F: Fn(&[u64]) -> usize + Drop>(
    space: &mut Space<F>,
    alloc: Global,
    lines: &str,
    times: u64,
    out: &mut String,
) -> Result<u64, Fault>
    requires { IsChooser F.Fn space.old.parts.place }
    ensures { IsChooser F.Fn space.new.parts.place }
{
    let mut course = new_course(alloc, Shows::End);
    for time in 0..times {
        run_time(space, alloc, lines, time, &mut course, out)?;
    }
    Ok(course.refused)
}

/// Adds what the open train is.
pub(crate) fn push_open<F: Drop>(space: &Space<F>, out: &mut String) -> Result<(), Fault> {
    let trains = &space.parts.trains;
    let open = trains.youngest();
    push_filled(
        "train %, births %, cars %, standing %\n",
        &[
            open,
            u64::from(trains.births()),
            trains.cars(open).len() as u64,
            space.standing(),
        ],
        out,
    )
}

// Adds how many registers of a client are empty before and after its `close`.
fn push_empty<F: Fn(&[u64]) -> usize + Drop>(
    space: &mut Space<F>,
    alloc: Global,
    out: &mut String,
) -> Result<(), Fault>
    requires { IsChooser F.Fn space.old.parts.place }
{
    let before = run_times(space, alloc, "0 id %", 1024, out)?;
    run_times(space, alloc, "0 close", 1, out)?;
    let after = run_times(space, alloc, "0 id %", 1024, out)?;
    push_filled("empty %, after close %\n", &[before, after], out)
}

// `N`: N births in the registers of a client in turn: what the open train is then, and how many of the 1,024 registers
// are empty before and after the client's `close`.
fn push_births<F: Fn(&[u64]) -> usize + Drop>(
    space: &mut Space<F>,
    alloc: Global,
    births: u64,
    out: &mut String,
) -> Result<(), Fault>
    requires { IsChooser F.Fn space.old.parts.place }
{
    run_times(space, alloc, "0 new % 0 -", births, out)?;
    push_open(space, out)?;
    push_empty(space, alloc, out)
}

// `N`: N names for one object: how many of them are too many.
fn push_names<F: Fn(&[u64]) -> usize + Drop>(
    space: &mut Space<F>,
    alloc: Global,
    names: u64,
    out: &mut String,
) -> Result<(), Fault>
    requires { IsChooser F.Fn space.old.parts.place }
{
    run_times(space, alloc, "0 new 0 0 -", 1, out)?;
    let refused = run_times(space, alloc, "0 root %.% 0", names, out)?;
    push_said("too many", refused, out)
}

// How many changes wait for car 1.
fn waiting<F>(space: &Space<F>) -> u64 {
    match space.parts.links.get(1) {
        Some(links) => links.queue.len(),
        None => 0,
    }
}

// Adds the first change that waits for car 1.
fn push_front<F>(space: &Space<F>, out: &mut String) -> Result<(), Fault> {
    match space.parts.links.get(1) {
        Some(links) => push_value_line(&links.queue.front(), out),
        None => Ok(()),
    }
}

// Adds the changes that wait for car 1, each before the event that applies it.
fn push_fronts<F: Fn(&[u64]) -> usize + Drop>(
    space: &mut Space<F>,
    alloc: Global,
    out: &mut String,
) -> Result<(), Fault>
    requires { IsChooser F.Fn space.old.parts.place }
{
    for _ in 0..waiting(space) {
        push_front(space, out)?;
        run_times(space, alloc, "! gc 1", 1, out)?;
    }
    Ok(())
}

// Two objects of one field are made, the first then names the second, and then the register of the first holds the
// second.
fn line_of(number: u64) -> &'static str {
    match number {
        0 => "0 new 1 1 -",
        1 => "0 new 2 1 -",
        2 => "0 store 1 0 2",
        _ => "0 copy 1 2",
    }
}

// Gives the first commands.
fn give_first<F: Fn(&[u64]) -> usize + Drop>(
    space: &mut Space<F>,
    alloc: Global,
    commands: u64,
    out: &mut String,
) -> Result<(), Fault>
    requires { IsChooser F.Fn space.old.parts.place }
    ensures { IsChooser F.Fn space.new.parts.place }
{
    for number in 0..commands {
        run_times(space, alloc, line_of(number), 1, out)?;
    }
    Ok(())
}

// `N`: the first N of four commands, which are two births of objects of one field in registers 1 and 2, `store 1 0 2` and
// `copy 1 2`: the changes that wait for car 1 then. The event before the first that applies one selects its train.
fn push_queued<F: Fn(&[u64]) -> usize + Drop>(
    space: &mut Space<F>,
    alloc: Global,
    commands: u64,
    out: &mut String,
) -> Result<(), Fault>
    requires { IsChooser F.Fn space.old.parts.place }
{
    give_first(space, alloc, commands, out)?;
    run_times(space, alloc, "! gc 1", 1, out)?;
    push_fronts(space, alloc, out)
}

// `N`: N objects, of which each holds the one before and a name stands for the last: how many steps the path to the
// first has, and whether it is accepted.
fn push_chain<F: Fn(&[u64]) -> usize + Drop>(
    space: &mut Space<F>,
    alloc: Global,
    count: u64,
    out: &mut String,
) -> Result<(), Fault>
    requires { IsChooser F.Fn space.old.parts.place }
{
    let lines = "0 new 1 1 - / 0 store 1 0 0 / 0 copy 0 1";
    run_times(space, alloc, lines, count, out)?;
    run_times(space, alloc, "0 root last 0", 1, out)?;
    push_found(space, alloc, 1, Found::Length, out)
}

/// A step that is told a number, over a new space. What is frozen is a table of its own.
pub(crate) fn push_counted<F: Fn(&[u64]) -> usize + Drop>(
    space: &mut Space<F>,
    alloc: Global,
    step: &str,
    number: u64,
    out: &mut String,
) -> Result<(), Fault>
    requires { IsChooser F.Fn space.old.parts.place }
{
    match step {
        "frozen" => push_frozen(alloc, number, out),
        "births" => push_births(space, alloc, number, out),
        "names" => push_names(space, alloc, number, out),
        "queued" => push_queued(space, alloc, number, out),
        "chain" => push_chain(space, alloc, number, out),
        _ => Err(refuse("Step")),
    }
}
