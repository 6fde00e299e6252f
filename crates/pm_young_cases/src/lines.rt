//! Lines over an engine with a nursery.

ghost use Rattle.std.specs.Prelude.{◌≡◌};
ghost use Rattle.pm_place.specs.Choosers.{IsChooser};
ghost use Rattle.pm_young.specs.Seen.{chooser};

use crate::events::{push_fault, push_flush, push_parted, push_steps};
use crate::given::push_give;
use pm_case_text::{Fault, first_word, number, push_filled, push_number, push_words, refuse};
use pm_disk::{Disk, MemDisk};
use pm_place::Placement;
use pm_types::OpenFault;
use pm_young::YoungEngine;
use std::alloc::Global;
use std::fmt::Write;

/// Makes a sweep, and adds what it answered.
pub(crate) fn push_sweep<D: Disk, F: Drop>(
    alloc: Global,
    engine: &mut YoungEngine<D, F>,
    out: &mut String,
) -> Result<(), Fault>
    ensures { chooser engine.new ≡ chooser engine.old }
{
    match engine.sweep(alloc) {
        Ok(()) => push_words("swept", out),
        Err(fault) => push_fault(fault, out),
    }
}

// Makes room for so many entries.
fn push_room<D: Disk, F: Drop>(
    engine: &mut YoungEngine<D, F>,
    text: &str,
    out: &mut String,
) -> Result<(), Fault>
    ensures { chooser engine.new ≡ chooser engine.old }
{
    engine.reserve_entries(number(text)?)?;
    push_words("room", out)
}

/// Adds the identities that entered.
pub(crate) fn push_entered<D: Disk, F: Drop>(
    engine: &YoungEngine<D, F>,
    out: &mut String,
) -> Result<(), Fault> {
    push_words("entered", out)?;
    for id in engine.entered() {
        push_words(" ", out)?;
        push_number(*id as u64, out)?;
    }
    Ok(())
}

// Adds what the engine tells of itself.
fn push_told<D: Disk, F: Drop>(engine: &YoungEngine<D, F>, out: &mut String) -> Result<(), Fault> {
    let numbers = [
        engine.journal().len() as u64,
        engine.events(),
        engine.steps(),
        engine.completed(),
        engine.standing(),
        engine.young(),
    ];
    let text = "% entries, % events, % steps, % completed, % standing, % young";
    push_filled(text, &numbers, out)
}

// Runs a line, and adds what it gave.
fn push_line<D: Disk, F: Fn(&[u64]) -> usize + Drop>(
    alloc: Global,
    engine: &mut YoungEngine<D, F>,
    line: &str,
    out: &mut String,
) -> Result<(), Fault>
    requires { IsChooser F.Fn (chooser engine.old) }
    ensures { chooser engine.new ≡ chooser engine.old }
{
    let (word, rest) = first_word(line);
    match word {
        "give" => push_give(alloc, engine, rest, out),
        "sweep" => push_sweep(alloc, engine, out),
        "collect" => push_steps(alloc, engine, number(rest)?, out),
        "flush" => push_flush(alloc, engine, out),
        "room" => push_room(engine, rest, out),
        "entered" => push_entered(engine, out),
        "told" => push_told(engine, out),
        _ => Err(refuse("no such line")),
    }
}

// Runs the lines that ` / ` stands between, and adds what each gave, with ` / ` between.
fn push_lines<D: Disk, F: Fn(&[u64]) -> usize + Drop>(
    alloc: Global,
    engine: &mut YoungEngine<D, F>,
    text: &str,
    out: &mut String,
) -> Result<(), Fault>
    requires { IsChooser F.Fn (chooser engine.old) }
{
    for (place, line) in text.split(" / ").enumerate() {
        if place > 0 {
            push_words(" / ", out)?;
        }
        push_line(alloc, engine, line, out)?;
    }
    Ok(())
}

// Runs the lines over an engine that was opened, and lets it go.
fn push_served<D: Disk + Drop, F: Fn(&[u64]) -> usize + Drop>(
    alloc: Global,
    mut engine: YoungEngine<D, F>,
    text: &str,
    out: &mut String,
) -> Result<(), Fault>
    requires { IsChooser F.Fn (chooser engine) }
{
    push_lines(alloc, &mut engine, text, out)
}

// Runs the lines over an engine that was opened, takes it apart, and adds what it came to.
fn push_ended<D: Disk + Drop, F: Fn(&[u64]) -> usize + Drop>(
    alloc: Global,
    mut engine: YoungEngine<D, F>,
    text: &str,
    out: &mut String,
) -> Result<(), Fault>
    requires { IsChooser F.Fn (chooser engine) }
{
    let said = push_lines(alloc, &mut engine, text, out);
    let told = push_words(" / ", out);
    let parted = push_parted(engine, out);
    said?;
    told?;
    parted
}

// Adds why there is no store.
fn push_unopened(fault: OpenFault, out: &mut String) -> Result<(), Fault> {
    write!(out, "{fault}")?;
    Ok(())
}

/// Opens the store of these bytes with a nursery, and runs the lines over it that ` / ` stands between. It adds what
/// each gave, or why there is no store, a line; and, where it `ends`, what the engine came to, which is taken apart.
pub(crate) fn push_run(
    alloc: Global,
    bytes: &[u8],
    text: &str,
    ends: bool,
    out: &mut String,
) -> Result<(), Fault> {
    let disk = MemDisk::new(bytes.to_vec(alloc)?, Vec::new(alloc));
    let said = match YoungEngine::open_young(alloc, disk, Placement::new(|_: &[u64]| 0)) {
        Ok(engine) if ends => push_ended(alloc, engine, text, out),
        Ok(engine) => push_served(alloc, engine, text, out),
        Err((_disk, fault)) => push_unopened(fault, out),
    };
    said?;
    push_words("\n", out)
}
