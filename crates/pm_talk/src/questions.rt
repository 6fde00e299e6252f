//! What is asked of a store that changes nothing: an object, a name, counts and a watch.

ghost use Rattle.std.specs.Prelude.{◌≡◌, ◌<◌, ℕ, List, Ok, IfOk, option_map};
ghost use Rattle.pm_types.specs.declared.limits.TheConstants.{CLIENTS};
ghost use Rattle.pm_peer.specs.declared.asked.Asked.TheVariants as asks;
ghost use Rattle.pm_saving.specs.Serving.{world};
ghost use Rattle.pm_engine.specs.Shown.{serving, tally_in};
ghost use Rattle.pm_talk.specs.Saying.{SaysBy, Tells};
ghost use Rattle.pm_talk.specs.Texts.{held_line, line_numbered, look_line, name_line, named_line, watch_told};
ghost use Rattle.pm_types.specs.declared.limits.TheConstants.{REGISTERS};

use crate::answer::Saying;
use crate::texts::{
    end_line, marked_line, marked_text, no_handle_line, no_memory_line, no_root_line,
    no_watch_line, watch_line,
};
use pm_disk::Disk;
use pm_engine::events::Engine;
use pm_serial::output::line::Line;
use pm_types::{NoMemory, Reg, WatchLine};
use pm_walk::{object_text, root_text};
use std::alloc::Global;

// The line of what a register holds, if it holds anything.
fn held_text<D: Disk, F: Drop>(
    alloc: Global,
    engine: &Engine<D, F>,
    client: u32,
    register: u32,
) -> Result<Option<Vec<u8>>, NoMemory>
    requires client { client < CLIENTS }
    requires register { register < REGISTERS }
    ensures { IfOk result (λ told. option_map (λ text. text.items) told
        ≡ held_line (world (serving engine.now)) client register) }
{
    engine.keep_their_images();
    object_text(alloc, engine.space(), client, register)
}

// The line of the name at this place, if there are as many.
fn named_text<D: Disk, F: Drop>(
    alloc: Global,
    engine: &Engine<D, F>,
    place: u32,
) -> Result<Option<Vec<u8>>, NoMemory>
    ensures { IfOk result (λ told. option_map (λ text. text.items) told
        ≡ named_line (world (serving engine.now)) place) }
{
    engine.keep_their_images();
    root_text(alloc, engine.space(), u64::from(place))
}

// What is told of an object's line, or that there is none.
fn say_held(alloc: Global, text: Option<Vec<u8>>) -> Result<Saying, NoMemory>
    ensures { IfOk result (Tells (look_line (option_map (λ text. text.items) text))) }
{
    match text {
        Some(text) => Ok(Saying::Text(marked_text(alloc, text.as_slice())?)),
        None => Ok(Saying::Short(no_handle_line())),
    }
}

// What is told of a name's line, or that there is none.
fn say_named(alloc: Global, text: Option<Vec<u8>>) -> Result<Saying, NoMemory>
    ensures { IfOk result (Tells (name_line (option_map (λ text. text.items) text))) }
{
    match text {
        Some(text) => Ok(Saying::Text(marked_text(alloc, text.as_slice())?)),
        None => Ok(Saying::Short(no_root_line())),
    }
}

// What is told of what a register holds.
fn look<D: Disk, F: Drop>(
    alloc: Global,
    engine: &Engine<D, F>,
    client: u32,
    register: u32,
) -> Result<Saying, NoMemory>
    requires client { client < CLIENTS }
    requires register { register < REGISTERS }
    ensures { IfOk result (Tells (look_line (held_line (world (serving engine.now)) client register))) }
{
    let text = held_text(alloc, engine, client, register)?;
    say_held(alloc, text)
}

// What is told of the name at a place.
fn name<D: Disk, F: Drop>(
    alloc: Global,
    engine: &Engine<D, F>,
    place: u32,
) -> Result<Saying, NoMemory>
    ensures { IfOk result (Tells (name_line (named_line (world (serving engine.now)) place))) }
{
    let text = named_text(alloc, engine, place)?;
    say_named(alloc, text)
}

/// Answers what a register holds.
pub(crate) fn answer_look<D: Disk, F: Drop>(
    alloc: Global,
    engine: &Engine<D, F>,
    client: u32,
    reg: Reg,
) -> Saying
    requires client { client < CLIENTS }
    ensures { (events : ℕ) (buffer : List ℕ) → SaysBy events (Ok (asks.Look client reg))
        (serving engine.now) (serving engine.now) buffer result }
{
    match look(alloc, engine, client, reg.number()) {
        Ok(saying) => saying,
        Err(refused) => Saying::Short(no_memory_line(refused)),
    }
}

/// Answers which name is at a place.
pub(crate) fn answer_name<D: Disk, F: Drop>(
    alloc: Global,
    engine: &Engine<D, F>,
    place: u32,
) -> Saying
    ensures { (events : ℕ) (buffer : List ℕ) → SaysBy events (Ok (asks.Name place))
        (serving engine.now) (serving engine.now) buffer result }
{
    match name(alloc, engine, place) {
        Ok(saying) => saying,
        Err(refused) => Saying::Short(no_memory_line(refused)),
    }
}

/// Answers the counts of the end line.
pub(crate) fn answer_count<D: Disk, F: Drop>(engine: &Engine<D, F>) -> Saying
    ensures { (events : ℕ) (buffer : List ℕ) → SaysBy events (Ok asks.Count)
        (serving engine.now) (serving engine.now) buffer result }
{
    let line = end_line(engine.steps(), engine.completed(), engine.standing());
    Saying::Short(marked_line(&line))
}

// What is told of the watch of this number.
fn tell_watch(lines: &[WatchLine], number: u32) -> Line
    ensures { result.items ≡ watch_told (line_numbered number lines.now) }
{
    for watch in lines {
        if watch.number == number {
            return marked_line(&watch_line(watch));
        }
    }
    no_watch_line()
}

/// Answers how far a watch has come.
pub(crate) fn answer_watch<D: Disk, F: Drop>(engine: &Engine<D, F>, number: u32) -> Saying
    ensures { (events : ℕ) (buffer : List ℕ) → SaysBy events (Ok (asks.Watch number))
        (serving engine.now) (serving engine.now) buffer result }
{
    let lines = engine.lines();
    Saying::Short(tell_watch(lines.as_slice(), number))
}
