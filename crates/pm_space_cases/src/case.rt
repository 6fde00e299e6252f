//! A line of the input: a case's name, or a step.

ghost use Rattle.std.specs.Prelude.{◌<◌, length};
ghost use Rattle.pm_place.specs.Choosers.{IsChooser};

use crate::collected::push_beside;
use crate::opened::{push_next, push_opened};
use crate::replayed::push_late;
use crate::scripted::{Shows, push_script};
use crate::spaced::push_counted;
use pm_case_text::{Fault, first_word, is_silent, number, push_case, refuse};
use pm_place::{Placement, first_of, last_of, middle_of};
use pm_space::Space;
use std::alloc::Global;

// Which train an object moves to.
#[derive(Clone, Copy)]
enum Chosen {
    First,
    Last,
    Middle,
}

// The index of the chosen train.
fn place_of(chosen: Chosen, trains: &[u64]) -> usize
    requires { 0 < length trains.now }
    ensures { result < length trains.now }
{
    match chosen {
        Chosen::First => first_of(trains),
        Chosen::Last => last_of(trains),
        Chosen::Middle => middle_of(trains),
    }
}

// What a step shows, if it is told more than a number.
fn shows(step: &str) -> Option<Shows> {
    match step {
        "script" => Some(Shows::All),
        "kinds" => Some(Shows::Kinds),
        "replies" => Some(Shows::Replies),
        "end" => Some(Shows::End),
        "last" => Some(Shows::Last),
        "open" => Some(Shows::Open),
        "dump" => Some(Shows::Dump),
        "texts" => Some(Shows::Texts),
        "why" => Some(Shows::Why),
        "drawn" | "collected" => Some(Shows::Draws),
        "late" => Some(Shows::Late),
        _ => None,
    }
}

// A step over a new space that is told a number.
fn push_told<F: Fn(&[u64]) -> usize + Drop>(
    space: &mut Space<F>,
    alloc: Global,
    step: &str,
    text: &str,
    out: &mut String,
) -> Result<(), Fault>
    requires { IsChooser F.Fn space.old.parts.place }
{
    match number(text) {
        Ok(number) => push_counted(space, alloc, step, number, out),
        Err(fault) => Err(fault),
    }
}

// A step over a new space.
fn push_over<F: Fn(&[u64]) -> usize + Drop>(
    space: &mut Space<F>,
    alloc: Global,
    step: &str,
    text: &str,
    out: &mut String,
) -> Result<(), Fault>
    requires { IsChooser F.Fn space.old.parts.place }
{
    match shows(step) {
        Some(Shows::Draws) => push_beside(space, alloc, step, text, out),
        Some(Shows::Late) => push_late(space, alloc, text, out),
        Some(shows) => push_script(space, alloc, shows, text, out),
        None => push_told(space, alloc, step, text, out),
    }
}

// A step over a space, which is let go then.
fn push_owned<F: Fn(&[u64]) -> usize + Drop>(
    mut space: Space<F>,
    alloc: Global,
    step: &str,
    text: &str,
    out: &mut String,
) -> Result<(), Fault>
    requires { IsChooser F.Fn space.parts.place }
{
    push_over(&mut space, alloc, step, text, out)
}

// A step over a new space in which objects move to the chosen trains.
fn push_chosen(
    alloc: Global,
    chosen: Chosen,
    step: &str,
    text: &str,
    out: &mut String,
) -> Result<(), Fault> {
    let place = Placement::new(move |trains: &[u64]| place_of(chosen, trains));
    push_owned(Space::new(alloc, place)?, alloc, step, text, out)
}

// Which train the word stands for.
fn chosen_of(word: &str) -> Result<Chosen, Fault> {
    match word {
        "first" => Ok(Chosen::First),
        "last" => Ok(Chosen::Last),
        "middle" => Ok(Chosen::Middle),
        _ => Err(refuse("Step")),
    }
}

// The word for a chooser, and what is drawn.
fn push_drawn_by(alloc: Global, text: &str, out: &mut String) -> Result<(), Fault> {
    let (word, rest) = first_word(text);
    push_chosen(alloc, chosen_of(word)?, "collected", rest, out)
}

// A step: its first word, and what follows.
fn push_step(alloc: Global, step: &str, text: &str, out: &mut String) -> Result<(), Fault> {
    match step {
        "case" => push_case(text, out),
        "opened" => push_opened(alloc, text, out),
        "next" => push_next(alloc, text, out),
        "collected" => push_drawn_by(alloc, text, out),
        _ => push_chosen(alloc, Chosen::First, step, text, out),
    }
}

// The word for why a step was not done.
fn fault_word(reason: &'static str) -> &'static str {
    match reason {
        "no memory" => "Memory",
        "no number" | "no bytes" => "Word",
        _ => reason,
    }
}

/// Takes a line of the input, and adds what it gives. A line that begins with `#`, and one that is empty, say nothing.
pub fn take(alloc: Global, line: &str, out: &mut String) -> Result<(), Fault> {
    if is_silent(line) {
        return Ok(());
    }
    let (step, text) = first_word(line);
    match push_step(alloc, step, text, out) {
        Ok(()) => Ok(()),
        Err(fault) => Err(refuse(fault_word(fault.reason))),
    }
}
