//! Choosers of trains.

ghost use Rattle.std.specs.Prelude.{◌<◌, length};

use pm_case_text::{Fault, first_word, number, push_value_line, refuse};
use pm_place::{Placement, first_of, last_of, middle_of};
use std::alloc::Global;

// The place that a chooser answers, which is `first`, `last` or `middle`, and else the second one, where there is one.
fn place_of(chooser: &str, trains: &[u64]) -> usize
    requires { 0 < length trains.now }
    ensures { result < length trains.now }
{
    match chooser {
        "first" => first_of(trains),
        "last" => last_of(trains),
        "middle" => middle_of(trains),
        _ => 1usize.min(trains.len() - 1),
    }
}

// The train that a chooser picks: a closure is a chooser.
fn picked(chooser: &str, trains: &[u64]) -> u64
    requires { 0 < length trains.now }
{
    Placement::new(move |trains: &[u64]| place_of(chooser, trains)).pick(trains)
}

// The numbers of trains.
fn trains_of(alloc: Global, text: &str) -> Result<Vec<u64>, Fault> {
    let mut trains = Vec::new(alloc);
    for word in text.split(' ') {
        match number(word) {
            Ok(number) => trains.push(number)?,
            Err(fault) => return Err(fault),
        }
    }
    Ok(trains)
}

// Adds the train that a chooser picks.
fn push_picked(chooser: &str, trains: &[u64], out: &mut String) -> Result<(), Fault> {
    match chooser {
        "first" | "last" | "middle" | "second" if !trains.is_empty() => {
            push_value_line(&picked(chooser, trains), out)
        }
        _ => Err(refuse("no such chooser, or no train")),
    }
}

/// `CHOOSER N ..`: the train that it picks of these.
pub(crate) fn push_pick(alloc: Global, text: &str, out: &mut String) -> Result<(), Fault> {
    let (chooser, rest) = first_word(text);
    let trains = trains_of(alloc, rest)?;
    push_picked(chooser, trains.as_slice(), out)
}
