//! Calls of a queue of changes.

use crate::containers::spelling::{Calls, source};
use pm_case_text::{
    CallsOf, Fault, first_word, push_calls, push_number, push_value, push_words, refuse, small,
};
use pm_delta::Queue;
use pm_types::{Change, RefSource};
use std::alloc::Global;

// `push SOURCE SLOT`; where no number stands in place of the slot, there is none.
fn change(text: &str) -> Result<Change, Fault> {
    let (call, rest) = first_word(text);
    let (from, slot) = first_word(rest);
    match (call, source(from)) {
        ("push", Ok(source)) => Ok(Change {
            source,
            slot: small(slot).ok(),
        }),
        _ => Err(refuse("no such call")),
    }
}

// Puts a change into the queue.
fn push(queue: &mut Queue, change: Change) -> Result<(), Fault> {
    queue.reserve(1)?;
    queue.push(change);
    Ok(())
}

// Puts the change that the text spells into the queue.
fn push_put(queue: &mut Queue, text: &str, out: &mut String) -> Result<(), Fault> {
    push(queue, change(text)?)?;
    push_words("ok", out)
}

impl CallsOf<Queue> for Calls {
    fn call(_alloc: Global, called: &mut Queue, text: &str, out: &mut String) -> Result<(), Fault> {
        match text {
            "pop" => push_value(&called.pop(), out),
            "front" => push_value(&called.front(), out),
            "len" => push_number(called.len(), out),
            _ => push_put(called, text, out),
        }
    }
}

/// `CALLS`: the calls, between ` / `, of a new queue: `push SOURCE SLOT`, `pop`, `front` and `len`.
pub(crate) fn push_queue(alloc: Global, text: &str, out: &mut String) -> Result<(), Fault> {
    let mut queue = Queue::new(alloc);
    push_calls::<Calls, _>(alloc, &mut queue, text, out)
}

// The change of a root to a slot.
fn of_root(number: u32, slot: u32) -> Change {
    Change {
        source: RefSource::Root(number as u64),
        slot: Some(slot),
    }
}

// Whether the change that leaves the queue is that of this turn.
fn leaves(queue: &mut Queue, turn: u32) -> bool {
    queue.pop() == Some(of_root(turn / 2, turn % 2 + 1))
}

// Puts two changes into the queue, and takes one out; whether it is the one that is due.
fn is_turn_right(queue: &mut Queue, turn: u32) -> Result<bool, Fault> {
    push(queue, of_root(turn, 1))?;
    push(queue, of_root(turn, 2))?;
    Ok(leaves(queue, turn))
}

// Whether so many turns are right.
fn are_turns_right(queue: &mut Queue, turns: u32) -> Result<bool, Fault> {
    let mut right = true;
    for turn in 0..turns {
        right &= is_turn_right(queue, turn)?;
    }
    Ok(right && queue.len() == turns as u64)
}

/// Whether changes leave a queue in the order in which they came, while in each of so many turns two come and one
/// leaves, and then all the others leave.
pub(crate) fn is_long_right(alloc: Global, turns: u32) -> Result<bool, Fault> {
    let mut queue = Queue::new(alloc);
    let mut right = are_turns_right(&mut queue, turns)?;
    for left in turns..turns.saturating_mul(2) {
        right &= leaves(&mut queue, left);
    }
    Ok(right && queue.pop().is_none())
}
