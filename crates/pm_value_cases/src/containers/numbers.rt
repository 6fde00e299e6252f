//! Calls of values at numbers.

use crate::containers::answers::{Answer, NumberCalls, Numbers};
use pm_case_text::{Fault, numbered, push_calls, refuse};
use pm_types::Numbered;
use std::alloc::Global;
use std::collections::BTreeMap;

// Changes the value of a number through what is lent; whether the number has one.
fn is_changed(values: &mut Numbered<u64>, at: u64, value: u64) -> bool {
    match values.get_mut(at) {
        Some(lent) => {
            *lent = value;
            true
        }
        None => false,
    }
}

impl Numbers for Numbered<u64> {
    fn with_none(&mut self, _alloc: Global, _call: &str) -> Result<Answer, Fault> {
        Err(refuse("no such call"))
    }

    fn with_one(&mut self, call: &str, at: u64) -> Result<Answer, Fault> {
        match call {
            "take" => Ok(Answer::Found(self.remove(at))),
            "get" => Ok(Answer::Found(self.get(at).copied())),
            "has" => Ok(Answer::Whether(self.has(at))),
            _ => Err(refuse("no such call")),
        }
    }

    fn with_two(&mut self, call: &str, at: u64, value: u64) -> Result<Answer, Fault> {
        match call {
            "put" => Ok(Answer::Whether(self.insert(at, value).is_ok())),
            "change" => Ok(Answer::Whether(is_changed(self, at, value))),
            _ => Err(refuse("no such call")),
        }
    }
}

/// `N CALLS`: the calls, between ` / `, of no values, where N are expected: `put NUMBER VALUE`, `change NUMBER VALUE`,
/// `take NUMBER`, `get NUMBER` and `has NUMBER`.
pub(crate) fn push_numbered(alloc: Global, text: &str, out: &mut String) -> Result<(), Fault> {
    let (expected, calls) = numbered(text)?;
    let mut values = Numbered::expecting(alloc, expected as usize);
    push_calls::<NumberCalls, _>(alloc, &mut values, calls, out)
}

// Values at numbers beside a plain map.
#[derive(Drop)]
struct Beside {
    values: Numbered<u64>,
    map: BTreeMap<u64, u64>,
}

// A number below eight times the count, or far above it, by the turn.
fn drawn(turn: u32, count: u32) -> u64 {
    let near = (turn as u64).wrapping_mul(7919) % (count as u64 * 8 + 1);
    if turn % 5 == 0 { near << 32 } else { near }
}

// Puts the turn at a number into both.
fn put(beside: &mut Beside, at: u64, turn: u32) -> Result<(), Fault> {
    if beside.values.insert(at, turn as u64).is_err() {
        return Err(refuse("no memory"));
    }
    beside.map.insert(at, turn as u64)?;
    Ok(())
}

// Whether both have the same at a number, and give it up alike where the turn is one of three.
fn is_alike(beside: &mut Beside, at: u64, turn: u32) -> bool {
    let same = beside.values.get(at) == beside.map.get(&at);
    if turn % 3 == 0 {
        return same && beside.values.remove(at) == beside.map.remove(&at);
    }
    same
}

// Whether both answer alike in so many turns.
fn answer_alike(beside: &mut Beside, count: u32) -> Result<bool, Fault> {
    let mut same = true;
    for turn in 0..count {
        put(beside, drawn(turn, count), turn)?;
        same &= is_alike(beside, drawn(turn / 2, count), turn);
    }
    for turn in 0..count {
        same &= is_alike(beside, drawn(turn, count), turn);
    }
    Ok(same)
}

/// Whether values at numbers answer as a plain map does, while so many come at numbers near and far, some of them
/// again, and some are taken out.
pub(crate) fn is_long_right(alloc: Global, count: u32) -> Result<bool, Fault> {
    let mut beside = Beside {
        values: Numbered::new(alloc),
        map: BTreeMap::new(alloc),
    };
    answer_alike(&mut beside, count)
}
