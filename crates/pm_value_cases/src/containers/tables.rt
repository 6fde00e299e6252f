//! Calls of a table that may be frozen.

use crate::containers::answers::{Answer, NumberCalls, Numbers};
use pm_case_text::{Fault, push_calls, refuse};
use pm_snap::{Keep, Table};
use pm_types::NoMemory;
use std::alloc::Global;

// A value of the table.
#[derive(Drop)]
struct Held {
    number: u64,
}

impl Keep for Held {
    fn keep(&self, _alloc: Global) -> Result<Held, NoMemory> {
        Ok(Held {
            number: self.number,
        })
    }
}

// The number of a value.
fn number_of(held: Option<&Held>) -> Answer {
    match held {
        Some(held) => Answer::Found(Some(held.number)),
        None => Answer::Found(None),
    }
}

// Adds a value under the least key that is not used, and answers the key.
fn add(table: &mut Table<Held>, number: u64) -> Result<Answer, Fault> {
    match table.add(Held { number }) {
        Ok(key) => Ok(Answer::Number(key)),
        Err(_) => Err(refuse("no memory")),
    }
}

// Adds a value under a key; whether it was not used, and memory did not run out.
fn is_added_at(table: &mut Table<Held>, key: u64, number: u64) -> bool {
    if key == 0 || table.get(key).is_some() {
        return false;
    }
    table.add_at(key, Held { number }).is_ok()
}

// Removes the value under a key, and answers its number.
fn remove(table: &mut Table<Held>, key: u64) -> Result<Answer, Fault> {
    if table.get(key).is_none() {
        return Err(refuse("no value"));
    }
    Ok(Answer::Number(table.remove(key)?.number))
}

impl Numbers for Table<Held> {
    fn with_none(&mut self, _alloc: Global, call: &str) -> Result<Answer, Fault> {
        match call {
            "freeze" => {
                self.thaw();
                self.freeze();
                Ok(Answer::Done)
            }
            "vacant" => Ok(Answer::Number(self.vacant())),
            _ => Err(refuse("no such call")),
        }
    }

    fn with_one(&mut self, call: &str, number: u64) -> Result<Answer, Fault> {
        match call {
            "add" => add(self, number),
            "remove" => remove(self, number),
            "get" => Ok(number_of(self.get(number))),
            "frozen" => Ok(number_of(self.frozen(number))),
            _ => Err(refuse("no such call")),
        }
    }

    fn with_two(&mut self, call: &str, key: u64, number: u64) -> Result<Answer, Fault> {
        match call {
            "add-at" => Ok(Answer::Whether(is_added_at(self, key, number))),
            _ => Err(refuse("no such call")),
        }
    }
}

/// `CALLS`: the calls, between ` / `, of a new table: `add NUMBER`, `add-at KEY NUMBER`, `remove KEY`, `freeze`,
/// `get KEY`, `frozen KEY` and `vacant`.
pub(crate) fn push_table(alloc: Global, text: &str, out: &mut String) -> Result<(), Fault> {
    let mut table = Table::<Held>::new(alloc);
    push_calls::<NumberCalls, _>(alloc, &mut table, text, out)
}
