//! The numbers of calls.

use crate::{Fault, number};
use std::alloc::Global;

// Behind how many calls the number of this word is counted: one with a plus is counted from behind `opening` calls.
fn calls_before(word: &str, opening: u64) -> u64 {
    if word.starts_with('+') { opening } else { 0 }
}

/// The number of a call. One with a plus is counted from behind `opening` calls.
pub(crate) fn call_number(word: &str, opening: u64) -> Result<u64, Fault> {
    Ok(calls_before(word, opening).saturating_add(number(word)?))
}

// Adds the number of a call.
fn push_call_number(numbers: &mut Vec<u64>, word: &str, opening: u64) -> Result<(), Fault> {
    Ok(numbers.push(call_number(word, opening)?)?)
}

// Adds the numbers of calls.
fn push_call_numbers(numbers: &mut Vec<u64>, text: &str, opening: u64) -> Result<(), Fault> {
    for word in text.split(' ') {
        push_call_number(numbers, word, opening)?;
    }
    Ok(())
}

/// The numbers of calls.
pub(crate) fn call_numbers(alloc: Global, text: &str, opening: u64) -> Result<Vec<u64>, Fault> {
    let mut numbers = Vec::new(alloc);
    push_call_numbers(&mut numbers, text, opening)?;
    Ok(numbers)
}
