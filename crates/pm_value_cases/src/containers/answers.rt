//! What calls answer, and calls that are a word and up to two numbers.

use pm_case_text::{CallsOf, Fault, first_word, number, push_number, push_value, push_words};
use std::alloc::Global;
use std::fmt::Debug;

/// What a call answers.
#[derive(Clone, Copy)]
pub(crate) enum Answer {
    /// That it was done.
    Done,
    /// Whether something is so.
    Whether(bool),
    /// A number.
    Number(u64),
    /// A number, or that there is none.
    Found(Option<u64>),
}

/// Adds what a call answers.
pub(crate) fn push_answer(answer: Result<Answer, Fault>, out: &mut String) -> Result<(), Fault> {
    match answer {
        Ok(Answer::Done) => push_words("ok", out),
        Ok(Answer::Whether(so)) => push_value(&so, out),
        Ok(Answer::Number(number)) => push_number(number, out),
        Ok(Answer::Found(found)) => push_value(&found, out),
        Err(fault) => Err(fault),
    }
}

/// Adds what is found, as it is printed.
pub(crate) fn push_found<T: Debug + Drop>(
    found: Result<T, Fault>,
    out: &mut String,
) -> Result<(), Fault> {
    match found {
        Ok(found) => push_value(&found, out),
        Err(fault) => Err(fault),
    }
}

/// How calls are spelled that are a word and up to two numbers.
pub(crate) struct NumberCalls;

/// What is called so.
pub(crate) trait Numbers {
    /// Makes the call of this word, with no number.
    fn with_none(&mut self, alloc: Global, call: &str) -> Result<Answer, Fault>;

    /// Makes the call of this word and a number.
    fn with_one(&mut self, call: &str, number: u64) -> Result<Answer, Fault>;

    /// Makes the call of this word and two numbers.
    fn with_two(&mut self, call: &str, first: u64, second: u64) -> Result<Answer, Fault>;
}

impl<T: Numbers> CallsOf<T> for NumberCalls {
    fn call(alloc: Global, called: &mut T, text: &str, out: &mut String) -> Result<(), Fault> {
        let (call, rest) = first_word(text);
        let (first, second) = first_word(rest);
        let answer = match (number(first), number(second)) {
            (Ok(first), Ok(second)) => called.with_two(call, first, second),
            (Ok(first), Err(_)) => called.with_one(call, first),
            _ => called.with_none(alloc, call),
        };
        push_answer(answer, out)
    }
}
