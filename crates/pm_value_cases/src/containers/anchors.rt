//! Calls of the anchor.

use crate::containers::spelling::{Calls, address};
use pm_case_text::{CallsOf, Fault, first_word, number, push_calls, push_value, refuse};
use pm_guard::Guard;
use std::alloc::Global;

// `note CAR:SLOT TRAIN`: notes an anchor.
fn note(guard: &mut Guard, text: &str) -> Result<(), Fault> {
    let (call, rest) = first_word(text);
    let (at, train) = first_word(rest);
    match (call, address(at), number(train)) {
        ("note", Ok(at), Ok(train)) => Ok(guard.note(at, train)),
        _ => Err(refuse("no such call")),
    }
}

impl CallsOf<Guard> for Calls {
    fn call(_alloc: Global, called: &mut Guard, text: &str, out: &mut String) -> Result<(), Fault> {
        match text {
            "look" => {}
            "clear" => called.clear(),
            _ => note(called, text)?,
        }
        push_value(&called.anchor(), out)
    }
}

/// `CALLS`: the calls, between ` / `, of a new anchor, which are `look`, `note CAR:SLOT TRAIN` and `clear`. After each
/// of them the anchor.
pub(crate) fn push_anchor(alloc: Global, text: &str, out: &mut String) -> Result<(), Fault> {
    push_calls::<Calls, _>(alloc, &mut Guard::new(), text, out)
}
