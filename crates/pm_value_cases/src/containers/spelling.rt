//! How the words of a case are spelled.

use pm_case_text::{Fault, first_word, number, push_words, refuse, small};
use pm_types::{Addr, Name, RefSource};
use std::alloc::Global;

/// How the calls of a case are spelled.
pub(crate) struct Calls;

// What stands before a colon, and what follows it.
fn before_colon(text: &str) -> (&str, &str) {
    text.split_once(':').unwrap_or((text, ""))
}

/// `CAR:SLOT`.
pub(crate) fn address(text: &str) -> Result<Addr, Fault> {
    let (car, slot) = before_colon(text);
    match (number(car), small(slot)) {
        (Ok(car), Ok(slot)) => Ok(Addr { car, slot }),
        _ => Err(refuse("no address")),
    }
}

// `N`.
fn root(text: &str) -> Result<RefSource, Fault> {
    match number(text) {
        Ok(number) => Ok(RefSource::Root(number)),
        Err(fault) => Err(fault),
    }
}

// `CLIENT:REGISTER`.
fn register(text: &str) -> Result<RefSource, Fault> {
    let (client, register) = before_colon(text);
    match (small(client), small(register)) {
        (Ok(client), Ok(register)) => Ok(RefSource::Handle { client, register }),
        _ => Err(refuse("no register")),
    }
}

// `INDEX:CAR:SLOT`.
fn field(text: &str) -> Result<RefSource, Fault> {
    let (index, at) = before_colon(text);
    match (small(index), address(at)) {
        (Ok(index), Ok(at)) => Ok(RefSource::Field { at, index }),
        _ => Err(refuse("no field")),
    }
}

/// `root:N`, `register:CLIENT:REGISTER`, or `field:INDEX:CAR:SLOT`.
pub(crate) fn source(text: &str) -> Result<RefSource, Fault> {
    let (kind, rest) = before_colon(text);
    match kind {
        "root" => root(rest),
        "register" => register(rest),
        "field" => field(rest),
        _ => Err(refuse("no source")),
    }
}

/// `SOURCE SLOT`.
pub(crate) fn source_and_slot(text: &str) -> Result<(RefSource, u32), Fault> {
    let (from, slot) = first_word(text);
    match (source(from), small(slot)) {
        (Ok(source), Ok(slot)) => Ok((source, slot)),
        _ => Err(refuse("no source of a slot")),
    }
}

/// The name that is spelled so.
pub(crate) fn name(alloc: Global, text: &str) -> Result<Name, Fault> {
    match Name::read(alloc, text.as_bytes()) {
        Ok(name) => Ok(name),
        Err(_) => Err(refuse("no name")),
    }
}

/// Adds a line: whether something is as it should be.
pub(crate) fn push_same(same: Result<bool, Fault>, out: &mut String) -> Result<(), Fault> {
    match same {
        Ok(true) => push_words("the same\n", out),
        Ok(false) => push_words("others\n", out),
        Err(fault) => Err(fault),
    }
}
