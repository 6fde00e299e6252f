//! Calls of the named roots.

use crate::containers::answers::push_found;
use crate::containers::spelling::{Calls, address, name};
use pm_case_text::{
    CallsOf, Fault, counted, first_word, number, push_calls, push_filled, push_number, push_text,
    push_value, push_words, refuse,
};
use pm_roots::{BindFault, Roots};
use pm_types::{Addr, Name, ROOTS};
use std::alloc::Global;

// What binding a name answers: its number, and what it stood for before.
type Bound = Result<(u64, Option<Addr>), BindFault>;

// Binds the name that is spelled so.
fn bind(alloc: Global, roots: &mut Roots, spelled: &str, at: Addr) -> Result<Bound, Fault> {
    match name(alloc, spelled) {
        Ok(name) => Ok(roots.bind(name, at)),
        Err(fault) => Err(fault),
    }
}

// `NAME CAR:SLOT`: binds the name.
fn push_bound(alloc: Global, roots: &mut Roots, text: &str, out: &mut String) -> Result<(), Fault> {
    let (spelled, at) = first_word(text);
    match address(at) {
        Ok(at) => push_found(bind(alloc, roots, spelled, at), out),
        Err(fault) => Err(fault),
    }
}

// Sets the address under a number.
fn push_set(roots: &mut Roots, number: u64, at: &str, out: &mut String) -> Result<(), Fault> {
    match address(at) {
        Ok(at) if roots.at(number).is_some() => {
            roots.set(number, at);
            push_words("ok", out)
        }
        _ => Err(refuse("no root")),
    }
}

// Adds the name, the number and the address at a place.
fn push_nth(roots: &Roots, place: u64, out: &mut String) -> Result<(), Fault> {
    if place >= roots.len() {
        return Err(refuse("no root"));
    }
    let (name, number, at) = roots.nth(place);
    push_text(name.as_slice(), out)?;
    push_filled(" % ", &[number], out)?;
    push_value(&at, out)
}

// Makes a call with a number.
fn push_numbered(roots: &mut Roots, call: &str, text: &str, out: &mut String) -> Result<(), Fault> {
    let (first, rest) = first_word(text);
    match (call, number(first)) {
        ("at", Ok(number)) => push_value(&roots.at(number), out),
        ("nth", Ok(place)) => push_nth(roots, place, out),
        ("set", Ok(number)) => push_set(roots, number, rest, out),
        _ => Err(refuse("no such call")),
    }
}

// Makes a call with a name.
fn of_name(roots: &mut Roots, call: &str, name: &Name) -> Result<Option<(u64, Addr)>, Fault> {
    match call {
        "find" => Ok(roots.find(name)),
        "unbind" => Ok(roots.unbind(name)),
        _ => Err(refuse("no such call")),
    }
}

// Makes a call with a name, and adds what it answers.
fn push_named(
    alloc: Global,
    roots: &mut Roots,
    call: &str,
    text: &str,
    out: &mut String,
) -> Result<(), Fault> {
    match name(alloc, text) {
        Ok(name) => push_found(of_name(roots, call, &name), out),
        Err(fault) => Err(fault),
    }
}

impl CallsOf<Roots> for Calls {
    fn call(alloc: Global, called: &mut Roots, text: &str, out: &mut String) -> Result<(), Fault> {
        let (call, rest) = first_word(text);
        match call {
            "bind" => push_bound(alloc, called, rest, out),
            "find" | "unbind" => push_named(alloc, called, call, rest, out),
            "len" => push_number(called.len(), out),
            _ => push_numbered(called, call, rest, out),
        }
    }
}

// Binds the name of a number to slot 0 of car 1.
fn bind_number(alloc: Global, roots: &mut Roots, number: usize) -> Result<(), Fault> {
    let spelled = counted(alloc, "n%", number as u64)?;
    match bind(alloc, roots, spelled.as_str(), Addr { car: 1, slot: 0 }) {
        Ok(Ok(_)) => Ok(()),
        _ => Err(refuse("not bound")),
    }
}

// Binds so many names: `n0`, `n37`, `n74` and so on, the numbers modulo 4,096.
fn bind_all(alloc: Global, roots: &mut Roots, names: usize) -> Result<(), Fault> {
    for index in 0..names {
        bind_number(alloc, roots, index.wrapping_mul(37) % ROOTS)?;
    }
    Ok(())
}

/// `CALLS`: the calls, between ` / `, of roots of which so many are bound, by the names `n0`, `n37`, `n74` and so on,
/// the numbers modulo 4,096, in this order, and all to slot 0 of car 1: `bind NAME CAR:SLOT`, `unbind NAME`,
/// `set NUMBER CAR:SLOT`, `find NAME`, `at NUMBER`, `nth PLACE` and `len`.
pub(crate) fn push_roots(
    alloc: Global,
    names: usize,
    text: &str,
    out: &mut String,
) -> Result<(), Fault> {
    let mut roots = Roots::new(alloc);
    match bind_all(alloc, &mut roots, names) {
        Ok(()) => push_calls::<Calls, _>(alloc, &mut roots, text, out),
        Err(fault) => Err(fault),
    }
}
