//! Calls of a nursery.

ghost use Rattle.std.specs.Prelude.{◌≡◌, ◌+◌, ◌<◌, ◌≤◌, true, length, IsSome, IsSomeAnd, IfSome};
ghost use Rattle.std.specs.FinMap.{get};

pub(crate) mod drawn;
mod shapes;

use crate::containers::nurseries::shapes::shape;
use crate::containers::spelling::Calls;
use pm_case_text::{
    CallsOf, Fault, first_word, push_bytes, push_calls, push_filled, push_number, push_value,
    push_words, raw_bytes, refuse, small,
};
use pm_nursery::{Nursery, Young};
use pm_types::{CLIENTS, FIELDS, Id, OBJECT_BYTES, REGISTERS};
use std::alloc::Global;

// The numbers of a call, as many as it has, up to three. `-` is none.
#[derive(Clone, Copy)]
struct Told {
    first: Option<u32>,
    second: Option<u32>,
    third: Option<u32>,
}

// The numbers that are spelled so.
fn numbers_of(text: &str) -> Told {
    let (first, rest) = first_word(text);
    let (second, third) = first_word(rest);
    Told {
        first: small(first).ok(),
        second: small(second).ok(),
        third: small(third).ok(),
    }
}

/// Whether there is a young object of this identity.
pub(crate) fn has(nursery: &Nursery, id: Id) -> bool
    ensures { result ≡ true → IsSome (get nursery.now.objects id) }
{
    nursery.get(id).is_some()
}

// Whether the young object of this identity has a field of this index.
fn has_field(nursery: &Nursery, id: Id, index: usize) -> bool
    ensures { result ≡ true → IsSomeAnd (get nursery.now.objects id) (λ object. index < length object.fields) }
{
    match nursery.get(id) {
        Some(young) => index < young.fields().len(),
        None => false,
    }
}

// Whether the young object of this identity has so many bytes from this place on.
fn has_bytes(nursery: &Nursery, id: Id, at: usize, count: usize) -> bool
    ensures { result ≡ true → IsSomeAnd (get nursery.now.objects id) (λ object. at + count ≤ length object.bytes) }
{
    match nursery.get(id) {
        Some(young) => {
            let length = young.bytes().len();
            at <= length && count <= length - at
        }
        None => false,
    }
}

// Whether this is null or a young object.
fn is_value(nursery: &Nursery, value: Option<Id>) -> bool
    ensures { result ≡ true → IfSome value (λ to. IsSome (get nursery.now.objects to)) }
{
    match value {
        Some(to) => has(nursery, to),
        None => true,
    }
}

/// Adds a young object of so many null fields and these bytes, if it may be added.
pub(crate) fn add(
    alloc: Global,
    nursery: &mut Nursery,
    id: Id,
    fields: u32,
    bytes: &[u8],
) -> Result<(), Fault> {
    if nursery.is_full() || nursery.get(id).is_some() {
        return Err(refuse("full, or there"));
    }
    if fields > FIELDS || bytes.len() > OBJECT_BYTES {
        return Err(refuse("too large"));
    }
    let young = Young::new(alloc, fields, bytes)?;
    Ok(nursery.add(id, young)?)
}

/// Puts null or a young object into a field, if both are there.
pub(crate) fn set(
    nursery: &mut Nursery,
    id: Id,
    index: u32,
    value: Option<Id>,
) -> Result<(), Fault> {
    if !has_field(nursery, id, index as usize) || !is_value(nursery, value) {
        return Err(refuse("no field, or no value"));
    }
    nursery.set_field(id, index as usize, value);
    Ok(())
}

// Puts these bytes into a young object from this place on, if they fit.
fn put(nursery: &mut Nursery, id: Id, at: u32, bytes: &[u8]) -> Result<(), Fault> {
    if !has_bytes(nursery, id, at as usize, bytes.len()) {
        return Err(refuse("no place"));
    }
    nursery.set_bytes(id, at as usize, bytes);
    Ok(())
}

/// Lets a register hold a young object, if both are there.
pub(crate) fn hold(nursery: &mut Nursery, client: u32, register: u32, id: Id) -> Result<(), Fault> {
    if client >= CLIENTS || register >= REGISTERS || !has(nursery, id) {
        return Err(refuse("no register, or no object"));
    }
    Ok(nursery.hold(client, register, id)?)
}

// Lets a register hold nothing.
fn forget(nursery: &mut Nursery, client: u32, register: u32) -> Result<(), Fault> {
    nursery.forget(client, register);
    Ok(())
}

// Lets no register of a client hold anything.
fn close(nursery: &mut Nursery, client: u32) -> Result<(), Fault> {
    nursery.close(client);
    Ok(())
}

// Takes all away.
fn drop_all(nursery: &mut Nursery) -> Result<(), Fault> {
    nursery.drop_all();
    Ok(())
}

// Makes a call that changes something.
fn change(alloc: Global, nursery: &mut Nursery, call: &str, told: Told) -> Result<(), Fault> {
    match (call, told.first, told.second, told.third) {
        ("set", Some(id), Some(index), value) => set(nursery, id, index, value),
        ("hold", Some(client), Some(register), Some(id)) => hold(nursery, client, register, id),
        ("forget", Some(client), Some(register), None) => forget(nursery, client, register),
        ("close", Some(client), None, None) => close(nursery, client),
        ("drop", None, None, None) => drop_all(nursery),
        (shaped, Some(count), fields, None) => shape(alloc, nursery, shaped, count, fields),
        _ => Err(refuse("no such call")),
    }
}

// Adds that a call was done.
fn push_done(done: Result<(), Fault>, out: &mut String) -> Result<(), Fault> {
    match done {
        Ok(()) => push_words("ok", out),
        Err(fault) => Err(fault),
    }
}

// `FIELDS HEX`: adds a young object.
fn add_spelled(alloc: Global, nursery: &mut Nursery, id: Id, text: &str) -> Result<(), Fault> {
    let (fields, digits) = first_word(text);
    let bytes = raw_bytes(alloc, digits)?;
    match small(fields) {
        Ok(fields) => add(alloc, nursery, id, fields, bytes.as_slice()),
        Err(fault) => Err(fault),
    }
}

// `PLACE HEX`: puts bytes into a young object.
fn put_spelled(alloc: Global, nursery: &mut Nursery, id: Id, text: &str) -> Result<(), Fault> {
    let (at, digits) = first_word(text);
    let bytes = raw_bytes(alloc, digits)?;
    match small(at) {
        Ok(at) => put(nursery, id, at, bytes.as_slice()),
        Err(fault) => Err(fault),
    }
}

// `ID A HEX`: adds a young object, or puts bytes into it.
fn change_bytes(alloc: Global, nursery: &mut Nursery, call: &str, text: &str) -> Result<(), Fault> {
    let (id, rest) = first_word(text);
    match (call, small(id)) {
        ("add", Ok(id)) => add_spelled(alloc, nursery, id, rest),
        ("put", Ok(id)) => put_spelled(alloc, nursery, id, rest),
        _ => Err(refuse("no such call")),
    }
}

// Adds the fields and the bytes of an object.
fn push_young(alloc: Global, young: &Young, out: &mut String) -> Result<(), Fault> {
    push_value(&young.fields(), out)?;
    out.push(' ')?;
    push_bytes(alloc, young.bytes(), out)
}

// Adds the object of this identity.
fn push_found(alloc: Global, nursery: &Nursery, id: Id, out: &mut String) -> Result<(), Fault> {
    match nursery.get(id) {
        Some(young) => push_young(alloc, young, out),
        None => push_words("None", out),
    }
}

// Adds a run of numbers: its first and its last.
fn push_run(run: (u32, u32), out: &mut String) -> Result<(), Fault> {
    if run.0 == run.1 {
        return push_number(run.0 as u64, out);
    }
    push_filled("%-%", &[run.0 as u64, run.1 as u64], out)
}

// The run that this number goes on with; where it begins another, the run before is added.
fn next_run(run: Option<(u32, u32)>, number: u32, out: &mut String) -> Result<(u32, u32), Fault> {
    let Some(run) = run else {
        return Ok((number, number));
    };
    if run.1.checked_add(1) == Some(number) {
        return Ok((run.0, number));
    }
    push_run(run, out)?;
    out.push(' ')?;
    Ok((number, number))
}

// Adds numbers in their order, those that rise by one as `FIRST-LAST`; `-` is none.
fn push_runs(numbers: &[u32], out: &mut String) -> Result<(), Fault> {
    let mut run = None;
    for number in numbers {
        run = Some(next_run(run, *number, out)?);
    }
    match run {
        Some(run) => push_run(run, out),
        None => push_words("-", out),
    }
}

// The registers that hold an object, each as 10,000 times its client, and its number.
fn holders(alloc: Global, nursery: &Nursery, id: Id) -> Result<Vec<u32>, Fault> {
    let mut numbers = Vec::new(alloc);
    for (held, (client, register)) in nursery.holders(id) {
        if *held != id {
            return Err(refuse("another object"));
        }
        numbers.push(client.wrapping_mul(10_000).wrapping_add(*register))?;
    }
    Ok(numbers)
}

/// The objects that are joined to this one, if it is there.
pub(crate) fn joined(alloc: Global, nursery: &Nursery, id: Id) -> Result<Vec<Id>, Fault> {
    if !has(nursery, id) {
        return Err(refuse("no object"));
    }
    Ok(nursery.joined(alloc, id)?)
}

/// Takes away what is joined to an object, if it is there: what that was.
pub(crate) fn carry(alloc: Global, nursery: &mut Nursery, id: Id) -> Result<Vec<Id>, Fault> {
    if !has(nursery, id) {
        return Err(refuse("no object"));
    }
    let ids = nursery.joined(alloc, id)?;
    nursery.carry_off(ids.as_slice());
    Ok(ids)
}

// The objects that the registers reach.
fn reached(alloc: Global, nursery: &Nursery) -> Result<Vec<Id>, Fault> {
    Ok(nursery.reached(alloc)?)
}

// Adds what was found.
fn push_listed(listed: Result<Vec<u32>, Fault>, out: &mut String) -> Result<(), Fault> {
    match listed {
        Ok(numbers) => push_runs(numbers.as_slice(), out),
        Err(fault) => Err(fault),
    }
}

// Makes a call that answers a list.
fn listed(
    alloc: Global,
    nursery: &mut Nursery,
    call: &str,
    id: Option<Id>,
) -> Result<Vec<u32>, Fault> {
    match (call, id) {
        ("reached", None) => reached(alloc, nursery),
        ("holders", Some(id)) => holders(alloc, nursery, id),
        ("joined", Some(id)) => joined(alloc, nursery, id),
        ("carry", Some(id)) => carry(alloc, nursery, id),
        _ => Err(refuse("no such call")),
    }
}

// Makes a call of numbers.
fn push_told(
    alloc: Global,
    nursery: &mut Nursery,
    call: &str,
    told: Told,
    out: &mut String,
) -> Result<(), Fault> {
    match (call, told.first, told.second) {
        ("len", None, None) => push_number(nursery.len() as u64, out),
        ("full", None, None) => push_value(&nursery.is_full(), out),
        ("get", Some(id), None) => push_found(alloc, nursery, id, out),
        ("held", Some(client), Some(register)) => push_value(&nursery.held(client, register), out),
        ("reached" | "holders" | "joined" | "carry", id, None) => {
            push_listed(listed(alloc, nursery, call, id), out)
        }
        _ => push_done(change(alloc, nursery, call, told), out),
    }
}

impl CallsOf<Nursery> for Calls {
    fn call(
        alloc: Global,
        called: &mut Nursery,
        text: &str,
        out: &mut String,
    ) -> Result<(), Fault> {
        let (call, rest) = first_word(text);
        match call {
            "add" | "put" => push_done(change_bytes(alloc, called, call, rest), out),
            _ => push_told(alloc, called, call, numbers_of(rest), out),
        }
    }
}

/// `CALLS`: the calls, between ` / `, of an empty nursery: `add ID FIELDS HEX`, `put ID PLACE HEX`, `set ID INDEX ID`,
/// where the last is `-` for null, `get ID`, `hold CLIENT REGISTER ID`, `forget CLIENT REGISTER`, `close CLIENT`,
/// `held CLIENT REGISTER`, `holders ID`, `joined ID`, `reached`, `carry ID`, `drop`, `len`, `full`, and the shapes.
pub(crate) fn push_nursery(alloc: Global, text: &str, out: &mut String) -> Result<(), Fault> {
    let mut nursery = Nursery::new(alloc);
    push_calls::<Calls, _>(alloc, &mut nursery, text, out)
}
