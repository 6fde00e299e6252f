//! Calls of a remembered set.

use crate::containers::spelling::{Calls, source, source_and_slot};
use pm_case_text::{
    CallsOf, Fault, first_word, push_calls, push_number, push_value, push_words, refuse, small,
};
use pm_remset::{Gathering, Remset};
use pm_types::{Addr, RefSource};
use std::alloc::Global;
use std::collections::BTreeMap;

// `SOURCE SLOT`: the source names the slot.
fn push_put(set: &mut Remset, text: &str, out: &mut String) -> Result<(), Fault> {
    match source_and_slot(text) {
        Ok((source, slot)) => set.put(source, slot)?,
        Err(fault) => return Err(fault),
    }
    push_words("ok", out)
}

// Makes a call about a source.
fn push_of_source(
    set: &mut Remset,
    call: &str,
    from: RefSource,
    out: &mut String,
) -> Result<(), Fault> {
    match call {
        "take" => push_value(&set.take(from), out),
        "at-or-after" => push_value(&set.at_or_after(from), out),
        _ => Err(refuse("no such call")),
    }
}

// Adds the sources of a slot.
fn push_of(alloc: Global, set: &Remset, slot: u32, out: &mut String) -> Result<(), Fault> {
    let mut found = Vec::new(alloc);
    set.of_slot(slot, &mut found)?;
    for (place, source) in found.iter().enumerate() {
        if place > 0 {
            out.push_str(", ")?;
        }
        push_value(source, out)?;
    }
    Ok(())
}

// Adds the first source whose slot is, or is not, this one.
fn push_next(set: &Remset, wanted: u32, same: bool, out: &mut String) -> Result<(), Fault> {
    push_value(&set.next_where(|_, slot| (slot == wanted) == same), out)
}

// Makes a call about a slot.
fn push_of_slot(
    alloc: Global,
    set: &Remset,
    call: &str,
    slot: u32,
    out: &mut String,
) -> Result<(), Fault> {
    match call {
        "least-of" => push_value(&set.least_of(slot), out),
        "of" => push_of(alloc, set, slot, out),
        "next-of" => push_next(set, slot, true, out),
        "next-not-of" => push_next(set, slot, false, out),
        _ => Err(refuse("no such call")),
    }
}

// Makes a call of a source or of a slot.
fn push_call(
    alloc: Global,
    set: &mut Remset,
    call: &str,
    text: &str,
    out: &mut String,
) -> Result<(), Fault> {
    match (source(text), small(text)) {
        (Ok(from), _) => push_of_source(set, call, from, out),
        (_, Ok(slot)) => push_of_slot(alloc, set, call, slot, out),
        _ => Err(refuse("no such call")),
    }
}

impl CallsOf<Remset> for Calls {
    fn call(alloc: Global, called: &mut Remset, text: &str, out: &mut String) -> Result<(), Fault> {
        match first_word(text) {
            ("len", _) => push_number(called.len(), out),
            ("put", rest) => push_put(called, rest, out),
            (call, rest) => push_call(alloc, called, call, rest, out),
        }
    }
}

/// `CALLS`: the calls, between ` / `, of a new remembered set: `put SOURCE SLOT`, `take SOURCE`, `least-of SLOT`,
/// `at-or-after SOURCE`, `of SLOT`, `next-of SLOT`, `next-not-of SLOT` and `len`.
pub(crate) fn push_set(alloc: Global, text: &str, out: &mut String) -> Result<(), Fault> {
    let mut set = Remset::new(alloc);
    push_calls::<Calls, _>(alloc, &mut set, text, out)
}

// `SOURCE SLOT`: tells that the source names the slot.
fn tell(gathering: &mut Gathering, text: &str) -> Result<(), Fault> {
    match source_and_slot(text) {
        Ok((source, slot)) => Ok(gathering.put(source, slot)?),
        Err(fault) => Err(fault),
    }
}

// Tells all that stands between commas.
fn tell_all(gathering: &mut Gathering, text: &str) -> Result<(), Fault> {
    for told in text.split(',') {
        tell(gathering, told.trim())?;
    }
    Ok(())
}

// A set that is made at once of what it is told: `SOURCE SLOT`, between `, `.
fn gather(alloc: Global, text: &str) -> Result<Remset, Fault> {
    let mut gathering = Gathering::new(alloc);
    tell_all(&mut gathering, text)?;
    Ok(gathering.into_set(alloc)?)
}

/// `TOLD / CALLS`: the calls, as those of `push_set`, of a set that is made at once of what it is told: `SOURCE SLOT`,
/// between `, `.
pub(crate) fn push_gathered(alloc: Global, text: &str, out: &mut String) -> Result<(), Fault> {
    let (told, calls) = text.split_once('/').unwrap_or((text, ""));
    match gather(alloc, told) {
        Ok(mut set) => push_calls::<Calls, _>(alloc, &mut set, calls.trim_start(), out),
        Err(fault) => Err(fault),
    }
}

// A remembered set, and a plain map beside it.
#[derive(Drop)]
struct Beside {
    set: Remset,
    map: BTreeMap<RefSource, u32>,
}

// The source of this number: a root, a register or a field.
fn source_of(number: u32) -> RefSource {
    match number % 3 {
        0 => RefSource::Root(number as u64),
        1 => RefSource::Handle {
            client: number % 8,
            register: number,
        },
        _ => RefSource::Field {
            at: Addr {
                car: number as u64 % 50,
                slot: number,
            },
            index: 0,
        },
    }
}

// Puts a source into both.
fn put(beside: &mut Beside, number: u32, slot: u32) -> Result<(), Fault> {
    beside.set.put(source_of(number), slot)?;
    beside.map.insert(source_of(number), slot)?;
    Ok(())
}

// Puts so many sources, each under its number modulo this one.
fn put_all(beside: &mut Beside, count: u32, modulus: u32) -> Result<(), Fault> {
    for number in 0..count {
        put(beside, number, number % modulus.max(1))?;
    }
    Ok(())
}

// Takes so many sources out of both, in another order; whether the answers are the same.
fn is_taken_alike(beside: &mut Beside, count: u32) -> bool {
    let mut same = true;
    for step in 0..count / 4 {
        let number = (step as u64 * 7919 % (count as u64 + 1)) as u32;
        same &= beside.set.take(source_of(number)) == beside.map.remove(&source_of(number));
    }
    same
}

// The least source of the plain map that names the slot.
fn scanned(map: &BTreeMap<RefSource, u32>, slot: u32) -> Option<RefSource> {
    for (source, at) in map {
        if *at == slot {
            return Some(*source);
        }
    }
    None
}

// Whether both have as many sources, and the same least one for each of the slots 0 to 100.
fn is_alike(beside: &Beside) -> bool {
    let mut same = beside.set.len() == beside.map.len() as u64;
    for slot in 0..101 {
        same &= beside.set.least_of(slot) == scanned(&beside.map, slot);
    }
    same
}

// How many sources the slots 0 to 100 have in all.
fn count_of(alloc: Global, set: &Remset) -> Result<usize, Fault> {
    let mut found = Vec::new(alloc);
    for slot in 0..101 {
        set.of_slot(slot, &mut found)?;
    }
    Ok(found.len())
}

// The set of so many sources, made at once of what it is told: each source under its number modulo 7, and then under
// its number modulo 100.
fn gathered_of(alloc: Global, count: u32) -> Result<Remset, Fault> {
    let mut gathering = Gathering::new(alloc);
    for number in 0..count {
        gathering.put(source_of(number), number % 7)?;
        gathering.put(source_of(number), number % 100)?;
    }
    Ok(gathering.into_set(alloc)?)
}

// Puts so many sources over 100 slots into both. The set is then made at once, where each source was told another slot
// before, or half of the sources are put again under other slots.
fn fill(alloc: Global, beside: &mut Beside, count: u32, at_once: bool) -> Result<(), Fault> {
    put_all(beside, count, 100)?;
    if at_once {
        beside.set = gathered_of(alloc, count)?;
        return Ok(());
    }
    put_all(beside, count / 2, 7)
}

// Whether both answer alike, before and after a quarter is taken out in another order. The last sources stay.
fn stay_alike(alloc: Global, beside: &mut Beside, count: u32) -> Result<bool, Fault> {
    let same = is_alike(beside) && is_taken_alike(beside, count) && is_alike(beside);
    Ok(same && count_of(alloc, &beside.set)? == beside.map.len())
}

/// Whether a set of so many sources, which may be made at once, answers as a plain map does.
pub(crate) fn is_long_right(alloc: Global, count: u32, at_once: bool) -> Result<bool, Fault> {
    let mut beside = Beside {
        set: Remset::new(alloc),
        map: BTreeMap::new(alloc),
    };
    match fill(alloc, &mut beside, count, at_once) {
        Ok(()) => stay_alike(alloc, &mut beside, count),
        Err(fault) => Err(fault),
    }
}
