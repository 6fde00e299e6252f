//! Pages of cars that are read and written.

ghost use Rattle.std.specs.Prelude.{◌≡◌, length};
ghost use Rattle.std.specs.FinSet as set;
ghost use Rattle.pm_types.specs.declared.limits.TheConstants.{FIELDS, PAGE_BYTES};
ghost use Rattle.pm_image.specs.CarPages.{HasCarPage, one_car};

use crate::spelling::push_again;
use pm_case_text::{
    Fault, first_word, number, push_filled, push_value_line, push_words, refuse, two_numbers,
};
use pm_image::{CarImage, NumberSet, read_car, read_car_in, write_car};
use pm_types::{FIELDS, OLD_FIELDS, PAGE_BYTES, Slot};
use std::alloc::Global;

// Adds the number of a car, how many slots it lists, and whether it is written so again.
fn push_found(alloc: Global, page: &[u8], car: &CarImage, out: &mut String) -> Result<(), Fault>
    requires { HasCarPage (one_car FIELDS) set.empty car.now }
{
    let written = write_car(alloc, car)?;
    let slots = car.slots.as_slice().len() as u64;
    push_filled("car %, slots %, written ", &[car.number, slots], out)?;
    push_again(Ok(written.as_slice() == page), out)
}

/// The car of a page, as the version that is written has it.
pub(crate) fn push_car(alloc: Global, page: &[u8], out: &mut String) -> Result<(), Fault>
    requires { length page.now ≡ PAGE_BYTES }
{
    match read_car(alloc, page, FIELDS) {
        Ok(car) => push_found(alloc, page, &car, out),
        Err(fault) => push_value_line(&fault, out),
    }
}

// Adds a slot with its number.
fn push_slot(number: u32, slot: &Slot, out: &mut String) -> Result<(), Fault> {
    push_filled("% ", &[number as u64], out)?;
    push_value_line(slot, out)
}

// Adds the slots of a car.
fn push_all(car: &CarImage, out: &mut String) -> Result<(), Fault> {
    for (number, slot) in car.slots.as_slice() {
        push_slot(*number, slot, out)?;
    }
    Ok(())
}

/// Its slots.
pub(crate) fn push_slots(alloc: Global, page: &[u8], out: &mut String) -> Result<(), Fault>
    requires { length page.now ≡ PAGE_BYTES }
{
    match read_car(alloc, page, FIELDS) {
        Ok(car) => push_all(&car, out),
        Err(fault) => push_value_line(&fault, out),
    }
}

/// Why the page is not that of a car, as version 1 has it.
pub(crate) fn push_old_car(alloc: Global, page: &[u8], out: &mut String) -> Result<(), Fault>
    requires { length page.now ≡ PAGE_BYTES }
{
    match read_car(alloc, page, OLD_FIELDS) {
        Ok(_) => push_words("a car\n", out),
        Err(fault) => push_value_line(&fault, out),
    }
}

// Adds which of the identities below 10 were met.
fn push_met(met: &NumberSet, out: &mut String) -> Result<(), Fault> {
    push_words("met", out)?;
    for id in 0..10 {
        if met.contains(id) {
            push_filled(" %", &[id], out)?;
        }
    }
    push_words("\n", out)
}

// The car of a page of a store, which has this number and identities below the next one, where these were met.
fn push_read_in(
    alloc: Global,
    page: &[u8],
    number: u64,
    next: u64,
    met: &mut NumberSet,
    out: &mut String,
) -> Result<(), Fault>
    requires { length page.now ≡ PAGE_BYTES }
{
    match read_car_in(alloc, page, FIELDS, number, next, met) {
        Ok(_) => push_met(met, out),
        Err(fault) => push_value_line(&fault, out),
    }
}

// The same where one identity was met.
fn push_met_in(
    alloc: Global,
    page: &[u8],
    number: u64,
    next: u64,
    id: u64,
    out: &mut String,
) -> Result<(), Fault>
    requires { length page.now ≡ PAGE_BYTES }
{
    let mut met = NumberSet::new(alloc);
    match met.insert(id) {
        Ok(_) => push_read_in(alloc, page, number, next, &mut met, out),
        Err(_) => Err(refuse("no memory")),
    }
}

/// `NUMBER NEXT ID`: the car of a page of a store in which it has this number and the next identity is that, and where
/// one identity was met. Which are met then.
pub(crate) fn push_car_in(
    alloc: Global,
    page: &[u8],
    text: &str,
    out: &mut String,
) -> Result<(), Fault> {
    let (first, rest) = first_word(text);
    match (number(first), two_numbers(rest)) {
        (Ok(number), Ok((next, id))) if page.len() == PAGE_BYTES => {
            push_met_in(alloc, page, number, next, id, out)
        }
        _ => Err(refuse("no page")),
    }
}
