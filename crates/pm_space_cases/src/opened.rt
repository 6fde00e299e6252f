//! A store that is laid out and opened as a space.

ghost use Rattle.std.specs.Prelude.{◌≡◌, false};
ghost use Rattle.pm_shadow.specs.Pages.{state};

use crate::laid::{bare_disk, disk_of};
use crate::scripted::{Shows, push_script};
use pm_case_text::{Fault, numbered, push_filled, push_value_line, refuse};
use pm_disk::MemDisk;
use pm_graphs::settled::PackedPages;
use pm_place::Placement;
use pm_reopen::open_space;
use pm_shadow::Pages;
use pm_space::{Held, Links, Space};
use pm_types::{Addr, OpenFault, Slot};
use std::alloc::{AllocError, Global};
use std::fmt::Write;

// Adds a slot of a car, and the least source that is remembered of it.
fn push_slot(links: &Links, number: u32, slot: &Slot, out: &mut String) -> Result<(), AllocError> {
    let least = links.set.least_of(number);
    writeln!(out, "{number} {slot:?} {least:?}")
}

// Adds the slots of a car.
fn push_slots(held: &Held, links: &Links, out: &mut String) -> Result<(), Fault> {
    for (number, slot) in held.car.slots() {
        push_slot(links, *number, slot, out)?;
    }
    Ok(())
}

// Adds the numbers of a car, and its slots.
fn push_car(car: u64, held: &Held, links: &Links, out: &mut String) -> Result<(), Fault> {
    push_filled(
        "car %: next slot %, remembered %\n",
        &[car, u64::from(held.car.next_slot()), links.set.len()],
        out,
    )?;
    push_slots(held, links, out)
}

// Adds a car, if there is one.
fn push_car_of<F>(space: &Space<F>, car: Option<u64>, out: &mut String) -> Result<(), Fault> {
    let Some(car) = car else {
        return Ok(());
    };
    match (space.parts.cars.get(car), space.parts.links.get(car)) {
        (Some(held), Some(links)) => push_car(car, held, links, out),
        _ => Err(refuse("Step")),
    }
}

// Adds the first and the last car of a train.
fn push_ends(
    train: u64,
    first: Option<u64>,
    last: Option<u64>,
    out: &mut String,
) -> Result<(), AllocError> {
    writeln!(out, "train {train}: {first:?} to {last:?}")
}

// Adds the first and the last car of a train, and what the first one holds.
fn push_train<F>(space: &Space<F>, train: u64, out: &mut String) -> Result<(), Fault> {
    let first = space.parts.trains.first_car(train);
    push_ends(train, first, space.parts.trains.tail(train), out)?;
    push_car_of(space, first, out)
}

// Adds the trains.
fn push_trains<F>(space: &Space<F>, out: &mut String) -> Result<(), Fault> {
    for train in 1..space.parts.trains.youngest().saturating_add(1) {
        push_train(space, train, out)?;
    }
    Ok(())
}

// Adds a root.
fn push_root(number: u64, at: Option<Addr>, out: &mut String) -> Result<(), AllocError> {
    writeln!(out, "root {number}: {at:?}")
}

// Adds the roots, in the order of their names.
fn push_roots<F>(space: &Space<F>, out: &mut String) -> Result<(), Fault> {
    for number in 0..space.parts.roots.len() {
        push_root(number, space.parts.roots.at(number), out)?;
    }
    Ok(())
}

// Adds how many cars were read, and the numbers of a space.
fn push_numbers<F>(space: &Space<F>, read: u64, out: &mut String) -> Result<(), Fault> {
    let parts = &space.parts;
    push_filled(
        "cars read %\nnext identity %, next car %, open train %, births %\n",
        &[
            read,
            parts.next,
            parts.cars.vacant(),
            parts.trains.youngest(),
            u64::from(parts.trains.births()),
        ],
        out,
    )
}

// Adds how many cars were read, and all that a space holds.
fn push_space<F>(space: &Space<F>, read: usize, out: &mut String) -> Result<(), Fault> {
    push_numbers(space, read as u64, out)?;
    push_trains(space, out)?;
    push_roots(space, out)
}

// Adds what a store that was opened holds, or why it was refused.
fn push_result<F>(
    opened: &Result<(Space<F>, PackedPages), OpenFault>,
    out: &mut String,
) -> Result<(), Fault> {
    match opened {
        Ok((space, cars)) => push_space(space, cars.as_slice().len(), out),
        Err(fault) => push_value_line(fault, out),
    }
}

// Opens the store behind these pages, and adds what it holds, or why it is refused.
fn push_pages(alloc: Global, pages: &mut Pages<MemDisk>, out: &mut String) -> Result<(), Fault>
    requires { (state pages.old).failed ≡ false }
{
    let opened = open_space(alloc, pages, Placement::new(|_: &[u64]| 0));
    push_result(&opened, out)
}

// Opens the store of these bytes, and adds what it holds, or why it is refused.
fn push_disk(alloc: Global, disk: Vec<u8>, out: &mut String) -> Result<(), Fault> {
    match Pages::attach(alloc, MemDisk::new(disk, Vec::new(alloc))) {
        Ok(mut pages) => push_pages(alloc, &mut pages, out),
        Err((_, fault)) => push_value_line(&fault, out),
    }
}

/// `VERSION ENTRIES`: a store of that version, under copy 5 and with the next identity 6, of the one catalog page that has
/// these entries, between ` / `. Each is in pairs of hexadecimal digits; behind that of a car, without its digest, stands
/// the beginning of its page. It is opened as a space: what that holds, or why it is refused.
pub(crate) fn push_opened(alloc: Global, text: &str, out: &mut String) -> Result<(), Fault> {
    let (version, entries) = numbered(text)?;
    push_disk(alloc, disk_of(alloc, version == 1, entries)?, out)
}

// Opens the store behind these pages, and runs the lines over its space.
fn push_lines(
    alloc: Global,
    pages: &mut Pages<MemDisk>,
    lines: &str,
    out: &mut String,
) -> Result<(), Fault>
    requires { (state pages.old).failed ≡ false }
{
    match open_space(alloc, pages, Placement::new(|_: &[u64]| 0)) {
        Ok((mut space, _)) => push_script(&mut space, alloc, Shows::All, lines, out),
        Err(fault) => push_value_line(&fault, out),
    }
}

/// `NEXT LINES`: the lines, as those of `script`, over the space of a store with this next identity in which nothing
/// stands.
pub(crate) fn push_next(alloc: Global, text: &str, out: &mut String) -> Result<(), Fault> {
    let (next, lines) = numbered(text)?;
    match Pages::attach(
        alloc,
        MemDisk::new(bare_disk(alloc, next)?, Vec::new(alloc)),
    ) {
        Ok(mut pages) => push_lines(alloc, &mut pages, lines, out),
        Err((_, fault)) => push_value_line(&fault, out),
    }
}
