//! The bytes of a disk before a run.

use crate::running::{RunEnd, run_script};
use pm_case_text::told::INIT;
use pm_case_text::{
    Fault, first_word, number, numbered, part, place, placed, push_bytes, push_words, put, refuse,
    two_numbers,
};
use pm_layout::digest;
use pm_types::PAGE_BYTES;
use std::alloc::Global;
use std::sync::Wait;
use std::thread::Threads;

// The bytes of a store that was made.
fn store_of(alloc: Global, made: &RunEnd) -> Result<Vec<u8>, Fault> {
    if made.status != 0 {
        return Err(refuse("no store was made"));
    }
    Ok(made.disk().to_vec(alloc)?)
}

// The bytes of a store that has just been made.
fn new_store<R: AllocGlobal + Threads + Wait + Sync>(rt: &R) -> Result<Vec<u8>, Fault> {
    let made = run_script(rt, &[], INIT, &[])?;
    store_of(rt.alloc(), &made)
}

// What a crash leaves of a run's disk.
fn image(alloc: Global, last: &Option<RunEnd>, pick: u64) -> Result<Vec<u8>, Fault> {
    match last {
        Some(run) => Ok(run.disk.image(alloc, pick)?),
        None => Err(refuse("no run before")),
    }
}

// So many zero bytes, or what a crash after the last run leaves.
fn counted(
    alloc: Global,
    last: &Option<RunEnd>,
    zeros: bool,
    number: u64,
) -> Result<Vec<u8>, Fault> {
    if zeros {
        return Ok(vec![in alloc; 0; number as usize]?);
    }
    image(alloc, last, number)
}

// The same as `named`, of two words.
fn named_with(
    alloc: Global,
    last: &Option<RunEnd>,
    kind: &str,
    text: &str,
) -> Result<Vec<u8>, Fault> {
    match kind {
        "zeros" | "image" => counted(alloc, last, kind == "zeros", number(text)?),
        _ => Err(refuse("no such disk")),
    }
}

/// `empty`, `new`, `zeros N`, or `image PICK`: no byte, a new store, N zero bytes, or what a crash after the last run
/// leaves.
pub fn named<R: AllocGlobal + Threads + Wait + Sync>(
    rt: &R,
    last: &Option<RunEnd>,
    text: &str,
) -> Result<Vec<u8>, Fault> {
    match text {
        "empty" => Ok(Vec::new(rt.alloc())),
        "new" => new_store(rt),
        _ => {
            let (kind, rest) = first_word(text);
            named_with(rt.alloc(), last, kind, rest)
        }
    }
}

// The digest of bytes stands at a place.
fn put_digest(disk: &mut [u8], from: usize, count: usize, at: usize) -> Result<(), Fault> {
    let made = digest(part(disk, from, count)?);
    put(disk, at, &made)
}

// The same, where the count and the place are spelled.
fn put_digest_from(disk: &mut [u8], from: usize, text: &str) -> Result<(), Fault> {
    let (count, at) = numbered(text)?;
    put_digest(disk, from, count as usize, place(at)?)
}

/// `FROM COUNT PLACE`: the digest of that many bytes from there on stands at that place.
pub fn put_digest_of(disk: &mut [u8], text: &str) -> Result<(), Fault> {
    let (from, rest) = placed(text)?;
    put_digest_from(disk, from, rest)
}

// Byte `at` of the page of this number.
fn page_place(page: u64, at: u64) -> usize {
    page.saturating_mul(PAGE_BYTES as u64).saturating_add(at) as usize
}

// The digest of the first bytes of a page stands at a place of another one.
fn put_digest_in(
    disk: &mut [u8],
    page: u64,
    count: usize,
    holder: u64,
    at: u64,
) -> Result<(), Fault> {
    put_digest(disk, page_place(page, 0), count, page_place(holder, at))
}

// The same as `seal`, of the three numbers.
fn seal_pages(disk: &mut [u8], header: u64, catalog: u64, car: u64) -> Result<(), Fault> {
    put_digest_in(disk, car, PAGE_BYTES, catalog, 71)?;
    put_digest_in(disk, catalog, PAGE_BYTES, header, 32)?;
    put_digest_in(disk, header, 64, header, 64)
}

/// `HEADER CATALOG CAR`, three pages: the digest of the car is made again in the first entry of the catalog page, that
/// of the catalog page in the header, and the header's own.
pub fn seal(disk: &mut [u8], text: &str) -> Result<(), Fault> {
    let (header, rest) = numbered(text)?;
    let (catalog, car) = two_numbers(rest)?;
    seal_pages(disk, header, catalog, car)
}

// Adds bytes in hexadecimal, a line.
fn push_digits(alloc: Global, bytes: &[u8], out: &mut String) -> Result<(), Fault> {
    push_bytes(alloc, bytes, out)?;
    push_words("\n", out)
}

/// `PLACE COUNT`: adds that many bytes from that place on, in hexadecimal, a line.
pub fn push_digits_at(
    alloc: Global,
    disk: &[u8],
    text: &str,
    out: &mut String,
) -> Result<(), Fault> {
    let (from, count) = placed(text)?;
    push_digits(alloc, part(disk, from, number(count)? as usize)?, out)
}
