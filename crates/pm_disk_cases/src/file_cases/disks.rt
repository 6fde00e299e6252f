//! Calls of any disk.

use pm_case_text::{
    Fault, numbered, push_bytes, push_number, push_words, raw_bytes, refuse, two_numbers,
};
use pm_disk::Disk;
use std::alloc::Global;

// A write that ends behind this place is not made.
const MOST: u64 = 1 << 40;

/// How the calls of a case are spelled.
pub(crate) struct Calls;

// Adds whether a call succeeded.
fn push_done(done: bool, out: &mut String) -> Result<(), Fault> {
    push_words(if done { "ok" } else { "failed" }, out)
}

// Adds the length.
fn push_len<D: Disk>(disk: &mut D, out: &mut String) -> Result<(), Fault> {
    match disk.len() {
        Ok(len) => push_number(len, out),
        Err(_) => push_done(false, out),
    }
}

// Adds so many bytes from a place on.
fn push_part<D: Disk>(
    alloc: Global,
    disk: &mut D,
    at: u64,
    count: u64,
    out: &mut String,
) -> Result<(), Fault> {
    let mut into = vec![in alloc; 7; count as usize]?;
    match disk.read_at(at, &mut into) {
        Ok(()) => push_bytes(alloc, into.as_slice(), out),
        Err(_) => push_done(false, out),
    }
}

// `PLACE COUNT`: adds so many bytes from there on.
fn push_read<D: Disk>(
    alloc: Global,
    disk: &mut D,
    text: &str,
    out: &mut String,
) -> Result<(), Fault> {
    let (at, count) = two_numbers(text)?;
    push_part(alloc, disk, at, count, out)
}

// Writes the bytes there.
fn write<D: Disk>(disk: &mut D, at: u64, from: &[u8], out: &mut String) -> Result<(), Fault> {
    if at >= MOST || from.len() as u64 >= MOST {
        return Err(refuse("too far"));
    }
    push_done(disk.write_at(at, from).is_ok(), out)
}

// `PLACE HEX`: writes the bytes there.
fn push_written<D: Disk>(
    alloc: Global,
    disk: &mut D,
    text: &str,
    out: &mut String,
) -> Result<(), Fault> {
    let (at, digits) = numbered(text)?;
    write(disk, at, raw_bytes(alloc, digits)?.as_slice(), out)
}

/// Makes the call of any disk that the word and the text behind it spell, and adds what it answers: `len`,
/// `read PLACE COUNT`, `write PLACE HEX`, `sync`, and `faults`.
pub(crate) fn push_call<D: Disk>(
    alloc: Global,
    disk: &mut D,
    call: &str,
    text: &str,
    out: &mut String,
) -> Result<(), Fault> {
    match call {
        "len" => push_len(disk, out),
        "read" => push_read(alloc, disk, text, out),
        "write" => push_written(alloc, disk, text, out),
        "sync" => push_done(disk.sync().is_ok(), out),
        "faults" => push_number(disk.faults(), out),
        _ => Err(refuse("no such call")),
    }
}
