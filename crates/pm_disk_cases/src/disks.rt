//! Calls of a disk.

use crate::fuses::push_fuse;
use crate::spelling::{Calls, numbers, push_done};
use pm_case_text::{
    CallsOf, Fault, first_word, number, push_bytes, push_calls, push_number, raw_bytes, refuse,
    two_numbers,
};
use pm_disk::{Disk, MemDisk, Moments, write_in_order};
use std::alloc::Global;

// A write that ends behind this place is not made.
const MOST: u64 = 1 << 40;

// A value that may go to another thread.
pub(crate) fn is_sent<T: Send>(_: &T) {}

// Adds the length.
fn push_len<D: Disk>(disk: &mut D, out: &mut String) -> Result<(), Fault> {
    match disk.len() {
        Ok(len) => push_number(len, out),
        Err(_) => push_done(false, out),
    }
}

// Adds so many bytes from a place on.
fn push_bytes_at<D: Disk>(
    alloc: Global,
    disk: &mut D,
    at: u64,
    count: u64,
    out: &mut String,
) -> Result<(), Fault> {
    let mut into = vec![in alloc; 0; count as usize]?;
    match disk.read_at(at, &mut into) {
        Ok(()) => push_bytes(alloc, into.as_slice(), out),
        Err(_) => push_done(false, out),
    }
}

// `PLACE COUNT`: adds so many bytes from there on.
fn push_part<D: Disk>(
    alloc: Global,
    disk: &mut D,
    text: &str,
    out: &mut String,
) -> Result<(), Fault> {
    match two_numbers(text) {
        Ok((at, count)) => push_bytes_at(alloc, disk, at, count, out),
        Err(fault) => Err(fault),
    }
}

// A place, and the bytes that are written there.
fn piece(alloc: Global, at: &str, digits: &str) -> Result<(u64, Vec<u8>), Fault> {
    let at = number(at)?;
    match raw_bytes(alloc, digits) {
        Ok(bytes) => Ok((at, bytes)),
        Err(fault) => Err(fault),
    }
}

// Writes the bytes there.
fn write<D: Disk>(disk: &mut D, at: u64, from: &[u8], out: &mut String) -> Result<(), Fault> {
    if at >= MOST || from.len() as u64 >= MOST {
        return Err(refuse("too far"));
    }
    push_done(disk.write_at(at, from).is_ok(), out)
}

// `PLACE HEX`: writes the bytes there.
fn push_written<D: Disk>(
    alloc: Global,
    disk: &mut D,
    text: &str,
    out: &mut String,
) -> Result<(), Fault> {
    let (at, digits) = first_word(text);
    let (at, from) = piece(alloc, at, digits)?;
    write(disk, at, from.as_slice(), out)
}

/// Makes the call of any disk that is spelled so, and adds what it answers:
/// `len`, `read PLACE COUNT`, `write PLACE HEX`, `sync`, and `faults`.
pub(crate) fn push_call<D: Disk>(
    alloc: Global,
    disk: &mut D,
    call: &str,
    text: &str,
    out: &mut String,
) -> Result<(), Fault> {
    match call {
        "len" => push_len(disk, out),
        "read" => push_part(alloc, disk, text, out),
        "write" => push_written(alloc, disk, text, out),
        "sync" => push_done(disk.sync().is_ok(), out),
        "faults" => push_number(disk.faults(), out),
        _ => Err(refuse("no such call")),
    }
}

// Writes twice, so that a crash leaves no part of the second one unless it leaves the first whole.
fn write_both(
    disk: &mut MemDisk,
    first_at: u64,
    first: &[u8],
    second_at: u64,
    second: &[u8],
    out: &mut String,
) -> Result<(), Fault> {
    if first_at >= MOST || first.len() as u64 >= MOST {
        return Err(refuse("too far"));
    }
    if second_at >= MOST || second.len() as u64 >= MOST {
        return Err(refuse("too far"));
    }
    let done = write_in_order(disk, first_at, first, second_at, second);
    push_done(done.is_ok(), out)
}

// `PLACE HEX`: writes these bytes behind those of the first write.
fn push_second(
    alloc: Global,
    disk: &mut MemDisk,
    first_at: u64,
    first: &[u8],
    text: &str,
    out: &mut String,
) -> Result<(), Fault> {
    let (at, digits) = first_word(text);
    let (at, second) = piece(alloc, at, digits)?;
    write_both(disk, first_at, first, at, second.as_slice(), out)
}

// `PLACE HEX PLACE HEX`: writes these bytes in order.
fn push_both(alloc: Global, disk: &mut MemDisk, text: &str, out: &mut String) -> Result<(), Fault> {
    let (at, rest) = first_word(text);
    let (digits, rest) = first_word(rest);
    let (at, first) = piece(alloc, at, digits)?;
    push_second(alloc, disk, at, first.as_slice(), rest, out)
}

// Adds what a crash leaves that this pick chooses.
fn push_image(alloc: Global, disk: &MemDisk, pick: &str, out: &mut String) -> Result<(), Fault> {
    let image = disk.image(alloc, number(pick)?)?;
    push_bytes(alloc, image.as_slice(), out)
}

/// Adds what a disk in memory tells without a call: `faults`, `contents`, `calls`, `refused`, and `image PICK`.
pub(crate) fn push_told(
    alloc: Global,
    disk: &MemDisk,
    told: &str,
    text: &str,
    out: &mut String,
) -> Result<(), Fault> {
    match told {
        "faults" => push_number(disk.faults(), out),
        "contents" => push_bytes(alloc, disk.contents(), out),
        "calls" => push_number(disk.calls().len() as u64, out),
        "refused" => push_number(disk.refused(), out),
        "image" => push_image(alloc, disk, text, out),
        _ => Err(refuse("no such call")),
    }
}

impl CallsOf<MemDisk> for Calls {
    fn call(
        alloc: Global,
        called: &mut MemDisk,
        text: &str,
        out: &mut String,
    ) -> Result<(), Fault> {
        let (call, rest) = first_word(text);
        match call {
            "len" | "read" | "write" | "sync" => push_call(alloc, called, call, rest, out),
            "in-order" => push_both(alloc, called, rest, out),
            _ => push_told(alloc, called, call, rest, out),
        }
    }
}

// A disk that holds these bytes, and that fails the calls of these numbers. It may be sent to another thread.
fn disk_of(alloc: Global, held: &str, fails: &str) -> Result<MemDisk, Fault> {
    let disk = MemDisk::new(raw_bytes(alloc, held)?, numbers(alloc, fails)?);
    is_sent(&disk);
    is_sent(&Moments::new());
    Ok(disk)
}

/// `HEX FAILS CALLS`: the calls, between ` / `, of a disk in memory that holds these bytes and that fails the calls of
/// these numbers. Where there is a fuse, what follows is for a disk with one over that disk.
pub(crate) fn push_disk(
    alloc: Global,
    text: &str,
    fuse: bool,
    out: &mut String,
) -> Result<(), Fault> {
    let (held, rest) = first_word(text);
    let (fails, rest) = first_word(rest);
    match disk_of(alloc, held, fails) {
        Ok(mut disk) => {
            if fuse {
                return push_fuse(alloc, disk, rest, out);
            }
            push_calls::<Calls, _>(alloc, &mut disk, rest, out)
        }
        Err(fault) => Err(fault),
    }
}
