//! Headers that are read and written, and digests.

ghost use Rattle.pm_layout.specs.Headers.{HasHeaderSpelling};

use crate::spelling::{push_again, push_around};
use pm_case_text::{Fault, push_bytes, push_value_line, push_words, raw_bytes, refuse};
use pm_layout::{Header, HeaderFault, digest, read_header, write_header};
use std::alloc::Global;

// Adds a digest, and ends the line.
fn push_sum(alloc: Global, sum: &[u8; 32], out: &mut String) -> Result<(), Fault> {
    push_bytes(alloc, sum, out)?;
    push_words("\n", out)
}

/// `HEX`: the digest of these bytes.
pub(crate) fn push_digest(alloc: Global, text: &str, out: &mut String) -> Result<(), Fault> {
    match raw_bytes(alloc, text) {
        Ok(bytes) => push_sum(alloc, &digest(bytes.as_slice()), out),
        Err(fault) => Err(fault),
    }
}

/// The digest of the first 64 of 96 bytes stands behind them.
pub(crate) fn seal(all: &mut [u8]) -> Result<(), Fault> {
    let Some((body, kept)) = all.split_at_mut_checked(64) else {
        return Err(refuse("no header"));
    };
    if kept.len() != 32 {
        return Err(refuse("no header"));
    }
    kept.copy_from_slice(&digest(body));
    Ok(())
}

// Adds what a header says.
fn push_says(alloc: Global, header: &Header, out: &mut String) -> Result<(), Fault> {
    let numbers = [
        header.version as u64,
        header.epoch as u64,
        header.next,
        header.first,
    ];
    let text = "version %, copy %, next %, first %, digest ";
    push_around(alloc, text, &numbers, &header.digest, ", written ", out)
}

// Adds what a header says, and whether it is written so again.
fn push_found(alloc: Global, all: &[u8; 96], header: &Header, out: &mut String) -> Result<(), Fault>
    requires { HasHeaderSpelling header.now }
{
    push_says(alloc, header, out)?;
    push_again(Ok(write_header(header) == *all), out)
}

// Adds two digests that differ.
fn push_digests(
    alloc: Global,
    kept: &[u8; 32],
    found: &[u8; 32],
    out: &mut String,
) -> Result<(), Fault> {
    push_around(alloc, "digest kept ", &[], kept, ", found ", out)?;
    push_sum(alloc, found, out)
}

// The header that these 96 bytes are, or why they are none.
fn push_read(alloc: Global, all: &[u8; 96], out: &mut String) -> Result<(), Fault> {
    match read_header(all) {
        Ok(header) => push_found(alloc, all, &header, out),
        Err(HeaderFault::Digest { kept, found }) => push_digests(alloc, &kept, &found, out),
        Err(fault) => push_value_line(&fault, out),
    }
}

/// The header that the bytes are.
pub(crate) fn push_header(alloc: Global, all: &[u8], out: &mut String) -> Result<(), Fault> {
    if all.len() != 96 {
        return Err(refuse("no header"));
    }
    let mut copy = [0; 96];
    copy.copy_from_slice(all);
    push_read(alloc, &copy, out)
}
