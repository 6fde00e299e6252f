//! How the bytes of a dump are spelled.

use pm_case_text::{Count, Fault, push_lines, written_out};
use std::alloc::Global;

// Puts a carriage return in place of each `~`.
fn put_returns(bytes: &mut [u8]) {
    for byte in bytes.iter_mut() {
        if *byte == b'~' {
            *byte = b'\r';
        }
    }
}

// The bytes of a text that is written out.
fn bytes_of(alloc: Global, text: &str) -> Result<Vec<u8>, Fault> {
    let mut bytes = Vec::new(alloc);
    if text.is_empty() {
        bytes.push(b'\n')?;
    }
    push_lines(&mut bytes, text)?;
    put_returns(bytes.as_mut_slice());
    Ok(bytes)
}

/// The bytes that a text spells: `/` is the end of a line, with a space on each side that does not count, and `~` is a
/// carriage return. A newline stands behind all.
pub(crate) fn lines(alloc: Global, text: &str) -> Result<Vec<u8>, Fault> {
    match written_out(alloc, text, Count::FromOne) {
        Ok(written) => bytes_of(alloc, written.as_str()),
        Err(fault) => Err(fault),
    }
}
