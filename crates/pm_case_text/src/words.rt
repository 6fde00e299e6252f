//! How the words of a line are spelled.

use crate::fault::{Fault, refuse};
use pm_types::PAGE_BYTES;
use std::alloc::Global;

/// Whether a line says nothing: it is empty, or begins with `#`.
pub fn is_silent(line: &str) -> bool {
    line.is_empty() || line.starts_with('#')
}

/// A word, and what follows it behind one space.
pub fn first_word(text: &str) -> (&str, &str) {
    match text.split_once(' ') {
        Some(parts) => parts,
        None => (text, ""),
    }
}

/// A number of 64 bits in decimal.
pub fn number(text: &str) -> Result<u64, Fault> {
    match text.parse::<u64>() {
        Ok(number) => Ok(number),
        Err(_) => Err(refuse("no number")),
    }
}

/// A number of 32 bits in decimal.
pub fn small(text: &str) -> Result<u32, Fault> {
    match text.parse::<u32>() {
        Ok(number) => Ok(number),
        Err(_) => Err(refuse("no number")),
    }
}

/// A number of 64 bits in decimal, and what follows it behind one space.
pub fn numbered(text: &str) -> Result<(u64, &str), Fault> {
    let (first, rest) = first_word(text);
    Ok((number(first)?, rest))
}

/// A word, and the number behind one space.
pub fn word_and_number(text: &str) -> Result<(&str, u64), Fault> {
    let (word, rest) = first_word(text);
    Ok((word, number(rest)?))
}

/// Two numbers with one space between them.
pub fn two_numbers(text: &str) -> Result<(u64, u64), Fault> {
    let (first, rest) = first_word(text);
    match (number(first), number(rest)) {
        (Ok(first), Ok(second)) => Ok((first, second)),
        (Err(fault), _) | (_, Err(fault)) => Err(fault),
    }
}

// Byte `at` of a page.
fn place_in(page: u64, at: u64) -> Option<u64> {
    page.checked_mul(PAGE_BYTES as u64)?.checked_add(at)
}

/// A place in a file: the number of a byte, or `PAGE:BYTE`.
pub fn place(text: &str) -> Result<usize, Fault> {
    match text.split_once(':') {
        None => Ok(number(text)? as usize),
        Some((page, at)) => match place_in(number(page)?, number(at)?) {
            Some(place) => Ok(place as usize),
            None => Err(refuse("no place")),
        },
    }
}

/// A place in a file, and what follows it behind one space.
pub fn placed(text: &str) -> Result<(usize, &str), Fault> {
    let (first, rest) = first_word(text);
    Ok((place(first)?, rest))
}

/// Bytes in pairs of hexadecimal digits; `-` is no byte.
pub fn raw_bytes(alloc: Global, text: &str) -> Result<Vec<u8>, Fault> {
    let digits = if text == "-" { "" } else { text };
    match hex::decode(alloc, digits) {
        Ok(bytes) => Ok(bytes),
        Err(_) => Err(refuse("no bytes")),
    }
}
