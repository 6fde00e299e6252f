//! What is printed.

use crate::fault::{Fault, refuse};
use std::alloc::Global;
use std::fmt::{Debug, Write};

/// Adds the line with which the case of this name begins.
pub fn push_case(name: &str, out: &mut String) -> Result<(), Fault> {
    writeln!(out, "case {name}")?;
    Ok(())
}

/// Adds bytes that are text.
pub fn push_text(bytes: &[u8], out: &mut String) -> Result<(), Fault> {
    match str::from_utf8(bytes) {
        Ok(text) => Ok(out.push_str(text)?),
        Err(_) => Err(refuse("no text")),
    }
}

/// Adds a number in decimal.
pub fn push_number(number: u64, out: &mut String) -> Result<(), Fault> {
    write!(out, "{number}")?;
    Ok(())
}

/// Adds a line: what is said of a number, and the number.
pub fn push_said(what: &str, number: u64, out: &mut String) -> Result<(), Fault> {
    writeln!(out, "{what} {number}")?;
    Ok(())
}

/// Adds words as they stand.
pub fn push_words(words: &str, out: &mut String) -> Result<(), Fault> {
    Ok(out.push_str(words)?)
}

// Adds the number that stands before the piece at a place, if there is one; none stands before the first piece.
fn push_before(place: usize, numbers: &[u64], out: &mut String) -> Result<(), Fault> {
    match numbers.get(place.wrapping_sub(1)) {
        Some(number) => push_number(*number, out),
        None => Ok(()),
    }
}

/// Adds a text with these numbers in decimal, one after another, each in place of a `%`.
pub fn push_filled(text: &str, numbers: &[u64], out: &mut String) -> Result<(), Fault> {
    for (place, piece) in text.split('%').enumerate() {
        push_before(place, numbers, out)?;
        push_words(piece, out)?;
    }
    Ok(())
}

/// Adds a value as it is printed.
pub fn push_value<T: Debug>(value: &T, out: &mut String) -> Result<(), Fault> {
    write!(out, "{value:?}")?;
    Ok(())
}

/// Adds a line: a value as it is printed.
pub fn push_value_line<T: Debug>(value: &T, out: &mut String) -> Result<(), Fault> {
    writeln!(out, "{value:?}")?;
    Ok(())
}

/// Adds bytes in pairs of hexadecimal digits; `-` is no byte.
pub fn push_bytes(alloc: Global, bytes: &[u8], out: &mut String) -> Result<(), Fault> {
    if bytes.is_empty() {
        return Ok(out.push_str("-")?);
    }
    let digits = hex::encode(alloc, bytes)?;
    Ok(out.push_str(digits.as_str())?)
}
