//! Texts that stand several times.

use crate::fault::{Fault, refuse};
use crate::words::numbered;
use std::alloc::Global;
use std::fmt::Write;

/// What stands in place of `%` in a text that stands several times.
#[derive(Clone, Copy)]
pub enum Count {
    /// `%` itself.
    None,
    /// The number of the time in decimal, from 0.
    FromZero,
    /// That number from 1, and in place of `#` the same in five digits.
    FromOne,
    /// That number from 1, as two bytes in hexadecimal.
    Bytes,
}

// Adds a letter, or the number that stands in its place; the first time is 0.
fn push_letter(out: &mut String, letter: char, time: u64, count: Count) -> Result<(), Fault> {
    let next = time.saturating_add(1);
    match (count, letter) {
        (Count::FromZero, '%') => write!(out, "{time}")?,
        (Count::FromOne, '%') => write!(out, "{next}")?,
        (Count::FromOne, '#') => write!(out, "{next:05}")?,
        (Count::Bytes, '%') => write!(out, "{next:04x}")?,
        _ => out.push(letter)?,
    }
    Ok(())
}

// Adds the text as it stands at this time.
fn push_time(out: &mut String, text: &str, time: u64, count: Count) -> Result<(), Fault> {
    for letter in text.chars() {
        push_letter(out, letter, time, count)?;
    }
    Ok(())
}

/// The text as it stands at this time, of which the first is 0.
pub fn counted(alloc: Global, text: &str, time: u64) -> Result<String, Fault> {
    let mut out = String::new(alloc);
    push_time(&mut out, text, time, Count::FromZero)?;
    Ok(out)
}

// Adds the text so many times.
fn push_times(out: &mut String, times: u64, text: &str, count: Count) -> Result<(), Fault> {
    for time in 0..times {
        push_time(out, text, time, count)?;
    }
    Ok(())
}

// Adds what stands behind an opening brace: `N TEXT}` is the text N times, and then the rest as it is.
fn push_piece(out: &mut String, piece: &str, count: Count) -> Result<(), Fault> {
    let Some((inside, rest)) = piece.split_once('}') else {
        return Err(refuse("no closing brace"));
    };
    let (times, text) = numbered(inside)?;
    push_times(out, times, text, count)?;
    out.push_str(rest)?;
    Ok(())
}

// Adds the pieces behind opening braces.
fn push_pieces(out: &mut String, pieces: &str, count: Count) -> Result<(), Fault> {
    for piece in pieces.split('{') {
        push_piece(out, piece, count)?;
    }
    Ok(())
}

/// The line with each `{N TEXT}` written out: the text N times, with its number as `count` says.
pub fn written_out(alloc: Global, line: &str, count: Count) -> Result<String, Fault> {
    let Some((start, pieces)) = line.split_once('{') else {
        return Ok(String::from_str(alloc, line)?);
    };
    let mut out = String::from_str(alloc, start)?;
    push_pieces(&mut out, pieces, count)?;
    Ok(out)
}
