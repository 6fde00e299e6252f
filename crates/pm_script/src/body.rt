ghost use Rattle.std.specs.Prelude.{◌≡◌, ◌==◌, length};
ghost use Rattle.pm_script.specs.Lines.{parts_in};
ghost use Rattle.pm_script.specs.Reading.{Gives, said_at, first_said_at, body_at, line_at};

use crate::fault::{Cause, LineFault};
use crate::limits::LINE_BYTES;
use crate::line::Line;
use crate::parts::{count_byte, take_word};
use crate::said::Said;
use crate::value::first;
use crate::verb::{First, Verb};
use std::alloc::Global;

// Whether so many words are left.
fn are_left(words: Option<&[u8]>, count: usize) -> bool
    ensures { result ≡ (length (parts_in 32 words.entry) == count) }
{
    match words {
        Some(text) => count > 0 && count_byte(text, b' ') == count - 1,
        None => count == 0,
    }
}

// The words after the first: one that names what is asked, and the words of its values.
#[tactic(auto, unfolding(crate::specs::Reading::said_at, crate::specs::Reading::counted_at))]
fn read_said<L: Said>(alloc: Global, first: First, words: Option<&[u8]>) -> Result<L, LineFault>
    ensures { Gives result (said_at L.dialect L.asked first (parts_in 32 words.entry)) }
{
    let Some((word, rest)) = take_word(words) else {
        return Err(LineFault::Bad(Cause::Word));
    };
    let Some(verb) = Verb::read::<L>(first, word) else {
        return Err(LineFault::Bad(Cause::Word));
    };
    if !are_left(rest, verb.kinds().len()) {
        return Err(LineFault::Bad(Cause::Count));
    }
    L::read_values(alloc, first, verb, rest)
}

// All words of a line.
#[tactic(auto, unfolding(crate::specs::Reading::first_said_at))]
fn read_words<L: Said>(alloc: Global, words: Option<&[u8]>) -> Result<L, LineFault>
    ensures { Gives result (first_said_at L.dialect L.asked (parts_in 32 words.entry)) }
{
    let Some((word, rest)) = take_word(words) else {
        return Err(LineFault::Bad(Cause::Client));
    };
    match first(word) {
        Some(first) => read_said(alloc, first, rest),
        None => Err(LineFault::Bad(Cause::Client)),
    }
}

/// What a line that says something asks, in its dialect.
#[tactic(auto, unfolding(crate::specs::Reading::body_at))]
pub(crate) fn read_body<L: Said>(alloc: Global, body: &[u8]) -> Result<L, LineFault>
    ensures { Gives result (body_at L.dialect L.asked body.now) }
{
    if body.len() > LINE_BYTES {
        return Err(LineFault::Bad(Cause::LineTooLong));
    }
    read_words(alloc, Some(body))
}

/// What a line that says something asks: of 1 to 16,384 bytes (`LINE_BYTES`), without its newline, the first no `#`.
/// `Bad` gives the first cause that applies; a line of more bytes is `LineTooLong`.
pub fn read_line(alloc: Global, body: &[u8]) -> Result<Line, LineFault>
    ensures { Gives result (line_at body.now) }
{
    read_body(alloc, body)
}
