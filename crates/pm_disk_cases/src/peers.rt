//! Calls of lines over a peer in memory, and what a line of a conversation asks.

use crate::spelling::{numbers, push_done};
use pm_case_text::{
    CallsOf, Fault, first_word, numbered, push_bytes, push_calls, push_filled, push_number,
    push_value, push_value_line, push_words, raw_bytes, refuse,
};
use pm_peer::{Asked, Lines, MemPeer, Peer, Said, read_asked};
use pm_types::Fault as Failed;
use std::alloc::Global;

// A peer in memory, and its lines.
#[derive(Drop)]
struct Spoken {
    peer: MemPeer,
    lines: Lines,
}

// Adds what is heard next.
fn push_next(spoken: &mut Spoken, out: &mut String) -> Result<(), Fault> {
    match spoken.lines.next(&mut spoken.peer) {
        Ok(next) => push_value(&next, out),
        Err(why) => push_value(&why, out),
    }
}

// Tells a line.
fn push_told(
    alloc: Global,
    spoken: &mut Spoken,
    text: &str,
    out: &mut String,
) -> Result<(), Fault> {
    let line = raw_bytes(alloc, text)?;
    push_done(spoken.peer.tell(line.as_slice()).is_ok(), out)
}

// Adds how many bytes were heard or told at once.
fn push_part(said: &Said, out: &mut String) -> Result<(), Fault> {
    match said {
        Said::Heard(bytes) => push_filled(" heard %", &[bytes.as_slice().len() as u64], out),
        Said::Told(bytes) => push_filled(" told %", &[bytes.as_slice().len() as u64], out),
    }
}

// Adds what was said so far, in its order.
fn push_talk(talk: &[Said], out: &mut String) -> Result<(), Fault> {
    push_words("talk", out)?;
    for said in talk {
        push_part(said, out)?;
    }
    Ok(())
}

// How the calls are spelled.
struct SpokenCalls;

impl CallsOf<Spoken> for SpokenCalls {
    fn call(alloc: Global, called: &mut Spoken, text: &str, out: &mut String) -> Result<(), Fault> {
        let (call, rest) = first_word(text);
        match call {
            "next" => push_next(called, out),
            "line" => push_bytes(alloc, called.lines.line(), out),
            "length" => push_number(called.lines.line().len() as u64, out),
            "tell" => push_told(alloc, called, rest, out),
            "talk" => push_talk(called.peer.talk(), out),
            "faults" => push_number(called.peer.faults(), out),
            _ => Err(refuse("no such call")),
        }
    }
}

/// `HEX PIECE FAILS CALLS`: the calls, between ` / `, of lines over a peer in memory of these bytes, which gives at most
/// PIECE of them in one call, and fails those calls of `hear` and `tell` that have these numbers. `next` is what is
/// heard next; `line` the line that is lent, and `length` how many bytes it has; `tell HEX` tells bytes; `talk` is how
/// many bytes were heard and told at a time so far.
pub(crate) fn push_peer(alloc: Global, text: &str, out: &mut String) -> Result<(), Fault> {
    let (held, rest) = first_word(text);
    let (piece, rest) = numbered(rest)?;
    let (fails, calls) = first_word(rest);
    let piece = (piece as usize).max(1);
    let bytes = raw_bytes(alloc, held)?;
    let fails = numbers(alloc, fails)?;
    let mut spoken = Spoken {
        peer: MemPeer::new(alloc, bytes, piece, fails),
        lines: Lines::new(alloc)?,
    };
    push_calls::<SpokenCalls, _>(alloc, &mut spoken, calls, out)
}

// Adds a question, or that a line of a script was read.
fn push_asked(asked: Asked, out: &mut String) -> Result<(), Fault> {
    match asked {
        Asked::Line(_) => push_words("line\n", out),
        Asked::Look { client, reg } => {
            let numbers = [u64::from(client), u64::from(reg.number())];
            push_filled("look % %\n", &numbers, out)
        }
        Asked::Name(place) => push_filled("name %\n", &[u64::from(place)], out),
        Asked::Count => push_words("count\n", out),
        Asked::Watch(number) => push_filled("watch %\n", &[u64::from(number)], out),
    }
}

/// `TEXT`: what this line of a conversation asks, or why it asks nothing.
pub(crate) fn push_asks(alloc: Global, text: &str, out: &mut String) -> Result<(), Fault> {
    match read_asked(alloc, text.as_bytes()) {
        Ok(asked) => push_asked(asked, out),
        Err(Failed::Bad(cause)) => push_value_line(&cause, out),
        Err(Failed::Memory(_)) => Err(refuse("no memory")),
    }
}
