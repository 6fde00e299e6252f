//! Calls of streams: in memory, and over readers and writers.

use crate::spelling::{Calls, numbers, push_around, push_done};
use pm_case_text::{
    CallsOf, Fault, first_word, number, numbered, push_bytes, push_calls, push_filled, push_number,
    push_said, push_value, push_words, raw_bytes, refuse,
};
use pm_io::{MemSink, MemSource, Sink, Source, StdSink, StdSource, read_all};
use std::alloc::Global;
use std::io::{self, Error, ErrorKind, Read, Write};

// Adds all that a source still gives.
fn push_all(alloc: Global, source: &mut MemSource, out: &mut String) -> Result<(), Fault> {
    match read_all(alloc, source) {
        Ok(all) => push_bytes(alloc, all.as_slice(), out),
        Err(why) => push_value(&why, out),
    }
}

impl CallsOf<MemSource> for Calls {
    fn call(
        alloc: Global,
        called: &mut MemSource,
        text: &str,
        out: &mut String,
    ) -> Result<(), Fault> {
        match text {
            "all" => push_all(alloc, called, out),
            "faults" => push_number(called.faults(), out),
            _ => Err(refuse("no such call")),
        }
    }
}

/// `HEX PIECE FAILS CALLS`: the calls, between ` / `, of a source in memory of these bytes, which gives at most PIECE
/// of them in one call, and fails the calls of these numbers.
pub(crate) fn push_source(alloc: Global, text: &str, out: &mut String) -> Result<(), Fault> {
    let (held, rest) = first_word(text);
    let (piece, rest) = numbered(rest)?;
    let (fails, calls) = first_word(rest);
    let piece = (piece as usize).max(1);
    let mut source = MemSource::new(raw_bytes(alloc, held)?, piece, numbers(alloc, fails)?);
    push_calls::<Calls, _>(alloc, &mut source, calls, out)
}

// Puts bytes into a sink.
fn push_put<S: Sink>(
    alloc: Global,
    sink: &mut S,
    text: &str,
    out: &mut String,
) -> Result<(), Fault> {
    let from = raw_bytes(alloc, text)?;
    push_done(sink.put(from.as_slice()).is_ok(), out)
}

// How the calls of any sink are spelled.
struct SinkCalls;

impl<S: Sink> CallsOf<S> for SinkCalls {
    fn call(alloc: Global, called: &mut S, text: &str, out: &mut String) -> Result<(), Fault> {
        let (call, rest) = first_word(text);
        match call {
            "put" => push_put(alloc, called, rest, out),
            "finish" => push_done(called.finish().is_ok(), out),
            "faults" => push_number(called.faults(), out),
            _ => Err(refuse("no such call")),
        }
    }
}

// Adds what a sink in memory holds, how much of it is finished, and how many calls were refused memory.
fn push_sink_state(alloc: Global, sink: &MemSink, out: &mut String) -> Result<(), Fault> {
    push_around(alloc, "written ", &[], sink.written(), ", ", out)?;
    let numbers = [sink.finished(), sink.refused()];
    push_filled("finished %, refused %\n", &numbers, out)
}

/// `FAILS CALLS`: the calls, between ` / `, of a sink in memory that fails those of these numbers, and what it holds
/// then.
pub(crate) fn push_sink(alloc: Global, text: &str, out: &mut String) -> Result<(), Fault> {
    let (fails, calls) = first_word(text);
    let mut sink = MemSink::new(alloc, numbers(alloc, fails)?);
    push_calls::<SinkCalls, _>(alloc, &mut sink, calls, out)?;
    push_sink_state(alloc, &sink, out)
}

// How much a stream may move: it is interrupted at its first call, moves three bytes at its second, fails at its third,
// and moves all from then on.
fn most_at(calls: &mut u64) -> io::Result<usize> {
    *calls = calls.saturating_add(1);
    match *calls {
        1 => Err(Error::from(ErrorKind::Interrupted)),
        2 => Ok(3),
        3 => Err(Error::from(ErrorKind::Other)),
        _ => Ok(usize::MAX),
    }
}

// Such a reader of these bytes.
#[derive(Drop)]
struct Reader<'a> {
    calls: u64,
    text: &'a [u8],
}

impl Read for Reader<'_> {
    fn read(&mut self, into: &mut [u8]) -> io::Result<usize> {
        match most_at(&mut self.calls) {
            Ok(most) => {
                let n = most.min(into.len());
                self.text.read(&mut into[..n])
            }
            Err(error) => Err(error),
        }
    }
}

// Such a writer, which holds what was written.
#[derive(Drop)]
struct Writer {
    calls: u64,
    held: Vec<u8>,
}

impl Write for Writer {
    fn write(&mut self, from: &[u8]) -> io::Result<usize> {
        match most_at(&mut self.calls) {
            Ok(most) => self.held.write(&from[..most.min(from.len())]),
            Err(error) => Err(error),
        }
    }

    fn flush(&mut self) -> io::Result<()> {
        match most_at(&mut self.calls) {
            Ok(_) => Ok(()),
            Err(error) => Err(error),
        }
    }
}

// Takes into four bytes, and adds how many came.
fn push_taken<S: Source>(
    source: &mut S,
    into: &mut [u8; 4],
    out: &mut String,
) -> Result<(), Fault> {
    match source.take(into) {
        Ok(n) => push_number(n as u64, out),
        Err(_) => push_words("failed", out),
    }
}

// Takes once, and adds how many came, what the four bytes are, and how many calls failed.
fn push_take<S: Source>(
    alloc: Global,
    source: &mut S,
    into: &mut [u8; 4],
    out: &mut String,
) -> Result<(), Fault> {
    push_taken(source, into, out)?;
    push_around(alloc, " ", &[], into, " ", out)?;
    push_said("/", source.faults(), out)
}

// Takes so many times.
fn push_takes<S: Source>(
    alloc: Global,
    source: &mut S,
    times: u64,
    out: &mut String,
) -> Result<(), Fault> {
    let mut into = [b'-'; 4];
    for _ in 0..times {
        push_take(alloc, source, &mut into, out)?;
    }
    Ok(())
}

/// `HEX N`: N calls, each of four bytes, of a source over a reader of these bytes that is interrupted at its first
/// call, gives three bytes at its second, fails at its third, and gives all from then on. After each of them how many
/// bytes came, what the four bytes are, which begin as `2d2d2d2d`, and the count of failed calls.
pub(crate) fn push_reader(alloc: Global, text: &str, out: &mut String) -> Result<(), Fault> {
    let (held, times) = first_word(text);
    let held = raw_bytes(alloc, held)?;
    let mut source = StdSource::new(Reader {
        calls: 0,
        text: held.as_slice(),
    });
    push_takes(alloc, &mut source, number(times)?, out)
}

// Makes the calls between ` / ` of a sink over a writer.
fn push_over(
    alloc: Global,
    writer: &mut Writer,
    calls: &str,
    out: &mut String,
) -> Result<(), Fault> {
    let mut sink = StdSink::new(writer);
    push_calls::<SinkCalls, _>(alloc, &mut sink, calls, out)
}

// Adds how many calls were made to a writer, and what it holds.
fn push_held(alloc: Global, writer: &Writer, out: &mut String) -> Result<(), Fault> {
    let held = writer.held.as_slice();
    push_around(alloc, "calls %, held ", &[writer.calls], held, "\n", out)
}

/// `N CALLS`: the calls, between ` / `, of a sink over a writer to which N calls were made before, that is as the
/// reader of `reader`. How many calls were made to it then, and what it holds.
pub(crate) fn push_writer(alloc: Global, text: &str, out: &mut String) -> Result<(), Fault> {
    let (calls, rest) = numbered(text)?;
    let mut writer = Writer {
        calls,
        held: Vec::new(alloc),
    };
    push_over(alloc, &mut writer, rest, out)?;
    push_held(alloc, &writer, out)
}
