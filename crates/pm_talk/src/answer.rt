//! The answer to a line, ready to be told.

ghost use Rattle.std.specs.Prelude.{◌≡◌, ◌≤◌, length, Ok, Some};
ghost use Rattle.pm_place.specs.Choosers.{IsChooser};
ghost use Rattle.pm_script.specs.declared.reply.TheConstants.{REPLY_BYTES};
ghost use Rattle.pm_peer.specs.declared.asked.Asked.TheVariants as asks;
ghost use Rattle.pm_peer.specs.Questions.{asked_at};
ghost use Rattle.pm_engine.specs.Shown.{chooser, serving};
ghost use Rattle.pm_talk.specs.declared.events.TheConstants.{MOST_EVENTS};
ghost use Rattle.pm_talk.specs.Flushing.{IsUnread};
ghost use Rattle.pm_talk.specs.Going.{TalkGoesOn};
ghost use Rattle.pm_talk.specs.Saying.{IsAskable, IsReady, stop_by};
ghost use Rattle.std.specs.Prelude.{None};

use crate::command::{answer_command, answer_flush, answer_gc};
use crate::questions::{answer_count, answer_look, answer_name, answer_watch};
use crate::texts::{fault_line, no_memory_line};
use pm_disk::Disk;
use pm_engine::events::Engine;
use pm_peer::{Asked, a_line_asks_what_it_spells, read_asked};
use pm_script::{Line, LineFault};
use pm_serial::output::line::Line as ShortLine;
use std::alloc::Global;

/// An answer that is ready to be told.
#[derive(Drop)]
pub(crate) enum Saying {
    /// The reply line of a command.
    Reply {
        /// How many bytes of the buffer it is.
        bytes: usize,
        /// How many events of the collector are due behind it.
        due: u32,
    },
    /// A line that took no memory.
    Short(ShortLine),
    /// The line of an object or of a name.
    Text(Vec<u8>),
}

// Answers what a line of a script asks.
fn answer_line<D: Disk, F: Fn(&[u64]) -> usize + Drop>(
    alloc: Global,
    engine: &mut Engine<D, F>,
    events: u32,
    line: Line,
    reply: &mut [u8],
) -> Option<Saying>
    requires few { events ≤ MOST_EVENTS }
    requires running { (serving engine.old).stopped ≡ None }
    requires chooser { IsChooser F.Fn (chooser engine.old) }
    requires room { length reply.old ≡ REPLY_BYTES }
    requires askable { IsAskable (asks.Line line) }
    ensures ready { IsReady events (Ok (asks.Line line)) (serving engine.old) (serving engine.new) reply.new result }
    ensures engine { TalkGoesOn engine.old engine.new (stop_by result) }
    ensures len { length reply.new ≡ length reply.old }
{
    match line {
        Line::Client { client, cmd } => answer_command(alloc, engine, events, client, cmd, reply),
        Line::Gc(count) => Some(answer_gc(alloc, engine, count)),
        Line::Flush(count) => answer_flush(alloc, engine, count),
    }
}

// Answers what is asked.
fn answer_asked<D: Disk, F: Fn(&[u64]) -> usize + Drop>(
    alloc: Global,
    engine: &mut Engine<D, F>,
    events: u32,
    asked: Asked,
    reply: &mut [u8],
) -> Option<Saying>
    requires few { events ≤ MOST_EVENTS }
    requires running { (serving engine.old).stopped ≡ None }
    requires chooser { IsChooser F.Fn (chooser engine.old) }
    requires room { length reply.old ≡ REPLY_BYTES }
    requires askable { IsAskable asked }
    ensures ready { IsReady events (Ok asked) (serving engine.old) (serving engine.new) reply.new result }
    ensures engine { TalkGoesOn engine.old engine.new (stop_by result) }
    ensures len { length reply.new ≡ length reply.old }
{
    engine.keep_their_images();
    match asked {
        Asked::Line(line) => answer_line(alloc, engine, events, line, reply),
        Asked::Look { client, reg } => Some(answer_look(alloc, engine, client, reg)),
        Asked::Name(place) => Some(answer_name(alloc, engine, place)),
        Asked::Count => Some(answer_count(engine)),
        Asked::Watch(number) => Some(answer_watch(engine, number)),
    }
}

// What is told to a line that was not read.
fn unread_line(fault: LineFault) -> ShortLine
    ensures { IsUnread fault result.items }
{
    match fault {
        LineFault::Bad(cause) => fault_line(cause),
        LineFault::Memory(refused) => no_memory_line(refused),
    }
}

/// Answers a line of at most 16,384 bytes that says something; `None` where the disk failed, of which nothing is ready.
pub(crate) fn answer_body<D: Disk, F: Fn(&[u64]) -> usize + Drop>(
    alloc: Global,
    engine: &mut Engine<D, F>,
    events: u32,
    body: &[u8],
    reply: &mut [u8],
) -> Option<Saying>
    requires few { events ≤ MOST_EVENTS }
    requires running { (serving engine.old).stopped ≡ None }
    requires chooser { IsChooser F.Fn (chooser engine.old) }
    requires room { length reply.old ≡ REPLY_BYTES }
    ensures ready { IsReady events (asked_at body.now) (serving engine.old) (serving engine.new) reply.new result }
    ensures engine { TalkGoesOn engine.old engine.new (stop_by result) }
    ensures len { length reply.new ≡ length reply.old }
{
    engine.keep_their_images();
    a_line_asks_what_it_spells();
    match read_asked(alloc, body) {
        Ok(asked) => answer_asked(alloc, engine, events, asked, reply),
        Err(fault) => Some(Saying::Short(unread_line(fault))),
    }
}
