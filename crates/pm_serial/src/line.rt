//! The lines of a script, one after another, through a buffer that has its room.

ghost use Rattle.std.specs.Prelude.{◌≡◌, ◌≤◌, [], ◌++◌, length, None};
ghost use Rattle.std.specs.Option.{option_to_list};
ghost use Rattle.pm_place.specs.Choosers.{IsChooser};
ghost use Rattle.pm_script.specs.Script.{AreLines, first_of};
ghost use Rattle.pm_script.specs.Words.{IsFirst};
ghost use Rattle.pm_serial.specs.Output.Gathered.{gathered};
ghost use Rattle.pm_engine.specs.Shown.{chooser, room, serving};
ghost use Rattle.pm_script.specs.Parted.Asked.{events_asked, request_of, requests_asked, steps_asked};
ghost use Rattle.pm_script.specs.Parted.Asked.{steps_of};
ghost use Rattle.pm_engine.specs.Events.Causes.{OnStop, why};
ghost use Rattle.pm_engine.specs.Events.Events.{AnswersPart, EngineGoesOn};
ghost use Rattle.pm_serial.specs.Acknowledged.{KeepsSaved};
ghost use Rattle.pm_serial.specs.Ordered.{TellsLine, TellsLines};
ghost use Rattle.pm_serial.specs.Stepping.{SinkGoesOn, StopsLine, StopsLines, events_of};

use crate::event::{answer_client, make_events};
use crate::kind::Kind;
use crate::output::Output;
use pm_disk::Disk;
use pm_engine::events::{Engine, Stop};
use pm_io::Sink;
use pm_script::Line;
use std::alloc::Global;
use std::collections::VecDeque;

// Takes the next of the lines that are left. Where they fill no more than half of their buffer, it gives back the rest.
// So the buffer holds twice the lines that are left at most, and all in all no more lines are moved than there are.
fn next_line(left: &mut VecDeque<Line>) -> Option<Line>
    ensures next { left.old.items ≡ option_to_list result ++ left.new.items }
    ensures end { result ≡ None → left.old.items ≡ [] }
{
    let line = left.pop_front();
    if left.len() <= left.capacity() / 2 {
        left.shrink_to_fit();
    }
    line
}

// Runs a line, for whose entry there is room.
fn run_line<D: Disk, F: Fn(&[u64]) -> usize + Drop, K: Sink>(
    alloc: Global,
    line: Line,
    engine: &mut Engine<D, F>,
    output: &mut Output,
    sink: &mut K,
) -> Result<(), Stop>
    requires client { IsFirst (first_of line) }
    requires room { length (request_of line) ≤ room engine.old }
    requires running { (serving engine.old).stopped ≡ None }
    requires chooser { IsChooser F.Fn (chooser engine.old) }
    ensures answers { AnswersPart (request_of line) (events_of line) (steps_of line)
        (serving engine.old) (serving engine.new) (why result) }
    ensures course { TellsLine line (serving engine.old) (serving engine.new) (why result) }
    ensures stops { OnStop (why result)
        (StopsLine line (serving engine.old) (serving engine.new) (why result)) }
    ensures engine { EngineGoesOn engine.old engine.new (why result) }
    ensures sink { SinkGoesOn K.written K.count sink.old sink.new
        (gathered output.old) (gathered output.new)
        (serving engine.old).journal (serving engine.new).journal (why result) }
    ensures saved { KeepsSaved K.Sink sink.old sink.new (gathered output.old)
        (serving engine.old).journal (serving engine.new).journal (why result) }
{
    match line {
        Line::Client { client, cmd } => answer_client(alloc, engine, client, cmd, output, sink),
        Line::Gc(count) => make_events(alloc, engine, Kind::Collect, count),
        Line::Flush(count) => make_events(alloc, engine, Kind::Flush, count),
    }
}

/// Runs the lines, once the room of all their entries is taken. Each is let go once it is run, and the buffer in which
/// they stand shrinks as they go.
pub(crate) fn run_all<D: Disk, F: Fn(&[u64]) -> usize + Drop, K: Sink>(
    alloc: Global,
    lines: Vec<Line>,
    engine: &mut Engine<D, F>,
    output: &mut Output,
    sink: &mut K,
) -> Result<(), Stop>
    requires clients { AreLines lines.items }
    requires room { length (requests_asked lines.items) ≤ room engine.old }
    requires running { (serving engine.old).stopped ≡ None }
    requires chooser { IsChooser F.Fn (chooser engine.old) }
    ensures answers { AnswersPart (requests_asked lines.items) (events_asked lines.items)
        (steps_asked lines.items) (serving engine.old) (serving engine.new) (why result) }
    // The events come in the order of the lines.
    ensures course { TellsLines lines.items (serving engine.old) (serving engine.new) (why result) }
    ensures stops { OnStop (why result)
        (StopsLines lines.items (serving engine.old) (serving engine.new) (why result)) }
    ensures engine { EngineGoesOn engine.old engine.new (why result) }
    ensures sink { SinkGoesOn K.written K.count sink.old sink.new
        (gathered output.old) (gathered output.new)
        (serving engine.old).journal (serving engine.new).journal (why result) }
    ensures saved { KeepsSaved K.Sink sink.old sink.new (gathered output.old)
        (serving engine.old).journal (serving engine.new).journal (why result) }
{
    engine.keep_their_images();
    let mut left = VecDeque::from(lines);
    while let Some(line) = next_line(&mut left) {
        let ran = run_line(alloc, line, engine, output, sink);
        match ran {
            Ok(()) => {}
            Err(stop) => return Err(stop),
        }
    }
    Ok(())
}
