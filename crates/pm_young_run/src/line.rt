//! The lines of a script, one after another, through a buffer that has its room.

ghost use Rattle.std.specs.Prelude.{◌≡◌, ◌≤◌, [], ◌++◌, false, length, None, OnOk};
ghost use Rattle.std.specs.Option.{option_to_list};
ghost use Rattle.pm_place.specs.Choosers.{IsChooser};
ghost use Rattle.pm_script.specs.Script.{first_of};
ghost use Rattle.pm_script.specs.Words.{IsFirst};
ghost use Rattle.pm_script.specs.Young.{AreYoungLines, IsUnwatched, asks_watch, young_first_of};
ghost use Rattle.pm_script.specs.Parted.Asked.{events_asked, request_of, requests_asked, steps_asked, steps_of};
ghost use Rattle.pm_script.specs.declared.line.YoungLine.TheVariants.{Base};
ghost use Rattle.pm_engine.specs.Events.Causes.{OnStop, why};
ghost use Rattle.pm_engine.specs.Events.Events.{AnswersPart};
ghost use Rattle.pm_serial.specs.Acknowledged.{KeepsSaved};
ghost use Rattle.pm_serial.specs.Ordered.{TellsLine, TellsLines};
ghost use Rattle.pm_serial.specs.Output.Gathered.{gathered};
ghost use Rattle.pm_serial.specs.Stepping.{SinkGoesOn, StopsLine, StopsLines, events_of};
ghost use Rattle.pm_young.specs.Seen.{chooser, halt_in, room, serving};
ghost use Rattle.pm_young_run.specs.Asked.{as_line, as_lines};
ghost use Rattle.pm_young_run.specs.Entered.{Enters, EntersAll};
ghost use Rattle.pm_young_run.specs.Stepping.{YoungGoesOnRun};

use crate::event::{answer_client, make_events, make_sweep};
use crate::kind::Kind;
use pm_disk::Disk;
use pm_engine::events::Stop;
use pm_io::Sink;
use pm_script::{Line, YoungLine};
use pm_serial::output::Output;
use pm_young::YoungEngine;
use std::alloc::Global;
use std::collections::VecDeque;

// Takes the next of the lines that are left. Where they fill no more than half of their buffer, it gives back the rest.
// So the buffer holds twice the lines that are left at most, and all in all no more lines are moved than there are.
fn next_line(left: &mut VecDeque<YoungLine>) -> Option<YoungLine>
    ensures next { left.old.items ≡ option_to_list result ++ left.new.items }
    ensures end { result ≡ None → left.old.items ≡ [] }
{
    let line = left.pop_front();
    if left.len() <= left.capacity() / 2 {
        left.shrink_to_fit();
    }
    line
}

// Runs a line of any script, for whose entry there is room.
fn run_base<D: Disk, F: Fn(&[u64]) -> usize + Drop, K: Sink>(
    alloc: Global,
    line: Line,
    engine: &mut YoungEngine<D, F>,
    output: &mut Output,
    sink: &mut K,
) -> Result<(), Stop>
    requires client { IsFirst (first_of line) }
    requires no_watch { asks_watch line ≡ false }
    requires room { length (request_of line) ≤ room engine.old }
    requires running { halt_in engine.old ≡ None }
    requires chooser { IsChooser F.Fn (chooser engine.old) }
    ensures answers { AnswersPart (request_of line) (events_of line) (steps_of line)
        (serving engine.old) (serving engine.new) (why result) }
    ensures course { TellsLine line (serving engine.old) (serving engine.new) (why result) }
    ensures stops { OnStop (why result)
        (StopsLine line (serving engine.old) (serving engine.new) (why result)) }
    ensures engine { YoungGoesOnRun engine.old engine.new (why result) }
    ensures enters { OnOk result (Enters (Base line) engine.old engine.new) }
    ensures sink { SinkGoesOn K.written K.count sink.old sink.new
        (gathered output.old) (gathered output.new)
        (serving engine.old).journal (serving engine.new).journal (why result) }
    ensures saved { KeepsSaved K.Sink sink.old sink.new (gathered output.old)
        (serving engine.old).journal (serving engine.new).journal (why result) }
{
    match line {
        Line::Client { client, cmd } => answer_client(alloc, engine, client, cmd, output, sink),
        Line::Gc(count) => make_events(alloc, engine, Kind::Collect, count),
        Line::Flush(count) => make_events(alloc, engine, Kind::Flush, count),
    }
}

// Runs a line, for whose entry there is room.
fn run_line<D: Disk, F: Fn(&[u64]) -> usize + Drop, K: Sink>(
    alloc: Global,
    line: YoungLine,
    engine: &mut YoungEngine<D, F>,
    output: &mut Output,
    sink: &mut K,
) -> Result<(), Stop>
    requires client { IsFirst (young_first_of line) }
    requires no_watch { IsUnwatched line }
    requires room { length (request_of (as_line line)) ≤ room engine.old }
    requires running { halt_in engine.old ≡ None }
    requires chooser { IsChooser F.Fn (chooser engine.old) }
    ensures answers { AnswersPart (request_of (as_line line)) (events_of (as_line line)) (steps_of (as_line line))
        (serving engine.old) (serving engine.new) (why result) }
    ensures course { TellsLine (as_line line) (serving engine.old) (serving engine.new) (why result) }
    ensures stops { OnStop (why result)
        (StopsLine (as_line line) (serving engine.old) (serving engine.new) (why result)) }
    ensures engine { YoungGoesOnRun engine.old engine.new (why result) }
    ensures enters { OnOk result (Enters line engine.old engine.new) }
    ensures sink { SinkGoesOn K.written K.count sink.old sink.new
        (gathered output.old) (gathered output.new)
        (serving engine.old).journal (serving engine.new).journal (why result) }
    ensures saved { KeepsSaved K.Sink sink.old sink.new (gathered output.old)
        (serving engine.old).journal (serving engine.new).journal (why result) }
{
    match line {
        YoungLine::Base(line) => run_base(alloc, line, engine, output, sink),
        YoungLine::Young => make_sweep(alloc, engine),
    }
}

/// Runs the lines, once the room of all their entries is taken. Each is let go once it is run, and the buffer in which
/// they stand shrinks as they go.
pub(crate) fn run_all<D: Disk, F: Fn(&[u64]) -> usize + Drop, K: Sink>(
    alloc: Global,
    lines: Vec<YoungLine>,
    engine: &mut YoungEngine<D, F>,
    output: &mut Output,
    sink: &mut K,
) -> Result<(), Stop>
    requires clients { AreYoungLines lines.items }
    requires room { length (requests_asked (as_lines lines.items)) ≤ room engine.old }
    requires running { halt_in engine.old ≡ None }
    requires chooser { IsChooser F.Fn (chooser engine.old) }
    ensures answers { AnswersPart (requests_asked (as_lines lines.items)) (events_asked (as_lines lines.items))
        (steps_asked (as_lines lines.items)) (serving engine.old) (serving engine.new) (why result) }
    // The events come in the order of the lines.
    ensures course { TellsLines (as_lines lines.items) (serving engine.old) (serving engine.new) (why result) }
    ensures stops { OnStop (why result)
        (StopsLines (as_lines lines.items) (serving engine.old) (serving engine.new) (why result)) }
    ensures engine { YoungGoesOnRun engine.old engine.new (why result) }
    ensures enters { OnOk result (EntersAll lines.items engine.old engine.new) }
    ensures sink { SinkGoesOn K.written K.count sink.old sink.new
        (gathered output.old) (gathered output.new)
        (serving engine.old).journal (serving engine.new).journal (why result) }
    ensures saved { KeepsSaved K.Sink sink.old sink.new (gathered output.old)
        (serving engine.old).journal (serving engine.new).journal (why result) }
{
    engine.keep_their_images();
    let mut left = VecDeque::from(lines);
    while let Some(line) = next_line(&mut left) {
        let ran = run_line(alloc, line, engine, output, sink);
        match ran {
            Ok(()) => {}
            Err(stop) => return Err(stop),
        }
    }
    Ok(())
}
