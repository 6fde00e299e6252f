//! The lines of a script, one after another.

ghost use Rattle.std.specs.Prelude.{◌≡◌, ◌≤◌, [], length, OnOk, IfOk};
ghost use Rattle.pm_place.specs.Choosers.{IsChooser};
ghost use Rattle.pm_script.specs.Script.{AreLines};
ghost use Rattle.pm_serial.specs.Output.Gathered.{gathered};
ghost use Rattle.pm_engine.specs.Shown.{KeepsEntries, KeepsStart, chooser, disk_in, room, serving};
ghost use Rattle.pm_script.specs.Parted.Asked.{requests_asked};
ghost use Rattle.pm_engine.specs.Events.Causes.{why};
ghost use Rattle.pm_engine.specs.Events.Running.{IsFresh};
ghost use Rattle.pm_serial.specs.Whole.{RunsLines, WroteReplies};
ghost use Rattle.pm_serial.specs.Writing.{tail_of, text_behind};

use crate::behind::Behind;
use crate::ending::end;
use crate::line::run_all;
use crate::output::Output;
use pm_disk::Disk;
use pm_engine::events::{Engine, Stop};
use pm_io::Sink;
use pm_script::Line;
use pm_types::NoMemory;
use std::alloc::Global;

// How many entries the lines add to a journal.
fn count_entries(lines: &[Line]) -> u64
    ensures { result ≡ length (requests_asked lines.now) }
{
    let mut count = 0;
    for line in lines {
        if matches!(line, Line::Client { .. }) {
            count += 1;
        }
    }
    count
}

// Takes the buffer of the replies, and the room of all entries.
fn take_room<D: Disk, F: Drop>(
    alloc: Global,
    lines: &[Line],
    engine: &mut Engine<D, F>,
) -> Result<Output, NoMemory>
    ensures empty { IfOk result (λ output. gathered output ≡ []) }
    ensures room { OnOk result (length (requests_asked lines.now) ≤ room engine.new) }
    ensures serving { serving engine.new ≡ serving engine.old }
    ensures disk { disk_in engine.new ≡ disk_in engine.old }
    ensures start { KeepsStart engine.old engine.new }
    ensures entries { KeepsEntries engine.old engine.new }
    ensures grows { room engine.old ≤ room engine.new }
{
    let output = Output::new(alloc)?;
    engine.reserve_entries(count_entries(lines))?;
    Ok(output)
}

// Runs the lines over an engine that was just opened, with this behind the last reply.
fn run_with<D: Disk, F: Fn(&[u64]) -> usize + Drop, K: Sink>(
    alloc: Global,
    lines: Vec<Line>,
    behind: Behind,
    engine: &mut Engine<D, F>,
    sink: &mut K,
) -> Result<(), Stop>
    requires clients { AreLines lines.items }
    requires fresh { IsFresh (serving engine.old) }
    requires chooser { IsChooser F.Fn (chooser engine.old) }
    ensures { RunsLines (WroteReplies K.Sink (text_behind behind) sink.old sink.new) lines.items
        engine.old engine.new (why result) }
{
    engine.keep_their_images();
    let mut output = match take_room(alloc, lines.as_slice(), engine) {
        Ok(output) => output,
        Err(refused) => return Err(Stop::Memory(refused)),
    };
    let ran = run_all(alloc, lines, engine, &mut output, sink);
    engine.keep_their_images();
    end(ran, behind, engine, &mut output, sink)
}

/// Runs the lines in their order over an engine that was just opened. Each reply is written after its event, through a
/// buffer whose room, with that of all entries of the journal, is taken before the first event. A line is let go once it
/// is run. Behind the last reply come the end line and a line for each watch.
///
/// # Errors
///
/// The first cause that ends the run. The journal has what was answered until then, and every reply of it is written,
/// unless the sink fails.
pub fn run_lines<D: Disk, F: Fn(&[u64]) -> usize + Drop, K: Sink>(
    alloc: Global,
    lines: Vec<Line>,
    engine: &mut Engine<D, F>,
    sink: &mut K,
) -> Result<(), Stop>
    requires clients { AreLines lines.items }
    requires fresh { IsFresh (serving engine.old) }
    requires chooser { IsChooser F.Fn (chooser engine.old) }
    ensures { RunsLines (WroteReplies K.Sink tail_of sink.old sink.new) lines.items
        engine.old engine.new (why result) }
{
    run_with(alloc, lines, Behind::LastLines, engine, sink)
}

/// Runs the lines in their order over an engine that was just opened, as `run_lines` does, and puts nothing behind the
/// last reply.
///
/// # Errors
///
/// The first cause that ends the run, as `run_lines` answers it.
pub fn answer_lines<D: Disk, F: Fn(&[u64]) -> usize + Drop, K: Sink>(
    alloc: Global,
    lines: Vec<Line>,
    engine: &mut Engine<D, F>,
    sink: &mut K,
) -> Result<(), Stop>
    requires clients { AreLines lines.items }
    requires fresh { IsFresh (serving engine.old) }
    requires chooser { IsChooser F.Fn (chooser engine.old) }
    ensures { RunsLines (WroteReplies K.Sink (λ _. []) sink.old sink.new) lines.items
        engine.old engine.new (why result) }
{
    run_with(alloc, lines, Behind::Nothing, engine, sink)
}
