//! The lines of a script over an engine with a nursery, from its opening to the last line.

ghost use Rattle.std.specs.Prelude.{◌≡◌, ◌≤◌, [], length, OnOk, IfOk};
ghost use Rattle.pm_place.specs.Choosers.{IsChooser};
ghost use Rattle.pm_script.specs.Young.{AreYoungLines};
ghost use Rattle.pm_script.specs.Parted.Asked.{request_of, requests_asked};
ghost use Rattle.pm_engine.specs.Events.Causes.{why};
ghost use Rattle.pm_serial.specs.Output.Gathered.{gathered};
ghost use Rattle.pm_young.specs.Seen.{KeepsStart, KeepsYoung, chooser, disk_in, room, serving};
ghost use Rattle.pm_young_run.specs.Asked.{as_line, as_lines};
ghost use Rattle.pm_young_run.specs.Running.{IsFreshYoung, RunsYoungLines};

use crate::last_lines::end;
use crate::line::run_all;
use pm_disk::Disk;
use pm_engine::events::Stop;
use pm_io::Sink;
use pm_script::{Line, YoungLine};
use pm_serial::output::Output;
use pm_types::NoMemory;
use pm_young::YoungEngine;
use std::alloc::Global;

// How many entries a line adds to a journal.
fn entries_of(line: &YoungLine) -> u64
    ensures count { result ≡ length (request_of (as_line line.now)) }
    ensures one { result ≤ 1 }
{
    match line {
        YoungLine::Base(Line::Client { .. }) => 1,
        YoungLine::Base(Line::Gc(_)) => 0,
        YoungLine::Base(Line::Flush(_)) => 0,
        YoungLine::Young => 0,
    }
}

// How many entries the lines add to a journal.
fn count_entries(lines: &[YoungLine]) -> u64
    ensures { result ≡ length (requests_asked (as_lines lines.now)) }
{
    let mut count = 0;
    for line in lines {
        count += entries_of(line);
    }
    count
}

// Takes the buffer of the replies, and the room of all entries.
fn take_room<D: Disk, F: Drop>(
    alloc: Global,
    lines: &[YoungLine],
    engine: &mut YoungEngine<D, F>,
) -> Result<Output, NoMemory>
    ensures empty { IfOk result (λ output. gathered output ≡ []) }
    ensures room { OnOk result (length (requests_asked (as_lines lines.now)) ≤ room engine.new) }
    ensures serving { serving engine.new ≡ serving engine.old }
    ensures young { KeepsYoung engine.old engine.new }
    ensures disk { disk_in engine.new ≡ disk_in engine.old }
    ensures start { KeepsStart engine.old engine.new }
    ensures grows { room engine.old ≤ room engine.new }
{
    let output = Output::new(alloc)?;
    engine.reserve_entries(count_entries(lines))?;
    Ok(output)
}

/// Runs the lines in their order over an engine that was just opened. Each reply is written after its event, through a
/// buffer whose room, with that of all entries of the journal, is taken before the first event; one that says that a
/// copy settled is written and finished before the next event. `! young` makes one sweep. A line is let go once it is
/// run. Behind the last reply come the end line and the line of the nursery: how many objects are young, and how many
/// entered a car.
///
/// # Errors
///
/// The first cause that ends the run. The journal has what was answered until then, and every reply of it is written,
/// unless the sink fails.
pub fn run_young_lines<D: Disk, F: Fn(&[u64]) -> usize + Drop, K: Sink>(
    alloc: Global,
    lines: Vec<YoungLine>,
    engine: &mut YoungEngine<D, F>,
    sink: &mut K,
) -> Result<(), Stop>
    requires clients { AreYoungLines lines.items }
    requires fresh { IsFreshYoung engine.old }
    requires chooser { IsChooser F.Fn (chooser engine.old) }
    ensures { RunsYoungLines K.Sink lines.items engine.old engine.new sink.old sink.new (why result) }
{
    engine.keep_their_images();
    let mut output = match take_room(alloc, lines.as_slice(), engine) {
        Ok(output) => output,
        Err(refused) => return Err(Stop::Memory(refused)),
    };
    let ran = run_all(alloc, lines, engine, &mut output, sink);
    engine.keep_their_images();
    end(ran, engine, &mut output, sink)
}
