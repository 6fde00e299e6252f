//! What a run of lines writes.
ghost use Rattle.std.specs.Prelude.{None};
ghost use Rattle.pm_script.specs.Script.{AreLines};
ghost use Rattle.pm_place.specs.Choosers.{IsChooser};
ghost use Rattle.pm_engine.specs.Shown.{chooser, serving};
ghost use Rattle.pm_engine.specs.Events.Causes.{why};
ghost use Rattle.pm_serial.specs.Running.{AnswersLines};
ghost use Rattle.pm_engine.specs.Events.Running.{IsFresh};
ghost use Rattle.pm_serial.specs.Stepping.{IsOfSink};
ghost use Rattle.pm_serial.specs.Whole.{RunsLines};
ghost use Rattle.pm_runs.specs.Wrote.{WritesLast, WroteLines};

use crate::ends::{Engine, Stop, run_lines};
use crate::trial::run_trial;
use pm_disk::Disk;
use pm_io::Sink;
use pm_script::Line;
use std::alloc::Global;

/// What a run of lines writes.
#[derive(Clone, Copy, Debug, PartialEq, Eq)]
pub enum Writes {
    /// A line for each reply, and behind them those of what the engine came to.
    Replies,
    /// A line with the SHA-256 of the replies' text, and behind it those of what the engine came to.
    Digest,
}

/// Runs the lines over an engine that was just opened, and writes what is asked.
pub(crate) fn write_lines<D: Disk, F: Fn(&[u64]) -> usize + Drop, K: Sink>(
    alloc: Global,
    writes: Writes,
    lines: Vec<Line>,
    engine: &mut Engine<D, F>,
    sink: &mut K,
) -> Result<(), Stop>
    requires clients { AreLines lines.items }
    requires fresh { IsFresh (serving engine.old) }
    requires chooser { IsChooser F.Fn (chooser engine.old) }
    ensures runs { RunsLines (WroteLines K.Sink writes sink.old sink.new) lines.items
        engine.old engine.new (why result) }
    ensures last { WritesLast writes → IsOfSink (why result)
        → AnswersLines lines.items (serving engine.new) None }
{
    match writes {
        Writes::Replies => run_lines(alloc, lines, engine, sink),
        Writes::Digest => run_trial(alloc, lines, engine, sink),
    }
}
