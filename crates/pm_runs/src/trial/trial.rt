//! A run whose replies are not kept.

ghost use Rattle.std.specs.Prelude.{◌≡◌, ◌++◌, [], ℕ, List, None, Some, length, OnOk, OnErr};
ghost use Rattle.pm_types.specs.Counts.{Rose};
ghost use Rattle.pm_place.specs.Choosers.{IsChooser};
ghost use Rattle.pm_script.specs.Script.{AreLines};
ghost use Rattle.pm_serial.specs.Output.Gathered.{gathered};
ghost use Rattle.pm_serial.specs.Output.Writing.{PutsAll, PutsPart};
ghost use Rattle.pm_engine.specs.Shown.{chooser, serving, tally_in};
ghost use Rattle.pm_engine.specs.Events.Causes.{why};
ghost use Rattle.pm_serial.specs.Running.{AnswersLines};
ghost use Rattle.pm_engine.specs.Events.Running.{IsFresh};
ghost use Rattle.pm_serial.specs.Stepping.{IsOfSink};
ghost use Rattle.pm_serial.specs.Whole.{RunsLines};
ghost use Rattle.pm_serial.specs.Writing.{tail_of};
ghost use Rattle.pm_runs.specs.Trial.Trials.{WroteDigest, shown_digest};

use crate::trial::digest_sink::DigestSink;
use crate::trial::line::digest_line;
use pm_disk::Disk;
use pm_io::{Failed, Sink};
use pm_script::Line;
use pm_serial::output::Output;
use pm_serial::{Engine, Stop, answer_lines, finish_with_last_lines};
use std::alloc::Global;

// Puts the line of a digest, and behind it the lines of what the engine came to, and finishes the sink.
fn finish_trial<D: Disk, F: Drop, K: Sink>(
    digest: &[u8; 32],
    engine: &Engine<D, F>,
    output: &mut Output,
    sink: &mut K,
) -> Result<(), Failed>
    requires { gathered output.old ≡ [] }
    ensures all { OnOk result (PutsAll (K.written sink.old) (K.written sink.new)
        (shown_digest digest.now ++ tail_of (tally_in (serving engine.now)))) }
    ensures finished { OnOk result ((bytes : List ℕ) → K.written sink.old ≡ Some bytes
        → K.finished sink.new
        ≡ length (bytes ++ (shown_digest digest.now ++ tail_of (tally_in (serving engine.now))))) }
    ensures part { OnErr result (PutsPart (K.written sink.old) (K.written sink.new)
        (shown_digest digest.now ++ tail_of (tally_in (serving engine.now)))) }
    ensures counted { OnOk result (K.count sink.new ≡ K.count sink.old) }
    ensures cause { OnErr result (Rose (K.count sink.old) (K.count sink.new)) }
{
    output.add_line(sink, digest_line(digest).as_slice())?;
    finish_with_last_lines(engine, output, sink)
}

/// Runs the lines in their order over an engine that was just opened, as `run_lines` of `pm_serial` does, but writes no
/// reply: where the run is done, a line with the SHA-256 of the replies' text in lower-case hexadecimal digits, and behind
/// it the end line and a line for each watch. The text is not kept. The room of all that is written, as of all entries of
/// the journal, is taken before the first event.
///
/// # Errors
///
/// The first cause that ends the run. The journal has what was answered until then. Where memory ran out or the disk
/// failed nothing is written; where the sink failed it has a first part of the lines, which may be none or all.
pub fn run_trial<D: Disk, F: Fn(&[u64]) -> usize + Drop, K: Sink>(
    alloc: Global,
    lines: Vec<Line>,
    engine: &mut Engine<D, F>,
    sink: &mut K,
) -> Result<(), Stop>
    requires clients { AreLines lines.items }
    requires fresh { IsFresh (serving engine.old) }
    requires chooser { IsChooser F.Fn (chooser engine.old) }
    ensures runs { RunsLines (WroteDigest K.Sink sink.old sink.new) lines.items engine.old engine.new (why result) }
    // Where the sink failed all was answered, as where the run is done: it is called behind the last event alone.
    ensures last { IsOfSink (why result) → AnswersLines lines.items (serving engine.new) None }
{
    engine.keep_their_images();
    let mut output = match Output::new(alloc) {
        Ok(output) => output,
        Err(refused) => return Err(Stop::Memory(refused)),
    };
    let mut replies = DigestSink::new();
    match answer_lines(alloc, lines, engine, &mut replies) {
        Ok(()) => match finish_trial(&replies.digest(), engine, &mut output, sink) {
            Ok(()) => Ok(()),
            Err(_) => Err(Stop::Writing),
        },
        Err(stop) => Err(stop),
    }
}
