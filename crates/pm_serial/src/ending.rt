//! The end of a run: the lines behind the last reply, and what is gathered goes to the sink.

ghost use Rattle.std.specs.Prelude.{◌≡◌, ◌⊎◌, ◌++◌, OnOk, OnErr};
ghost use Rattle.pm_types.specs.Counts.{Rose};
ghost use Rattle.pm_serial.specs.Output.Gathered.{gathered};
ghost use Rattle.pm_serial.specs.Output.Writing.{FinishesAll, GoesOn, PutsAll, PutsPart};
ghost use Rattle.pm_engine.specs.Shown.{serving, tally_in};
ghost use Rattle.pm_engine.specs.Events.Causes.{why};
ghost use Rattle.pm_serial.specs.Stepping.{EndsSink};
ghost use Rattle.pm_serial.specs.Writing.{tail_of, text_behind};

use crate::behind::Behind;
use crate::output::{Output, add_tail};
use pm_disk::Disk;
use pm_engine::events::{Engine, Stop};
use pm_io::{Failed, Sink};

// Puts what is gathered, as far as the sink takes it, and finishes it: the run ends for another cause.
fn put_what_goes<K: Sink>(output: &mut Output, sink: &mut K)
    ensures whole { ¬ (Rose (K.count sink.old) (K.count sink.new))
        → PutsAll (K.written sink.old) (K.written sink.new) (gathered output.old) }
    ensures finished { ¬ (Rose (K.count sink.old) (K.count sink.new))
        → FinishesAll (K.written sink.old) (K.finished sink.new) (gathered output.old) }
    ensures part { PutsPart (K.written sink.old) (K.written sink.new) (gathered output.old) }
    ensures kept { (K.finished sink.new ≡ K.finished sink.old)
        ⊎ FinishesAll (K.written sink.old) (K.finished sink.new) (gathered output.old) }
{
    match output.finish(sink) {
        Ok(()) => {}
        Err(_) => {}
    }
}

// Gathers the lines of what the engine came to behind the last reply.
fn add_last_lines<D: Disk, F: Drop, K: Sink>(
    engine: &Engine<D, F>,
    output: &mut Output,
    sink: &mut K,
) -> Result<(), Failed>
    ensures adds { OnOk result (GoesOn (tail_of (tally_in (serving engine.now)))
        (K.written sink.old) (K.written sink.new) (gathered output.old) (gathered output.new)) }
    ensures part { OnErr result (PutsPart (K.written sink.old) (K.written sink.new)
        (gathered output.old ++ tail_of (tally_in (serving engine.now)))) }
    ensures counted { OnOk result (K.count sink.new ≡ K.count sink.old) }
    ensures cause { OnErr result (Rose (K.count sink.old) (K.count sink.new)) }
{
    let steps = engine.steps();
    let completed = engine.completed();
    let standing = engine.standing();
    let lines = engine.lines();
    add_tail(output, sink, steps, completed, standing, lines.as_slice())
}

/// Puts what is gathered, and behind it the end line and a line for each watch of what the engine came to, and finishes
/// the sink.
///
/// # Errors
///
/// The sink failed: it has a first part of what was gathered and of these lines, which may be none or all.
pub fn finish_with_last_lines<D: Disk, F: Drop, K: Sink>(
    engine: &Engine<D, F>,
    output: &mut Output,
    sink: &mut K,
) -> Result<(), Failed>
    ensures all { OnOk result (PutsAll (K.written sink.old) (K.written sink.new)
        (gathered output.old ++ tail_of (tally_in (serving engine.now)))) }
    ensures finished { OnOk result (FinishesAll (K.written sink.old) (K.finished sink.new)
        (gathered output.old ++ tail_of (tally_in (serving engine.now)))) }
    ensures part { OnErr result (PutsPart (K.written sink.old) (K.written sink.new)
        (gathered output.old ++ tail_of (tally_in (serving engine.now)))) }
    ensures counted { OnOk result (K.count sink.new ≡ K.count sink.old) }
    ensures cause { OnErr result (Rose (K.count sink.old) (K.count sink.new)) }
{
    add_last_lines(engine, output, sink)?;
    output.finish(sink)
}

// Puts what is gathered and what comes behind the last reply, and finishes the sink.
fn finish_run<D: Disk, F: Drop, K: Sink>(
    behind: Behind,
    engine: &Engine<D, F>,
    output: &mut Output,
    sink: &mut K,
) -> Result<(), Failed>
    ensures all { OnOk result (PutsAll (K.written sink.old) (K.written sink.new)
        (gathered output.old ++ text_behind behind (tally_in (serving engine.now)))) }
    ensures finished { OnOk result (FinishesAll (K.written sink.old) (K.finished sink.new)
        (gathered output.old ++ text_behind behind (tally_in (serving engine.now)))) }
    ensures part { OnErr result (PutsPart (K.written sink.old) (K.written sink.new)
        (gathered output.old ++ text_behind behind (tally_in (serving engine.now)))) }
    ensures counted { OnOk result (K.count sink.new ≡ K.count sink.old) }
    ensures cause { OnErr result (Rose (K.count sink.old) (K.count sink.new)) }
{
    match behind {
        Behind::Nothing => output.finish(sink),
        Behind::LastLines => finish_with_last_lines(engine, output, sink),
    }
}

/// Ends a run: what is gathered is put, where the run came to its end with what comes behind the last reply, and all is
/// finished. Where the sink had failed it is not called.
pub(crate) fn end<D: Disk, F: Drop, K: Sink>(
    ran: Result<(), Stop>,
    behind: Behind,
    engine: &Engine<D, F>,
    output: &mut Output,
    sink: &mut K,
) -> Result<(), Stop>
    ensures { EndsSink K.written K.finished K.count sink.old sink.new (gathered output.old)
        (text_behind behind (tally_in (serving engine.now))) (why ran) (why result) }
{
    match ran {
        Ok(()) => match finish_run(behind, engine, output, sink) {
            Ok(()) => Ok(()),
            Err(_) => Err(Stop::Writing),
        },
        Err(Stop::Writing) => Err(Stop::Writing),
        Err(stop) => {
            put_what_goes(output, sink);
            Err(stop)
        }
    }
}
