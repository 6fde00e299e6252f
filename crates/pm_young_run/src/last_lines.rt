//! The end of a run: the lines behind the last reply, and what is gathered goes to the sink.

ghost use Rattle.std.specs.Prelude.{◌≡◌, ◌⊎◌, [], ◌++◌, OnOk, OnErr};
ghost use Rattle.pm_types.specs.Counts.{Rose};
ghost use Rattle.pm_model.specs.Text.{tail};
ghost use Rattle.pm_serial.specs.Output.Gathered.{gathered};
ghost use Rattle.pm_serial.specs.Output.Writing.{FinishesAll, GoesOn, PutsAll, PutsPart};
ghost use Rattle.pm_serial.specs.Stepping.{EndsSink};
ghost use Rattle.pm_engine.specs.Events.Causes.{why};
ghost use Rattle.pm_young.specs.Seen.{young_tally_in};
ghost use Rattle.pm_young_run.specs.Writing.{young_line, young_tail_of};

use pm_disk::Disk;
use pm_engine::events::Stop;
use pm_io::{Failed, Sink};
use pm_serial::output::line::{Line, append, append_number, line_with};
use pm_serial::output::{Output, add_tail};
use pm_young::YoungEngine;

// The line of the nursery: two words, and two numbers of 20 digits at most.
fn young_line(young: u64, entered: u64) -> Line
    ensures { result.items ≡ young_line young entered }
{
    let mut line = line_with(b"young ");
    append_number(&mut line, young);
    append(&mut line, b" ");
    append_number(&mut line, entered);
    append(&mut line, b"\n");
    line
}

// Gathers the end line, and the line of the nursery behind it.
fn add_both_lines<K: Sink>(
    output: &mut Output,
    sink: &mut K,
    steps: u64,
    completed: u64,
    standing: u64,
    young: u64,
    entered: u64,
) -> Result<(), Failed>
    ensures adds { OnOk result (GoesOn (tail steps completed standing [] ++ young_line young entered)
        (K.written sink.old) (K.written sink.new) (gathered output.old) (gathered output.new)) }
    ensures part { OnErr result (PutsPart (K.written sink.old) (K.written sink.new)
        (gathered output.old ++ (tail steps completed standing [] ++ young_line young entered))) }
    ensures counted { OnOk result (K.count sink.new ≡ K.count sink.old) }
    ensures cause { OnErr result (Rose (K.count sink.old) (K.count sink.new)) }
{
    add_tail(output, sink, steps, completed, standing, &[])?;
    output.add_line(sink, young_line(young, entered).as_slice())
}

// Gathers the lines of what the engine came to behind the last reply.
fn add_last_lines<D: Disk, F: Drop, K: Sink>(
    engine: &YoungEngine<D, F>,
    output: &mut Output,
    sink: &mut K,
) -> Result<(), Failed>
    ensures adds { OnOk result (GoesOn (young_tail_of (young_tally_in engine.now))
        (K.written sink.old) (K.written sink.new) (gathered output.old) (gathered output.new)) }
    ensures part { OnErr result (PutsPart (K.written sink.old) (K.written sink.new)
        (gathered output.old ++ young_tail_of (young_tally_in engine.now))) }
    ensures counted { OnOk result (K.count sink.new ≡ K.count sink.old) }
    ensures cause { OnErr result (Rose (K.count sink.old) (K.count sink.new)) }
{
    let steps = engine.steps();
    let completed = engine.completed();
    let standing = engine.standing();
    let young = engine.young();
    let ids = engine.entered();
    let entered = ids.len() as u64;
    add_both_lines(output, sink, steps, completed, standing, young, entered)
}

// Puts what is gathered and the last lines behind it, and finishes the sink.
fn finish_run<D: Disk, F: Drop, K: Sink>(
    engine: &YoungEngine<D, F>,
    output: &mut Output,
    sink: &mut K,
) -> Result<(), Failed>
    ensures all { OnOk result (PutsAll (K.written sink.old) (K.written sink.new)
        (gathered output.old ++ young_tail_of (young_tally_in engine.now))) }
    ensures finished { OnOk result (FinishesAll (K.written sink.old) (K.finished sink.new)
        (gathered output.old ++ young_tail_of (young_tally_in engine.now))) }
    ensures part { OnErr result (PutsPart (K.written sink.old) (K.written sink.new)
        (gathered output.old ++ young_tail_of (young_tally_in engine.now))) }
    ensures counted { OnOk result (K.count sink.new ≡ K.count sink.old) }
    ensures cause { OnErr result (Rose (K.count sink.old) (K.count sink.new)) }
{
    add_last_lines(engine, output, sink)?;
    output.finish(sink)
}

// Puts what is gathered, as far as the sink takes it, and finishes it: the run ends for another cause.
fn put_what_goes<K: Sink>(output: &mut Output, sink: &mut K)
    ensures whole { ¬ (Rose (K.count sink.old) (K.count sink.new))
        → PutsAll (K.written sink.old) (K.written sink.new) (gathered output.old) }
    ensures finished { ¬ (Rose (K.count sink.old) (K.count sink.new))
        → FinishesAll (K.written sink.old) (K.finished sink.new) (gathered output.old) }
    ensures part { PutsPart (K.written sink.old) (K.written sink.new) (gathered output.old) }
    ensures kept { (K.finished sink.new ≡ K.finished sink.old)
        ⊎ FinishesAll (K.written sink.old) (K.finished sink.new) (gathered output.old) }
{
    match output.finish(sink) {
        Ok(()) => {}
        Err(_) => {}
    }
}

/// Ends a run: what is gathered is put, where the run came to its end with the end line and the line of the nursery
/// behind it, and all is finished. Where the sink had failed it is not called.
pub(crate) fn end<D: Disk, F: Drop, K: Sink>(
    ran: Result<(), Stop>,
    engine: &YoungEngine<D, F>,
    output: &mut Output,
    sink: &mut K,
) -> Result<(), Stop>
    ensures { EndsSink K.written K.finished K.count sink.old sink.new (gathered output.old)
        (young_tail_of (young_tally_in engine.now)) (why ran) (why result) }
{
    match ran {
        Ok(()) => match finish_run(engine, output, sink) {
            Ok(()) => Ok(()),
            Err(_) => Err(Stop::Writing),
        },
        Err(Stop::Writing) => Err(Stop::Writing),
        Err(stop) => {
            put_what_goes(output, sink);
            Err(stop)
        }
    }
}
