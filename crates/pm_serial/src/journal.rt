//! Replies that are written at the end: the text of a whole journal, and what comes behind it.

ghost use Rattle.std.specs.Prelude.{◌≡◌, ◌⊎◌, [], None, Some, OnErr, option_map};
ghost use Rattle.std.specs.List.{AllByRecursion};
ghost use Rattle.pm_model.specs.Text.{text};
ghost use Rattle.pm_serial.specs.Output.Gathered.{gathered};
ghost use Rattle.pm_engine.specs.Shown.{past_of, serving, tally_in};
ghost use Rattle.pm_engine.specs.declared.events.stop.Stop.TheVariants.{Writing};
ghost use Rattle.pm_engine.specs.Events.Causes.{stop_of, why};
ghost use Rattle.pm_engine.specs.Events.Events.{FitsLine};
ghost use Rattle.pm_serial.specs.Stepping.{IsGathered, SinkGoesOn};
ghost use Rattle.pm_serial.specs.Writing.{WroteRun, tail_of};

use crate::behind::Behind;
use crate::ending::end;
use crate::output::Output;
use pm_disk::Disk;
use pm_engine::events::{Engine, Stop, stop_after};
use pm_io::Sink;
use pm_types::{EngineFault, Entry};

// Gathers the line of each entry of a journal, in order, through a buffer in which nothing is gathered yet.
fn put_journal<K: Sink>(output: &mut Output, sink: &mut K, journal: &[Entry]) -> Result<(), Stop>
    requires told { AllByRecursion FitsLine journal.now }
    ensures sink { SinkGoesOn K.written K.count sink.old sink.new
        (gathered output.old) (gathered output.new) [] journal.now (why result) }
    ensures only { OnErr result (why result ≡ Some Writing) }
{
    for entry in journal {
        match output.add_reply(sink, entry) {
            Ok(()) => {}
            Err(_) => return Err(Stop::Writing),
        }
    }
    Ok(())
}

// Writes what an engine answered in a run that stopped so, if it did: a line for each entry of the journal, and, where the
// run came to its end, the end line and a line for each watch.
fn write_journal<D: Disk, F: Drop, K: Sink>(
    ran: Result<(), Stop>,
    engine: &Engine<D, F>,
    output: &mut Output,
    sink: &mut K,
) -> Result<(), Stop>
    requires told { AllByRecursion FitsLine (serving engine.now).journal }
    requires past { past_of engine.now ≡ [] }
    requires elsewhere { IsGathered (why ran) }
    requires empty { gathered output.old ≡ [] }
    ensures first { (why result ≡ why ran) ⊎ ((why ran ≡ None) × (why result ≡ Some Writing)) }
    ensures wrote { WroteRun K.written K.finished K.count sink.old sink.new
        (text (serving engine.now).journal) (tail_of (tally_in (serving engine.now))) (why result) }
{
    match put_journal(output, sink, engine.journal()) {
        Ok(()) => end(ran, Behind::LastLines, engine, output, sink),
        Err(_) => match ran {
            Ok(()) => Err(Stop::Writing),
            Err(first) => Err(first),
        },
    }
}

// Why a run stops where the engine answered this fault.
fn stopped_for(fault: Option<EngineFault>) -> Result<(), Stop>
    ensures { why result ≡ option_map stop_of fault }
{
    match fault {
        None => Ok(()),
        Some(fault) => {
            let answer: Result<(), EngineFault> = Err(fault);
            stop_after(answer)
        }
    }
}

/// Ends a run whose replies are all written at its end, and which stopped for this fault of its engine, if for one. A line
/// is written for each entry of the journal, and, where the run came to its end, the end line and a line for each watch.
/// Nothing is gathered in the buffer before, and the engine let no entry go.
///
/// # Errors
///
/// Why the run stopped, if it did: the sink has the replies' text as far as it took it. Else `Writing`: the sink failed,
/// and has a first part of the replies' text and of the lines behind it.
pub fn end_workers<D: Disk, F: Drop, K: Sink>(
    fault: Option<EngineFault>,
    engine: &Engine<D, F>,
    output: &mut Output,
    sink: &mut K,
) -> Result<(), Stop>
    requires told { AllByRecursion FitsLine (serving engine.now).journal }
    requires past { past_of engine.now ≡ [] }
    requires empty { gathered output.old ≡ [] }
    ensures first { (why result ≡ option_map stop_of fault)
        ⊎ ((option_map stop_of fault ≡ None) × (why result ≡ Some Writing)) }
    ensures wrote { WroteRun K.written K.finished K.count sink.old sink.new
        (text (serving engine.now).journal) (tail_of (tally_in (serving engine.now))) (why result) }
{
    write_journal(stopped_for(fault), engine, output, sink)
}
