//! A whole run of a script by workers with passes, and its text.

ghost use Rattle.std.specs.Prelude.{◌≡◌, ◌⊎◌, ℕ, List, [], None, option_map};
ghost use Rattle.pm_place.specs.Choosers.{IsChooser};
ghost use Rattle.pm_model.specs.Text.{text};
ghost use Rattle.pm_engine.specs.Shown.{KeepsStart, chooser, disk_in, past_of, serving, tally_in};
ghost use Rattle.pm_engine.specs.Events.Causes.{CountsDisk, OnMemory, stop_of, why};
ghost use Rattle.pm_engine.specs.Events.Running.{IsFresh, RunsOnDisk};
ghost use Rattle.pm_serial.specs.Stepping.{IsOfSink};
ghost use Rattle.pm_serial.specs.Together.{AnswersClients, AnswersInSomeOrder};
ghost use Rattle.pm_serial.specs.Writing.{WroteRun, tail_of};
ghost use Rattle.pm_callers.specs.Faults.{IsOfEngine, stop_met};
ghost use Rattle.pm_callers.specs.Runs.{IsLeft};

use crate::calls::{images_since_now, run_calls};
use pm_disk::Disk;
use pm_engine::Engine;
use pm_engine::events::Stop;
use pm_io::Sink;
use pm_script::Script;
use pm_seats::SeatFault;
use pm_serial::end_workers;
use pm_serial::output::Output;
use pm_turns::Gate;
use pm_types::EngineFault;
use std::alloc::Global;
use std::sync::Wait;
use std::thread::Threads;

// The fault of the engine that is told, if one is.
fn of_engine(fault: Option<SeatFault>) -> Option<EngineFault>
    requires { IsOfEngine fault }
    ensures { option_map stop_of result ≡ stop_met fault }
{
    match fault {
        None => None,
        Some(SeatFault::Engine(fault)) => Some(fault),
        Some(SeatFault::Spent { .. }) => unreachable!(),
    }
}

/// Makes what a script asks of an engine that was just opened, as `run_calls` does. Then it writes a line for each reply, in
/// the order in which the engine answered, and the end line and a line for each watch. The buffer is taken first.
///
/// It waits for the threads; all that it promises holds once it returns. Where no thread can be made, the workers go one
/// after another.
///
/// # Errors
///
/// `Device`: a worker met a failed disk. Else `Memory`: memory ran out for a worker, which ended; the others have made all
/// they had. The journal has what was answered, and every reply of it is written, unless the sink fails. `Writing`: the
/// sink failed where else all was done.
pub fn run_passes<
    D: Disk + Drop + Send,
    F: Fn(&[u64]) -> usize + Drop + Send,
    G: Gate + Sync,
    K: Sink,
    R: Threads + Wait + Sync,
>(
    rt: &R,
    alloc: Global,
    script: Script,
    engine: Engine<D, F>,
    sink: &mut K,
    gate: &G,
) -> (Result<(), Stop>, Engine<D, F>)
    requires fresh { IsFresh (serving engine) }
    requires chooser { IsChooser F.Fn (chooser engine) }
    ensures answers { AnswersClients script (serving result.1) (why result.0) }
    // What was made is what the lines ask in some order, one line behind another.
    ensures order { ∥ AnswersInSomeOrder script (serving result.1) (why result.0) ∥₁ }
    // Where memory ran out no event was made, or something is left that the script asks.
    ensures left { OnMemory (why result.0) (((serving result.1).events ≡ 0) ⊎ IsLeft script (serving result.1)) }
    // What a crash at any moment leaves, and what it leaves at the end.
    ensures disk { ∥ RunsOnDisk engine result.1 (why result.0) ∥₁ }
    ensures sink { WroteRun K.written K.finished K.count sink.old sink.new
        (text (serving result.1).journal) (tail_of (tally_in (serving result.1))) (why result.0) }
    // The disk's count rose since the run began where a worker met a failed disk, and else stands still.
    ensures cause { CountsDisk (why result.0) (D.count (disk_in engine)) (D.count (disk_in result.1)) }
    ensures past { (D.made (disk_in result.1)).past ≡ (D.made (disk_in engine)).past }
    // No entry was let go.
    ensures whole { past_of result.1 ≡ [] }
    ensures start { ∥ KeepsStart engine result.1 ∥₁ }
    // Where the sink failed all was answered, as where the run is done: it is called behind the last event alone.
    ensures last { IsOfSink (why result.0) → AnswersClients script (serving result.1) None }
{
    engine.keep_their_images();
    images_since_now(&engine);
    let mut output = match Output::new(alloc) {
        Ok(output) => output,
        Err(refused) => return (Err(Stop::Memory(refused)), engine),
    };
    let (fault, engine) = run_calls(rt, alloc, engine, script, gate);
    engine.keep_their_images();
    let ran = end_workers(of_engine(fault), &engine, &mut output, sink);
    (ran, engine)
}
