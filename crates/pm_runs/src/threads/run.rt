//! A script, run by workers in threads.

ghost use Rattle.std.specs.Prelude.{◌≡◌, ◌⊎◌, ℕ, List, [], None, Some};
ghost use Rattle.pm_place.specs.Choosers.{IsChooser};
ghost use Rattle.pm_model.specs.Text.{text};
ghost use Rattle.pm_serial.specs.Output.Gathered.{gathered};
ghost use Rattle.pm_engine.specs.Shown.{KeepsStart, chooser, disk_in, past_of, serving, tally_in, unmade_in};
ghost use Rattle.pm_engine.specs.declared.events.stop.Stop.TheVariants.{Writing};
ghost use Rattle.pm_engine.specs.Events.Causes.{CountsDisk, why};
ghost use Rattle.pm_engine.specs.Events.Running.{IsFresh, RunsOnDisk};
ghost use Rattle.pm_serial.specs.Stepping.{IsOfSink};
ghost use Rattle.pm_serial.specs.Writing.{WroteRun, tail_of};
ghost use Rattle.pm_lock.specs.Kept.{stop_kept};
ghost use Rattle.pm_lock.specs.Shown.{engine_in, fault_in};
ghost use Rattle.pm_serial.specs.Together.{AnswersClients, AnswersInSomeOrder};
ghost use Rattle.pm_runs.specs.Threads.Running.{AnswersInTurns};

use pm_disk::Disk;
use pm_io::Sink;
use pm_lock::crew::{Book, run_all};
use pm_script::Script;
use pm_serial::output::Output;
use pm_serial::{Engine, Stop, end_workers};
use pm_turns::Gate;
use std::alloc::Global;
use std::sync::Wait;
use std::thread::Threads;

// A law of an engine's disk: what may be left since this moment may be left at it.
fn images_since_now<D: Disk, F: Drop>(engine: &Engine<D, F>)
    ensures { (left : List ℕ) → D.since (disk_in engine.now) (D.moment (disk_in engine.now)) left
        → D.image (disk_in engine.now) left }
{}

// Takes the engine out of a book, and writes what it answered.
fn end_book<D: Disk, F: Drop, K: Sink>(
    book: Book<D, F>,
    output: &mut Output,
    sink: &mut K,
) -> (Result<(), Stop>, Engine<D, F>)
    requires empty { gathered output.old ≡ [] }
    requires whole { past_of (engine_in book) ≡ [] }
    ensures engine { result.1 ≡ engine_in book }
    ensures first { (why result.0 ≡ stop_kept (fault_in book))
        ⊎ ((stop_kept (fault_in book) ≡ None) × (why result.0 ≡ Some Writing)) }
    ensures wrote { WroteRun K.written K.finished K.count sink.old sink.new
        (text (serving (engine_in book)).journal) (tail_of (tally_in (serving (engine_in book)))) (why result.0) }
{
    book.keep_its_script();
    let fault = book.fault();
    let engine = book.into_engine();
    let ran = end_workers(fault, &engine, output, sink);
    (ran, engine)
}

/// Makes what a script asks of an engine that was just opened: each client's commands in the order of its lines, the
/// collector's events and the flush events, each by a worker of its own, in threads that take turns. Then it writes a
/// line for each reply, in the order in which the turns came, and the end line and a line for each watch. The buffer, the
/// room of all entries and each client's commands are taken before the first event. Around each turn the gate is called.
///
/// It waits for the threads; all that it promises holds once it returns. Where no thread can be made, the workers go one
/// after another.
///
/// # Errors
///
/// `Memory` or `Device`: the first fault that the engine answered, after which no worker makes an event. The journal has
/// what was answered until then, and every reply of it is written, unless the sink fails. `Writing`: the sink failed
/// where else all was done.
pub fn run_script<
    R: Threads + Wait + Sync,
    D: Disk + Drop + Send,
    F: Fn(&[u64]) -> usize + Drop + Send,
    K: Sink,
    G: Gate + Sync,
>(
    rt: &R,
    alloc: Global,
    script: Script,
    engine: Engine<D, F>,
    sink: &mut K,
    gate: &G,
) -> (Result<(), Stop>, Engine<D, F>)
    requires fresh { IsFresh (serving engine) }
    // No call of it has answered that memory ran out.
    requires unmade { unmade_in engine ≡ None }
    requires chooser { IsChooser F.Fn (chooser engine) }
    ensures answers { AnswersClients script (serving result.1) (why result.0) }
    // What was made is what the lines ask in some order, one line behind another.
    ensures order { ∥ AnswersInSomeOrder script (serving result.1) (why result.0) ∥₁ }
    // Where memory ran out, the event is left for which it did.
    ensures turns { AnswersInTurns script (serving result.1) (unmade_in result.1) (why result.0) }
    // What a crash at any moment leaves, and what it leaves at the end.
    ensures disk { ∥ RunsOnDisk engine result.1 (why result.0) ∥₁ }
    ensures sink { WroteRun K.written K.finished K.count sink.old sink.new
        (text (serving result.1).journal) (tail_of (tally_in (serving result.1))) (why result.0) }
    ensures cause { CountsDisk (why result.0) (D.count (disk_in engine)) (D.count (disk_in result.1)) }
    ensures past { (D.made (disk_in result.1)).past ≡ (D.made (disk_in engine)).past }
    // No entry was let go.
    ensures whole { past_of result.1 ≡ [] }
    ensures start { ∥ KeepsStart engine result.1 ∥₁ }
    // Where the sink failed all was answered, as where the run is done: it is called behind the last event alone.
    ensures last { IsOfSink (why result.0)
        → AnswersClients script (serving result.1) None }
{
    engine.keep_their_images();
    images_since_now(&engine);
    let mut output = match Output::new(alloc) {
        Ok(output) => output,
        Err(refused) => return (Err(Stop::Memory(refused)), engine),
    };
    match Book::new(alloc, engine, script) {
        Ok(book) => {
            let book = run_all(rt, alloc, book, gate);
            book.keep_its_script();
            book.keep_its_engine();
            end_book(book, &mut output, sink)
        }
        Err((engine, refused)) => (Err(Stop::Memory(refused)), engine),
    }
}
