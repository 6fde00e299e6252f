//! The logbook: what it keeps, how it is made, and what it tells.

ghost use Rattle.pm_seats.specs.Callers.{callers_of};
ghost use Rattle.pm_seats.specs.Kept.{KeepsLogbook};

use crate::callers::Callers;
use pm_disk::Disk;
use pm_engine::Engine;
use std::snapshot::Snapshot;

/// An engine, with the number of the pass whose caller made each entry of its journal, and with the number of the next
/// pass.
#[derive(Drop)]
pub struct Logbook<D: Disk, F> {
    pub(crate) engine: Engine<D, F>,
    pub(crate) callers: Callers,
    pub(crate) next: u64,
    /// The engine of which the logbook was made, as it was then. It has no bytes.
    first: Snapshot<Engine<D, F>>,
    ghost kept: { ∥ KeepsLogbook first.value engine (callers_of callers) next ∥₁ },
}

impl<D: Disk, F: Drop> Logbook<D, F> {
    ghost use Rattle.std.specs.Prelude.{◌≡◌, ◌+◌, ◌<◌, ◌≤◌, ◌^◌, [], length};
    ghost use Rattle.std.specs.List.{AllByRecursion};
    ghost use Rattle.std.specs.Thread.{IsSend};
    ghost use Rattle.pm_model.specs.Journal.{IsLegal};
    ghost use Rattle.pm_saving.specs.Serving.{opening};
    ghost use Rattle.pm_engine.specs.Shown.{disk_in, past_of, serving};
    ghost use Rattle.pm_engine.specs.Events.Running.{IsFresh};
    ghost use Rattle.pm_engine.specs.Events.Events.{EngineGoesOn, FitsLine};
    ghost use Rattle.pm_seats.specs.Kept.{IsPaired, StopsNow, stop_in};
    ghost use Rattle.pm_seats.specs.Shown.{BeginsLogbook, callers_in, engine_in, first_in, log_in, next_in};
    ghost use Rattle.pm_seats.specs.Events.{DrawsNumber};
    ghost use Rattle.pm_seats.specs.contracts.logbook.Logbook as logbooks;

    /// The logbook of an engine that was just opened: no entry, and the next pass is number 1. It takes no memory.
    pub fn new(engine: Engine<D, F>) -> Logbook<D, F>
        requires fresh { IsFresh (serving engine) }
        ensures begins { BeginsLogbook engine result }
    {
        engine.keep_their_images();
        let first = Snapshot::of(&engine);
        Logbook {
            engine,
            callers: Callers::Nothing,
            next: 1,
            first,
        }
    }

    /// Draws the number of the next pass, which no pass had. There is none once all up to 2^64 - 2 were drawn, and then
    /// nothing changes.
    pub fn draw(&mut self) -> Option<u64>
        ensures { DrawsNumber self.old self.new result }
    {
        let number = self.next;
        if number == u64::MAX {
            return None;
        }
        self.next = number + 1;
        Some(number)
    }

    /// The engine.
    pub fn engine(&self) -> &Engine<D, F>
        ensures { result.now ≡ engine_in self.now }
    {
        &self.engine
    }

    /// How many entries the log has.
    pub fn entries(&self) -> u64
        ensures { result ≡ length (log_in self.now) }
    {
        self.engine.entries()
    }

    /// The engine, given up.
    pub fn into_engine(self) -> Engine<D, F>
        ensures { result ≡ engine_in self }
    {
        self.engine
    }

    /// A law of the logbook at any time, on its log. The journal is legal from the world that was opened; each entry has
    /// a caller, whose number was drawn; and its text is a line.
    pub fn keep_its_log(&self)
        ensures legal { IsLegal (opening (serving (engine_in self.now))) (serving (engine_in self.now)).journal }
        ensures paired { IsPaired (callers_in self.now) (serving (engine_in self.now)).journal (next_in self.now) }
        ensures lines { AllByRecursion FitsLine (serving (engine_in self.now)).journal }
    {
        self.engine.keep_their_images();
    }

    /// A law of the logbook at any time, on its engine. It went on from the one of which the logbook was made as a run
    /// does, and let no entry go. Where it is stopped, it has the disk's count of failed calls now, which rose since then. Its entries and
    /// the events of the collector are no more than its events, which are below 2^50.
    pub fn keep_its_engine(&self)
        ensures goes { ∥ EngineGoesOn (first_in self.now) (engine_in self.now)
            (stop_in (serving (engine_in self.now)).stopped) ∥₁ }
        ensures whole { past_of (engine_in self.now) ≡ [] }
        ensures stopped { StopsNow (serving (engine_in self.now)).stopped
            (D.count (disk_in (first_in self.now))) (D.count (disk_in (engine_in self.now))) }
        ensures counted { length (serving (engine_in self.now)).journal + (serving (engine_in self.now)).steps
            ≤ (serving (engine_in self.now)).events }
        ensures few { (serving (engine_in self.now)).events < 2 ^ 50 }
    {}

    /// A law of threads: it crosses threads where its disk and its chooser do.
    pub fn keep_its_threads(&self)
        ensures { IsSend D.row → IsSend F.row → IsSend (logbooks.the_row D.row F.row D.Disk) }
    {}
}
