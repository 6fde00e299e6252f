//! The book: what it keeps, how it is made, and what it tells.

ghost use Rattle.pm_script.specs.Parted.Left.{lists_in};
ghost use Rattle.pm_lock.specs.Kept.{KeepsBook};

use pm_disk::Disk;
use pm_engine::events::Engine;
use pm_script::Script;
use pm_script::parted::{Parts, collects_asked, commands_asked, flushes_asked};
use pm_types::{EngineFault, NoMemory};
use std::alloc::Global;
use std::snapshot::Snapshot;

/// An engine, and what of a script is still to be asked of it: each client's commands, the collector's events and the flush
/// events. Once the engine has answered a fault the book keeps it, and takes no more turns.
#[derive(Drop)]
pub struct Book<D: Disk, F> {
    pub(crate) engine: Engine<D, F>,
    pub(crate) parts: Parts,
    /// How many events of the collector are left.
    pub(crate) collects: u64,
    /// How many flush events are left.
    pub(crate) flushes: u64,
    pub(crate) fault: Option<EngineFault>,
    /// The engine of which the book was made, as it was then. It has no bytes.
    first: Snapshot<Engine<D, F>>,
    /// The script, which has none either.
    script: Snapshot<Script>,
    ghost kept: { ∥ KeepsBook script.value first.value engine (lists_in parts) collects flushes fault ∥₁ },
}

impl<D: Disk, F: Drop> Book<D, F> {
    ghost use Rattle.std.specs.Prelude.{◌≡◌, ◌+◌, ◌<◌, ◌≤◌, ◌^◌, ℕ, ◌++◌, List, [], None, length, IfOk, IfErr};
    ghost use Rattle.std.specs.List.{AllByRecursion};
    ghost use Rattle.pm_model.specs.Journal.{IsLegal, commands_of, part};
    ghost use Rattle.pm_script.specs.Parted.Asked.{events_asked, flushes_asked, requests_asked, steps_asked};
    ghost use Rattle.pm_script.specs.Parted.Lists.{count_left, list_of};
    ghost use Rattle.pm_script.specs.Script.{AreLines};
    ghost use Rattle.pm_saving.specs.Bounds.{KeepsBounds};
    ghost use Rattle.pm_saving.specs.Serving.{opening, world};
    ghost use Rattle.pm_saving.specs.Images.{IsSettledCopy, IsTold};
    ghost use Rattle.pm_engine.specs.Shown.{KeepsEntries, KeepsStart, disk_in, opened_count, opened_disk, past_of, room};
    ghost use Rattle.pm_engine.specs.Shown.{serving, unmade_in};
    ghost use Rattle.pm_engine.specs.History.{HasHistory};
    ghost use Rattle.pm_engine.specs.Events.Running.{IsFresh};
    ghost use Rattle.pm_engine.specs.Events.Events.{EngineGoesOn, FitsLine};
    ghost use Rattle.pm_lock.specs.Kept.{HasCauseSince, HasLeft, UnlessMemory, stop_kept, stopped_by};
    ghost use Rattle.pm_lock.specs.Shown.{BeginsBook, collects_in, engine_in, fault_in, first_in, flushes_in};
    ghost use Rattle.pm_lock.specs.Shown.{left_in, lines_in};

    /// The book of an engine that was just opened, and of a script: nothing was made yet, and all is left. The room of all
    /// entries is taken here, and each client's commands are parted.
    ///
    /// # Errors
    ///
    /// Memory ran out. The engine comes back as it was.
    pub fn new(
        alloc: Global,
        mut engine: Engine<D, F>,
        script: Script,
    ) -> Result<Book<D, F>, (Engine<D, F>, NoMemory)>
        requires fresh { IsFresh (serving engine) }
        ensures begins { IfOk result (λ book. BeginsBook engine script book) }
        ensures serving { IfErr result (λ back. serving back.0 ≡ serving engine) }
        ensures disk { IfErr result (λ back. disk_in back.0 ≡ disk_in engine) }
        ensures start { IfErr result (λ back. KeepsStart engine back.0) }
        ensures entries { IfErr result (λ back. KeepsEntries engine back.0) }
        ensures unmade { IfErr result (λ back. unmade_in back.0 ≡ unmade_in engine) }
    {
        engine.keep_their_images();
        let first = Snapshot::of(&engine);
        let lines = Snapshot::of(&script);
        let collects = collects_asked(&script);
        let flushes = flushes_asked(&script);
        if let Err(fault) = engine.reserve_entries(commands_asked(script.as_slice())) {
            return Err((engine, fault));
        }
        match Parts::split(alloc, script) {
            Ok(parts) => Ok(Book {
                engine,
                parts,
                collects,
                flushes,
                fault: None,
                first,
                script: lines,
            }),
            Err(fault) => Err((engine, fault)),
        }
    }

    /// The fault that is kept, if one is: the one that the engine answered.
    pub fn fault(&self) -> Option<EngineFault>
        ensures { result ≡ fault_in self.now }
    {
        self.fault
    }

    /// The engine.
    pub fn engine(&self) -> &Engine<D, F>
        ensures { result.now ≡ engine_in self.now }
    {
        &self.engine
    }

    /// The engine, given up.
    pub fn into_engine(self) -> Engine<D, F>
        ensures { result ≡ engine_in self }
    {
        self.engine
    }

    /// A law of the book at any time, on its script. The journal is legal from the world that was opened, and while no
    /// Disk is kept each image now stands for the last acknowledged copy. Each client's part of the journal is a first
    /// part of its commands, and the rest is left; what was made of the other events and what is left of them are as many
    /// as the script asks.
    pub fn keep_its_script(&self)
        ensures legal { IsLegal (opening (serving (engine_in self.now))) (serving (engine_in self.now)).journal }
        ensures settled { stopped_by (fault_in self.now) ≡ None → IsTold (D.contents (opened_disk (engine_in self.now)))
            → (left : List ℕ) → D.image (disk_in (engine_in self.now)) left
            → IsSettledCopy (world (serving (engine_in self.now))) left }
        ensures lines { AreLines (lines_in self.now) }
        ensures parts { (client : ℕ)
            → part client (serving (engine_in self.now)).journal ++ list_of (left_in self.now) client
            ≡ commands_of client (requests_asked (lines_in self.now)) }
        ensures answered { length (serving (engine_in self.now)).journal + count_left (left_in self.now)
            ≡ length (requests_asked (lines_in self.now)) }
        ensures steps { (serving (engine_in self.now)).steps + collects_in self.now ≡ steps_asked (lines_in self.now) }
        ensures events { (serving (engine_in self.now)).events + flushes_in self.now
            ≡ length (serving (engine_in self.now)).journal + (serving (engine_in self.now)).steps
            + flushes_asked (lines_in self.now) }
        ensures few { events_asked (lines_in self.now) < 2 ^ 50 }
        ensures told { AllByRecursion FitsLine (serving (engine_in self.now)).journal }
    {
        self.engine.keep_their_images();
    }

    /// A law of the book at any time, on its engine. It went on from the one of which the book was made as a run does, and
    /// let no entry go; it
    /// is stopped exactly where a Disk is kept, whose count rose as told; there is room for the entry of each command that
    /// is left. Where Memory is kept, the event is left for which the engine noted that memory ran out; where it is not,
    /// the engine noted none in the book. It came by calls from one that was just opened, which tells what it made and in
    /// which order. Each watch keeps its bound.
    pub fn keep_its_engine(&self)
        ensures goes { ∥ EngineGoesOn (first_in self.now) (engine_in self.now) (stop_kept (fault_in self.now)) ∥₁ }
        ensures whole { past_of (engine_in self.now) ≡ [] }
        ensures stopped { (serving (engine_in self.now)).stopped ≡ stopped_by (fault_in self.now) }
        ensures cause { HasCauseSince (fault_in self.now) (opened_count (first_in self.now))
            (D.count (disk_in (first_in self.now))) (D.count (disk_in (engine_in self.now))) }
        ensures room { count_left (left_in self.now) ≤ room (engine_in self.now) }
        ensures short { ∥ HasLeft (fault_in self.now) (unmade_in (engine_in self.now)) (serving (engine_in self.now))
            (left_in self.now) (collects_in self.now) (flushes_in self.now) ∥₁ }
        ensures unmade { UnlessMemory (fault_in self.now)
            (unmade_in (engine_in self.now) ≡ unmade_in (first_in self.now)) }
        ensures history { ∥ HasHistory (serving (engine_in self.now)) ∥₁ }
        ensures bounds { ∥ KeepsBounds (serving (engine_in self.now)) ∥₁ }
    {
        self.engine.keep_their_images();
    }
}
