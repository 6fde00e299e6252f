//! Many callers share one engine, each with a pass.

ghost use Rattle.pm_engine.specs.contracts.Engine as engines;
ghost use Rattle.pm_seats.specs.contracts.shared.Shared as sharing;

use crate::{Logbook, SeatFault, Seen};
use atomic_table::Badge;
use pm_disk::Disk;
use pm_engine::Engine;
use pm_passes::{Home, Pass, PassSeat};
use pm_types::{Cmd, Entry, Flushed, NoMemory};
use std::alloc::Global;
use std::mem;
use std::sync::Wait;

// The last number, which no pass gets.
const LAST_NUMBER: u64 = u64::MAX;

/// The seat of a pass, with the logbook while it has it.
pub(crate) type BookSeat<D: Disk, F: Drop> = PassSeat<Logbook<D, F>>;

/// An engine that callers share. Each has a pass, whose type names no engine: it may be kept in any struct.
#[derive(Drop)]
pub struct Shared<D: Disk + Drop, F: Drop> {
    pub(crate) home: Home<Logbook<D, F>>,
}

impl<D: Disk + Drop, F: Drop> Shared<D, F> {
    ghost use Rattle.std.specs.Prelude.{◌≡◌, ◌≤◌, ◌<◌, [], false, IfOk, IfErr, MatchResult};
    ghost use Rattle.std.specs.List.{AllByRecursion};
    ghost use Rattle.std.specs.Thread.{IsSend, IsSync};
    ghost use Rattle.pm_types.specs.declared.limits.TheConstants.{CLIENTS};
    ghost use Rattle.pm_model.specs.Frames.{is_settle};
    ghost use Rattle.pm_model.specs.Journal.{IsFirstPart, IsLegal};
    ghost use Rattle.pm_saving.specs.Serving.{opening};
    ghost use Rattle.pm_engine.specs.Shown.{disk_in, past_of, serving};
    ghost use Rattle.pm_engine.specs.Events.Running.{IsFresh};
    ghost use Rattle.pm_engine.specs.Events.Events.{EngineGoesOn, FitsLine};
    ghost use Rattle.pm_passes.specs.Numbering.{every};
    ghost use Rattle.pm_passes.specs.Views.{HasOwn};
    ghost use Rattle.pm_passes.specs.Passes.{FindsNoNumber, MeetsPass, SplitsPass, view_of};
    ghost use Rattle.pm_seats.specs.declared.limits.TheConstants.{LAST_EVENT};
    ghost use Rattle.pm_seats.specs.Kept.{StopsNow, stop_in};
    ghost use Rattle.pm_seats.specs.Events.{CallsClient, CallsFlush};
    ghost use Rattle.pm_seats.specs.Sharing.{FailsPass, HasEvent, IsNoDiskFault, IsPassOf, IsWholeEngine, OpensPass};
    ghost use Rattle.pm_seats.specs.Sharing.{SeesEntry, SeesFlush, entries_of, first_engine};

    /// Shares an engine that was just opened, and gives the first pass, number 0, with all 4,294,967,296 shares.
    ///
    /// # Errors
    ///
    /// There was no memory. The engine comes back as it was.
    pub fn open(
        alloc: Global,
        engine: Engine<D, F>,
    ) -> Result<(Shared<D, F>, Pass<Entry>), (Engine<D, F>, NoMemory)>
        requires fresh { IsFresh (serving engine) }
        ensures pass { IfOk result (λ laid. IsPassOf (engines.the_row D.row F.row D.Disk).coded laid.0 laid.1) }
        ensures first { IfOk result (λ laid. first_engine laid.0 ≡ engine) }
        ensures view { IfOk result (λ laid. OpensPass (D.count (disk_in engine)) (view_of laid.1)) }
        ensures refused { IfErr result (λ back. back.0 ≡ engine) }
    {
        let book = Logbook::new(engine);
        match Home::open(alloc, book) {
            Ok((home, pass)) => Ok((Shared { home }, pass)),
            Err((book, refused)) => Err((book.into_engine(), NoMemory::from(refused))),
        }
    }

    /// Splits off a pass of a number that none had, with half of the shares, rounded down. It has seen as much, and
    /// made nothing. It waits for the turn.
    ///
    /// # Errors
    ///
    /// All numbers below 2^64 - 1 were given. The pass stays as it was.
    pub fn split<R: Wait>(&self, rt: &R, pass: &mut Pass<Entry>) -> Result<Pass<Entry>, NoMemory>
        requires pass { IsPassOf (engines.the_row D.row F.row D.Disk).coded self.now pass.old }
        requires shares { 2 ≤ (view_of pass.old).shares }
        ensures pass { IsPassOf (engines.the_row D.row F.row D.Disk).coded self.now pass.new }
        ensures other { IfOk result (IsPassOf (engines.the_row D.row F.row D.Disk).coded self.now) }
        ensures parts { IfOk result (λ other. SplitsPass (view_of pass.old) (view_of pass.new) (view_of other)) }
        ensures none { IfErr result (λ _. FindsNoNumber (view_of pass.old) (view_of pass.new)) }
    {
        match self.home.split_pass(rt, pass) {
            Some(other) => Ok(other),
            None => Err(NoMemory::uncountable(LAST_NUMBER)),
        }
    }

    /// Answers a client's command, as soon as it is this caller's turn. The pass has seen then what it had seen, entries
    /// of others, and this entry.
    ///
    /// # Errors
    ///
    /// `Engine` as the engine answers it in this call, `Disk` for `settle` alone; and `Spent` once 2^50 - 1 events were
    /// made. The pass has seen the whole log then, and is told what the fault tells.
    pub fn call<R: Wait>(
        &self,
        rt: &R,
        alloc: Global,
        pass: &mut Pass<Entry>,
        client: u32,
        cmd: &Cmd,
    ) -> Result<Seen, SeatFault>
        requires pass { IsPassOf (engines.the_row D.row F.row D.Disk).coded self.now pass.old }
        requires client { client < CLIENTS }
        ensures pass { IsPassOf (engines.the_row D.row F.row D.Disk).coded self.now pass.new }
        ensures event { HasEvent (first_engine self.now)
            (λ old new. CallsClient LAST_EVENT (view_of pass.old).number client cmd.now old new result)
            (view_of pass.old) (view_of pass.new) }
        ensures answer { MatchResult result (SeesEntry client cmd.now (view_of pass.old) (view_of pass.new))
            (FailsPass (D.count (disk_in (first_engine self.now))) (view_of pass.old) (view_of pass.new)) }
        ensures settle { is_settle cmd.now ≡ false → IfErr result IsNoDiskFault }
    {
        let number = pass.number();
        let badge = mem::replace(&mut pass.badge, Badge::blank());
        let mut seat = badge.into_seat::<Option<Logbook<D, F>>>();
        let answer = self.client_in_turn(rt, alloc, &mut seat, number, client, cmd);
        pass.badge = seat.into_badge();
        answer
    }

    /// Makes an event that writes a page of the copy in progress, if one is left, as soon as it is this caller's turn.
    ///
    /// # Errors
    ///
    /// As `call`, `Disk` too.
    pub fn flush<R: Wait>(
        &self,
        rt: &R,
        alloc: Global,
        pass: &mut Pass<Entry>,
    ) -> Result<Flushed, SeatFault>
        requires pass { IsPassOf (engines.the_row D.row F.row D.Disk).coded self.now pass.old }
        ensures pass { IsPassOf (engines.the_row D.row F.row D.Disk).coded self.now pass.new }
        ensures event { HasEvent (first_engine self.now) (λ old new. CallsFlush LAST_EVENT old new result)
            (view_of pass.old) (view_of pass.new) }
        ensures answer { MatchResult result (λ _. SeesFlush (view_of pass.old) (view_of pass.new))
            (FailsPass (D.count (disk_in (first_engine self.now))) (view_of pass.old) (view_of pass.new)) }
    {
        let badge = mem::replace(&mut pass.badge, Badge::blank());
        let mut seat = badge.into_seat::<Option<Logbook<D, F>>>();
        let answer = self.flush_in_turn(rt, alloc, &mut seat);
        pass.badge = seat.into_badge();
        answer
    }

    /// Takes another pass in, with its shares and counts, and all that it has seen and made. It waits for nobody, though it
    /// takes what may wait, as all calls do.
    pub fn meet<R: Wait>(&self, _rt: &R, into: &mut Pass<Entry>, other: Pass<Entry>)
        requires pass { IsPassOf (engines.the_row D.row F.row D.Disk).coded self.now into.old }
        requires other { IsPassOf (engines.the_row D.row F.row D.Disk).coded self.now other }
        ensures pass { IsPassOf (engines.the_row D.row F.row D.Disk).coded self.now into.new }
        ensures meets { MeetsPass (view_of into.old) (view_of other) (view_of into.new) }
    {
        self.home.meet_pass(into, other);
    }

    /// Gives the engine up, as soon as it is this caller's turn. It went on from the first one, and its journal begins
    /// with all that the pass has seen. Where the pass has all shares it is that, and all that is counted is the pass's
    /// own.
    pub fn close<R: Wait>(self, rt: &R, pass: Pass<Entry>) -> Engine<D, F>
        requires pass { IsPassOf (engines.the_row D.row F.row D.Disk).coded self pass }
        ensures goes { ∥ EngineGoesOn (first_engine self) result (stop_in (serving result).stopped) ∥₁ }
        // It let no entry go.
        ensures past { past_of result ≡ [] }
        // Each entry's text is a line.
        ensures lines { AllByRecursion FitsLine (serving result).journal }
        ensures stopped { StopsNow (serving result).stopped
            (D.count (disk_in (first_engine self))) (D.count (disk_in result)) }
        ensures legal { IsLegal (opening (serving (first_engine self))) (serving result).journal }
        ensures journal { IsFirstPart (entries_of (view_of pass).front) (serving result).journal }
        ensures faults { (view_of pass).faults ≤ D.count (disk_in result) }
        ensures events { (view_of pass).events ≤ (serving result).events }
        ensures whole { (view_of pass).shares ≡ every → IsWholeEngine (view_of pass) result }
    {
        let book = self.home.close(rt, pass);
        book.keep_its_log();
        book.keep_its_engine();
        book.into_engine()
    }

    /// A law of a pass: what it has seen is legal from the world that was opened, and has its own entries in order, and
    /// those of each pass that was met into it.
    pub fn keep_its_pass(&self, pass: &Pass<Entry>)
        requires pass { IsPassOf (engines.the_row D.row F.row D.Disk).coded self.now pass.now }
        ensures legal { IsLegal (opening (serving (first_engine self.now))) (entries_of (view_of pass.now).front) }
        ensures own { ∥ HasOwn (view_of pass.now) ∥₁ }
    {
        pass.keeps_its_entries();
    }

    /// A law of threads: callers in threads of their own may share it, where its disk and its chooser may cross threads.
    pub fn keep_its_threads(&self)
        ensures { IsSend D.row → IsSend F.row → IsSync (sharing.the_row D.row F.row D.Disk) }
    {}
}
