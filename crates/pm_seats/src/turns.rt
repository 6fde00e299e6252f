//! Events of callers in turn: the logbook is taken out, an event is made where it lies, and it is put back.

ghost use Rattle.pm_engine.specs.contracts.Engine as engines;

use crate::shared::BookSeat;
use crate::{SeatFault, Seen, Shared};
use pm_disk::Disk;
use pm_passes::Hold;
use pm_types::{Cmd, EngineFault, Flushed};
use std::alloc::Global;
use std::sync::Wait;

impl<D: Disk + Drop, F: Drop> Shared<D, F> {
    ghost use Rattle.std.specs.Prelude.{◌≡◌, ◌<◌, MatchResult};
    ghost use Rattle.pm_types.specs.declared.limits.TheConstants.{CLIENTS};
    ghost use Rattle.pm_model.specs.Journal.{IsLegal};
    ghost use Rattle.pm_saving.specs.Serving.{opening};
    ghost use Rattle.pm_engine.specs.Shown.{disk_in, serving};
    ghost use Rattle.pm_passes.specs.Views.{HasOwn, HasOwnIn};
    ghost use Rattle.pm_passes.specs.Steps.{IsHolding, IsIdle};
    ghost use Rattle.pm_passes.specs.Passes.{IsReadyPass};
    ghost use Rattle.pm_seats.specs.declared.limits.TheConstants.{LAST_EVENT};
    ghost use Rattle.pm_seats.specs.Events.{CallsClient, CallsFlush};
    ghost use Rattle.pm_seats.specs.Sharing.{FailsPass, HasEvent, SeesEntry, SeesFlush};
    ghost use Rattle.pm_seats.specs.Sharing.{entries_of, first_engine, table_of};
    ghost use Rattle.pm_seats.specs.Turns.{GivesBack, HasBook, HasGiven, HasMade, MayGive};
    ghost use Rattle.pm_seats.specs.Turns.{after_client, after_event, given_after, given_answered};

    // Puts the logbook back after a fault of the engine: the pass is told what the fault tells.
    fn give_back_answered(&self, hold: &Hold<'_>, seat: &mut BookSeat<D, F>, fault: EngineFault)
        requires seat { seat.old.table_id ≡ table_of self.now }
        requires holding { IsHolding seat.old.me }
        requires origin { seat.old.me.0.origin
            ≡ (engines.the_row D.row F.row D.Disk).coded.code (first_engine self.now) }
        requires may { MayGive (first_engine self.now) seat.old.me }
        ensures table { seat.new.table_id ≡ seat.old.table_id }
        ensures back { GivesBack (given_answered fault) seat.old.me seat.new.me }
    {
        match fault {
            EngineFault::Memory(_) => self.home.put_back(hold, seat),
            EngineFault::Disk { .. } => self.home.put_back_telling(hold, seat),
            EngineFault::Reopen { .. } => self.home.put_back_telling(hold, seat),
        }
    }

    // Puts the logbook back after a fault.
    pub(crate) fn give_back(&self, hold: &Hold<'_>, seat: &mut BookSeat<D, F>, fault: SeatFault)
        requires seat { seat.old.table_id ≡ table_of self.now }
        requires holding { IsHolding seat.old.me }
        requires origin { seat.old.me.0.origin
            ≡ (engines.the_row D.row F.row D.Disk).coded.code (first_engine self.now) }
        requires may { MayGive (first_engine self.now) seat.old.me }
        ensures table { seat.new.table_id ≡ seat.old.table_id }
        ensures back { GivesBack (given_after fault) seat.old.me seat.new.me }
    {
        match fault {
            SeatFault::Engine(fault) => self.give_back_answered(hold, seat, fault),
            SeatFault::Spent { .. } => self.home.put_back_telling(hold, seat),
        }
    }

    // Makes the event where the logbook lies.
    fn client_here(
        &self,
        _hold: &Hold<'_>,
        alloc: Global,
        seat: &mut BookSeat<D, F>,
        number: u64,
        client: u32,
        cmd: &Cmd,
    ) -> Result<Seen, SeatFault>
        requires seat { seat.old.table_id ≡ table_of self.now }
        requires client { client < CLIENTS }
        requires drawn { number < seat.old.me.0.next }
        requires has { HasBook (first_engine self.now) seat.old.me }
        ensures table { seat.new.table_id ≡ seat.old.table_id }
        ensures view { seat.new.me.0 ≡ seat.old.me.0 }
        ensures made { HasMade (first_engine self.now)
            (λ old new. CallsClient LAST_EVENT number client cmd.now old new result)
            seat.old.me.0 seat.new.me }
    {
        let slot = seat.slot_mut(&self.home.table.shared, 0);
        let Some(book) = slot else { unreachable!() };
        let answer = book.client(alloc, number, client, cmd);
        book.keep_its_log();
        book.keep_its_engine();
        answer
    }

    // Makes it while the logbook is held, and puts that back.
    fn client_held(
        &self,
        hold: &Hold<'_>,
        alloc: Global,
        seat: &mut BookSeat<D, F>,
        number: u64,
        client: u32,
        cmd: &Cmd,
    ) -> Result<Seen, SeatFault>
        requires seat { seat.old.table_id ≡ table_of self.now }
        requires number { number ≡ seat.old.me.0.number }
        requires client { client < CLIENTS }
        requires drawn { number < seat.old.me.0.next }
        requires holding { IsHolding seat.old.me }
        requires own { HasOwnIn seat.old.me.0 seat.old.me.0.all }
        requires origin { seat.old.me.0.origin
            ≡ (engines.the_row D.row F.row D.Disk).coded.code (first_engine self.now) }
        requires has { HasBook (first_engine self.now) seat.old.me }
        ensures table { seat.new.table_id ≡ seat.old.table_id }
        ensures own { HasOwn seat.new.me.0 }
        ensures given { HasGiven (first_engine self.now)
            (λ old new. CallsClient LAST_EVENT number client cmd.now old new result)
            (after_client client cmd.now result) seat.old.me.0 seat.new.me }
    {
        match self.client_here(hold, alloc, seat, number, client, cmd) {
            Ok(seen) => {
                self.home.enter(hold, seat, seen.place + 1);
                self.home.put_back(hold, seat);
                Ok(seen)
            }
            Err(fault) => {
                self.give_back(hold, seat, fault);
                Err(fault)
            }
        }
    }

    // Makes it as soon as the logbook is at home.
    pub(crate) fn client_in_turn<R: Wait>(
        &self,
        rt: &R,
        alloc: Global,
        seat: &mut BookSeat<D, F>,
        number: u64,
        client: u32,
        cmd: &Cmd,
    ) -> Result<Seen, SeatFault>
        requires seat { seat.old.table_id ≡ table_of self.now }
        requires number { number ≡ seat.old.me.0.number }
        requires client { client < CLIENTS }
        requires idle { IsIdle seat.old.me }
        requires origin { seat.old.me.0.origin
            ≡ (engines.the_row D.row F.row D.Disk).coded.code (first_engine self.now) }
        ensures table { seat.new.table_id ≡ seat.old.table_id }
        ensures ready { IsReadyPass seat.new.me }
        ensures origin { seat.new.me.0.origin ≡ seat.old.me.0.origin }
        ensures legal { IsLegal (opening (serving (first_engine self.now))) (entries_of seat.new.me.0.front) }
        ensures event { HasEvent (first_engine self.now)
            (λ old new. CallsClient LAST_EVENT number client cmd.now old new result)
            seat.old.me.0 seat.new.me.0 }
        ensures answer { MatchResult result (SeesEntry client cmd.now seat.old.me.0 seat.new.me.0)
            (FailsPass (D.count (disk_in (first_engine self.now))) seat.old.me.0 seat.new.me.0) }
    {
        let hold = self.home.take_out(rt, seat);
        self.client_held(&hold, alloc, seat, number, client, cmd)
    }

    // Makes the event where the logbook lies.
    fn flush_here(
        &self,
        _hold: &Hold<'_>,
        alloc: Global,
        seat: &mut BookSeat<D, F>,
    ) -> Result<Flushed, SeatFault>
        requires seat { seat.old.table_id ≡ table_of self.now }
        requires has { HasBook (first_engine self.now) seat.old.me }
        ensures table { seat.new.table_id ≡ seat.old.table_id }
        ensures view { seat.new.me.0 ≡ seat.old.me.0 }
        ensures made { HasMade (first_engine self.now)
            (λ old new. CallsFlush LAST_EVENT old new result)
            seat.old.me.0 seat.new.me }
    {
        let slot = seat.slot_mut(&self.home.table.shared, 0);
        let Some(book) = slot else { unreachable!() };
        let answer = book.flush(alloc);
        book.keep_its_log();
        book.keep_its_engine();
        answer
    }

    // Makes it while the logbook is held, and puts that back.
    fn flush_held(
        &self,
        hold: &Hold<'_>,
        alloc: Global,
        seat: &mut BookSeat<D, F>,
    ) -> Result<Flushed, SeatFault>
        requires seat { seat.old.table_id ≡ table_of self.now }
        requires holding { IsHolding seat.old.me }
        requires own { HasOwnIn seat.old.me.0 seat.old.me.0.all }
        requires origin { seat.old.me.0.origin
            ≡ (engines.the_row D.row F.row D.Disk).coded.code (first_engine self.now) }
        requires has { HasBook (first_engine self.now) seat.old.me }
        ensures table { seat.new.table_id ≡ seat.old.table_id }
        ensures own { HasOwn seat.new.me.0 }
        ensures given { HasGiven (first_engine self.now)
            (λ old new. CallsFlush LAST_EVENT old new result)
            (after_event result) seat.old.me.0 seat.new.me }
    {
        match self.flush_here(hold, alloc, seat) {
            Ok(made) => {
                self.home.put_back(hold, seat);
                Ok(made)
            }
            Err(fault) => {
                self.give_back(hold, seat, fault);
                Err(fault)
            }
        }
    }

    // Makes it as soon as the logbook is at home.
    pub(crate) fn flush_in_turn<R: Wait>(
        &self,
        rt: &R,
        alloc: Global,
        seat: &mut BookSeat<D, F>,
    ) -> Result<Flushed, SeatFault>
        requires seat { seat.old.table_id ≡ table_of self.now }
        requires idle { IsIdle seat.old.me }
        requires origin { seat.old.me.0.origin
            ≡ (engines.the_row D.row F.row D.Disk).coded.code (first_engine self.now) }
        ensures table { seat.new.table_id ≡ seat.old.table_id }
        ensures ready { IsReadyPass seat.new.me }
        ensures origin { seat.new.me.0.origin ≡ seat.old.me.0.origin }
        ensures legal { IsLegal (opening (serving (first_engine self.now))) (entries_of seat.new.me.0.front) }
        ensures event { HasEvent (first_engine self.now)
            (λ old new. CallsFlush LAST_EVENT old new result)
            seat.old.me.0 seat.new.me.0 }
        ensures answer { MatchResult result (λ _. SeesFlush seat.old.me.0 seat.new.me.0)
            (FailsPass (D.count (disk_in (first_engine self.now))) seat.old.me.0 seat.new.me.0) }
    {
        let hold = self.home.take_out(rt, seat);
        self.flush_held(&hold, alloc, seat)
    }
}
