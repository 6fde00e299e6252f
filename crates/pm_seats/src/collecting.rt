//! Events of the collector, of callers in turn.

ghost use Rattle.pm_engine.specs.contracts.Engine as engines;

use crate::shared::BookSeat;
use crate::{Logbook, SeatFault, Shared};
use atomic_table::Badge;
use pm_disk::Disk;
use pm_passes::{Hold, Pass};
use pm_types::{Entry, Step};
use std::alloc::Global;
use std::mem;
use std::sync::Wait;

impl<D: Disk + Drop, F: Fn(&[u64]) -> usize + Drop> Shared<D, F> {
    ghost use Rattle.std.specs.Prelude.{◌≡◌, IfErr, MatchResult};
    ghost use Rattle.pm_model.specs.Journal.{IsLegal};
    ghost use Rattle.pm_place.specs.Choosers.{IsChooser};
    ghost use Rattle.pm_saving.specs.Serving.{opening};
    ghost use Rattle.pm_engine.specs.Shown.{chooser, disk_in, serving};
    ghost use Rattle.pm_passes.specs.Views.{HasOwn, HasOwnIn};
    ghost use Rattle.pm_passes.specs.Steps.{IsHolding, IsIdle};
    ghost use Rattle.pm_passes.specs.Passes.{IsReadyPass, view_of};
    ghost use Rattle.pm_seats.specs.declared.limits.TheConstants.{LAST_EVENT};
    ghost use Rattle.pm_seats.specs.Events.{CallsCollect};
    ghost use Rattle.pm_seats.specs.Sharing.{FailsPass, HasEvent, IsNoDiskFault, IsPassOf, SeesMade};
    ghost use Rattle.pm_seats.specs.Sharing.{entries_of, first_engine, table_of};
    ghost use Rattle.pm_seats.specs.Turns.{HasBook, HasGiven, HasMade, after_event};

    /// Makes the next event of the collector, as soon as it is this caller's turn.
    ///
    /// # Errors
    ///
    /// `Engine` as the engine answers it in this call, never `Disk`; and `Spent` once 2^50 - 1 events were made.
    pub fn collect<R: Wait>(
        &self,
        rt: &R,
        alloc: Global,
        pass: &mut Pass<Entry>,
    ) -> Result<Step, SeatFault>
        requires chooser { IsChooser F.Fn (chooser (first_engine self.now)) }
        requires pass { IsPassOf (engines.the_row D.row F.row D.Disk).coded self.now pass.old }
        ensures pass { IsPassOf (engines.the_row D.row F.row D.Disk).coded self.now pass.new }
        ensures event { HasEvent (first_engine self.now) (λ old new. CallsCollect F.Fn LAST_EVENT old new result)
            (view_of pass.old) (view_of pass.new) }
        ensures answer { MatchResult result (λ _. SeesMade (view_of pass.old) (view_of pass.new))
            (FailsPass (D.count (disk_in (first_engine self.now))) (view_of pass.old) (view_of pass.new)) }
        ensures still { IfErr result IsNoDiskFault }
    {
        let badge = mem::replace(&mut pass.badge, Badge::blank());
        let mut seat = badge.into_seat::<Option<Logbook<D, F>>>();
        let answer = self.collect_in_turn(rt, alloc, &mut seat);
        pass.badge = seat.into_badge();
        answer
    }

    // Makes the event where the logbook lies.
    fn collect_here(
        &self,
        _hold: &Hold<'_>,
        alloc: Global,
        seat: &mut BookSeat<D, F>,
    ) -> Result<Step, SeatFault>
        requires chooser { IsChooser F.Fn (chooser (first_engine self.now)) }
        requires seat { seat.old.table_id ≡ table_of self.now }
        requires has { HasBook (first_engine self.now) seat.old.me }
        ensures table { seat.new.table_id ≡ seat.old.table_id }
        ensures view { seat.new.me.0 ≡ seat.old.me.0 }
        ensures made { HasMade (first_engine self.now)
            (λ old new. CallsCollect F.Fn LAST_EVENT old new result)
            seat.old.me.0 seat.new.me }
    {
        let slot = seat.slot_mut(&self.home.table.shared, 0);
        let Some(book) = slot else { unreachable!() };
        book.keep_its_engine();
        let answer = book.collect(alloc);
        book.keep_its_log();
        book.keep_its_engine();
        answer
    }

    // Makes it while the logbook is held, and puts that back.
    fn collect_held(
        &self,
        hold: &Hold<'_>,
        alloc: Global,
        seat: &mut BookSeat<D, F>,
    ) -> Result<Step, SeatFault>
        requires chooser { IsChooser F.Fn (chooser (first_engine self.now)) }
        requires seat { seat.old.table_id ≡ table_of self.now }
        requires holding { IsHolding seat.old.me }
        requires own { HasOwnIn seat.old.me.0 seat.old.me.0.all }
        requires origin { seat.old.me.0.origin
            ≡ (engines.the_row D.row F.row D.Disk).coded.code (first_engine self.now) }
        requires has { HasBook (first_engine self.now) seat.old.me }
        ensures table { seat.new.table_id ≡ seat.old.table_id }
        ensures own { HasOwn seat.new.me.0 }
        ensures given { HasGiven (first_engine self.now)
            (λ old new. CallsCollect F.Fn LAST_EVENT old new result)
            (after_event result) seat.old.me.0 seat.new.me }
    {
        match self.collect_here(hold, alloc, seat) {
            Ok(made) => {
                self.home.put_back(hold, seat);
                Ok(made)
            }
            Err(fault) => {
                self.give_back(hold, seat, fault);
                Err(fault)
            }
        }
    }

    // Makes it as soon as the logbook is at home.
    fn collect_in_turn<R: Wait>(
        &self,
        rt: &R,
        alloc: Global,
        seat: &mut BookSeat<D, F>,
    ) -> Result<Step, SeatFault>
        requires chooser { IsChooser F.Fn (chooser (first_engine self.now)) }
        requires seat { seat.old.table_id ≡ table_of self.now }
        requires idle { IsIdle seat.old.me }
        requires origin { seat.old.me.0.origin
            ≡ (engines.the_row D.row F.row D.Disk).coded.code (first_engine self.now) }
        ensures table { seat.new.table_id ≡ seat.old.table_id }
        ensures ready { IsReadyPass seat.new.me }
        ensures origin { seat.new.me.0.origin ≡ seat.old.me.0.origin }
        ensures legal { IsLegal (opening (serving (first_engine self.now))) (entries_of seat.new.me.0.front) }
        ensures event { HasEvent (first_engine self.now)
            (λ old new. CallsCollect F.Fn LAST_EVENT old new result)
            seat.old.me.0 seat.new.me.0 }
        ensures answer { MatchResult result (λ _. SeesMade seat.old.me.0 seat.new.me.0)
            (FailsPass (D.count (disk_in (first_engine self.now))) seat.old.me.0 seat.new.me.0) }
    {
        let hold = self.home.take_out(rt, seat);
        self.collect_held(&hold, alloc, seat)
    }
}
