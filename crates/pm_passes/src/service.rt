use crate::home::{Hold, Home, PassSeat};
use crate::pass::Pass;
use crate::value::Served;
use atomic_table::Badge;
use std::mem;
use std::sync::Wait;

impl<B: Served + Drop> Home<B> {
    ghost use Rattle.std.specs.Prelude.{◌≡◌, ◌<◌, false, []};
    ghost use Rattle.pm_passes.specs.Views.{StartsWith, HasOwnIn};
    ghost use Rattle.pm_passes.specs.Steps.{HasLog, IsHolding, IsIdle};
    ghost use Rattle.pm_passes.specs.Passes.{EntersIf, HasServed, IsAmong, IsReadyPass, Serves, view_of};

    // Makes a call where the value lies.
    fn serve_here(&self, _hold: &Hold<'_>, seat: &mut PassSeat<B>, number: u64) -> Option<u64>
        requires seat { seat.old.table_id ≡ self.now.table.shared.table_id }
        requires number { number ≡ seat.old.me.0.number }
        requires drawn { number < seat.old.me.0.next }
        requires has { HasLog B.Logged B.Tie.row.coded.code seat.old.me }
        ensures table { seat.new.table_id ≡ seat.old.table_id }
        ensures view { seat.new.me.0 ≡ seat.old.me.0 }
        ensures served { HasServed B.Logged B.refuses B.Tie.row.coded.code result seat.new.me }
    {
        let slot = seat.slot_mut(&self.table.shared, 0);
        let Some(value) = slot else { unreachable!() };
        value.serve(number)
    }

    // Tells all of the entry, if there is one.
    fn enter_made(&self, hold: &Hold<'_>, seat: &mut PassSeat<B>, made: Option<u64>)
        requires seat { seat.old.table_id ≡ self.now.table.shared.table_id }
        requires holding { IsHolding seat.old.me }
        requires served { HasServed B.Logged B.refuses B.Tie.row.coded.code made seat.old.me }
        ensures table { seat.new.table_id ≡ seat.old.table_id }
        ensures entered { EntersIf B.Logged made seat.old.me seat.new.me }
    {
        if let Some(count) = made {
            self.enter(hold, seat, count);
        }
    }

    // Makes a call while the value is held, tells all of its entry, and puts the value back.
    fn serve_held(&self, hold: &Hold<'_>, seat: &mut PassSeat<B>, number: u64) -> Option<u64>
        requires seat { seat.old.table_id ≡ self.now.table.shared.table_id }
        requires number { number ≡ seat.old.me.0.number }
        requires drawn { number < seat.old.me.0.next }
        requires holding { IsHolding seat.old.me }
        requires still { seat.old.me.0.also ≡ [] }
        requires own { HasOwnIn seat.old.me.0 seat.old.me.0.all }
        requires starts { StartsWith seat.old.me.0.all seat.old.me.0.front }
        requires has { HasLog B.Logged B.Tie.row.coded.code seat.old.me }
        ensures table { seat.new.table_id ≡ seat.old.table_id }
        ensures ready { IsReadyPass seat.new.me }
        ensures serves { Serves B.Logged B.refuses result (record seat.old.me.0 { holds = false }) seat.new.me.0 }
    {
        let made = self.serve_here(hold, seat, number);
        self.enter_made(hold, seat, made);
        self.put_back(hold, seat);
        made
    }

    // Makes a call as soon as the value is at home.
    fn serve_in_turn<R: Wait>(&self, rt: &R, seat: &mut PassSeat<B>, number: u64) -> Option<u64>
        requires seat { seat.old.table_id ≡ self.now.table.shared.table_id }
        requires number { number ≡ seat.old.me.0.number }
        requires idle { IsIdle seat.old.me }
        ensures table { seat.new.table_id ≡ seat.old.table_id }
        ensures ready { IsReadyPass seat.new.me }
        ensures serves { Serves B.Logged B.refuses result seat.old.me.0 seat.new.me.0 }
    {
        let hold = self.take_out(rt, seat);
        self.serve_held(&hold, seat, number)
    }

    /// Makes a call of this caller as soon as the value is at home, and answers how many entries the log has then. The
    /// pass has seen all of them: what it had seen, entries of others, and then its own, which is one more of its own. Of
    /// a value that refuses it has seen all, and made none.
    pub fn call<R: Wait>(&self, rt: &R, pass: &mut Pass<B::Entry>) -> Option<u64>
        requires pass { IsAmong self.now.table.shared.table_id
            (B.Tie.row.coded.code (B.tie self.now.table.shared.key.value)) pass.old }
        ensures pass { IsAmong self.now.table.shared.table_id
            (B.Tie.row.coded.code (B.tie self.now.table.shared.key.value)) pass.new }
        ensures serves { Serves B.Logged B.refuses result (view_of pass.old) (view_of pass.new) }
    {
        let badge = mem::replace(&mut pass.badge, Badge::blank());
        let mut seat = badge.into_seat::<Option<B>>();
        let made = self.serve_in_turn(rt, &mut seat, pass.number);
        pass.badge = seat.into_badge();
        made
    }
}
