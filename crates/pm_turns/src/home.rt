ghost use Rattle.std.specs.Prelude.{◌≡◌, ◌<◌, true, false, [], Some, IfOk, IfErr};
ghost use Rattle.pm_turns.specs.declared.limits.TheConstants.{WORKERS};
ghost use Rattle.pm_turns.specs.Views.{seated};
ghost use Rattle.pm_turns.specs.Rule.{IsIdle, Holds, MakesTurn, TakesTurn};

use crate::rule::{AtHome, PutBack, Sharing, TakeOut, View};
use crate::{Turn, Turned};
use atomic_table::{Refused, Seat, Table};
use std::alloc::Global;
use std::snapshot::Snapshot;
use std::sync::{Mutex, MutexGuard, Wait};

/// A thread's right to step on the table, which knows the tie of the value.
pub type HomeSeat<B: Turned> = Seat<Option<B>, View<B::Tie>>;

// The lock, held. Each step with the value asks for it.
type Hold<'a> = MutexGuard<'a, ()>;

/// Where the value lies between turns: a table of one word, which is 1 while the value is there, and one slot. The lock
/// is held for a turn.
#[derive(Drop)]
pub struct Home<B: Turned + Drop> {
    table: Table<Option<B>, View<B::Tie>, Snapshot<B>, AtHome, Global>,
    turn: Mutex<()>,
    ghost one_word: { table.shared.table_id.words ≡ 1 },
    ghost one_slot: { table.shared.table_id.slots ≡ 1 },
}

impl<B: Turned + Drop> Home<B> {
    /// Lays the value into a table, and gives the first seat. Where there is no memory the value comes back.
    pub fn new(alloc: Global, value: B) -> Result<(Home<B>, HomeSeat<B>), B>
        requires { B.sound value }
        ensures seat { IfOk result (λ laid. laid.1.table_id ≡ laid.0.table.shared.table_id) }
        ensures knows { IfOk result (λ laid. laid.1.me ≡ (seated (B.tie value), [])) }
        ensures refused { IfErr result (λ back. back ≡ value) }
    {
        let about = Snapshot::of(&value);
        let Ok(mut slots) = Vec::with_capacity(alloc, 1) else {
            return Err(value);
        };
        slots.push_reserved(Some(value));
        match Table::new(alloc, &[1], slots, &about) {
            Ok((table, seat)) => {
                let turn = Mutex::new(());
                Ok((Home { table, turn }, seat))
            }
            Err(Refused { mut slots }) => {
                let Some(Some(value)) = slots.pop() else {
                    unreachable!()
                };
                Err(value)
            }
        }
    }

    /// A second seat, which knows as much.
    pub fn split_seat(&self, seat: &mut HomeSeat<B>) -> HomeSeat<B>
        requires seat { seat.old.table_id ≡ self.now.table.shared.table_id }
        requires idle { IsIdle seat.old.me }
        ensures table { seat.new.table_id ≡ seat.old.table_id }
        ensures same { seat.new.me ≡ seat.old.me }
        ensures other { result.table_id ≡ seat.old.table_id }
        ensures knows { result.me ≡ seat.old.me }
    {
        self.table.shared.split_seat::<Sharing>(seat)
    }

    /// Takes in another seat.
    pub fn join_seat(&self, seat: &mut HomeSeat<B>, other: HomeSeat<B>)
        requires seat { seat.old.table_id ≡ self.now.table.shared.table_id }
        requires other { other.table_id ≡ self.now.table.shared.table_id }
        requires idle { IsIdle seat.old.me }
        requires other_idle { IsIdle other.me }
        ensures table { seat.new.table_id ≡ seat.old.table_id }
        ensures same { seat.new.me ≡ seat.old.me }
    {
        self.table.shared.join_seat::<Sharing>(seat, other);
    }

    /// A turn of this worker, with the lock held. Where the value is out it tries again.
    pub fn take_turn<R: Wait>(
        &self,
        rt: &R,
        alloc: Global,
        seat: &mut HomeSeat<B>,
        who: u32,
    ) -> Turn
        requires who { who < WORKERS }
        requires seat { seat.old.table_id ≡ self.now.table.shared.table_id }
        requires idle { IsIdle seat.old.me }
        ensures table { seat.new.table_id ≡ seat.old.table_id }
        ensures same { seat.new.me ≡ seat.old.me }
        ensures does { TakesTurn B.tie B.sound B.turn who seat.old.me.0 result }
    {
        for _ in rt.forever() {
            let hold = self.turn.lock(rt);
            if self.take_out(&hold, seat) {
                let turn = self.make_turn(&hold, seat, alloc, who);
                self.put_back(&hold, seat);
                return turn;
            }
        }
        unreachable!()
    }

    /// Takes the value out for good. Where it is out it tries again.
    pub fn into_value<R: Wait>(self, rt: &R, mut seat: HomeSeat<B>) -> B
        requires seat { seat.table_id ≡ self.table.shared.table_id }
        requires idle { IsIdle seat.me }
        ensures sound { B.sound result }
        ensures tie { seat.me.0.tie ≡ Some (B.tie result) }
    {
        for _ in rt.forever() {
            let hold = self.turn.lock(rt);
            if self.take_out(&hold, &mut seat) {
                let Some(value) = self.table.shared.exchange(&mut seat, 0, None) else {
                    unreachable!()
                };
                return value;
            }
        }
        unreachable!()
    }

    // Takes the value out, where it is at home. The seat then holds it.
    fn take_out(&self, _hold: &Hold<'_>, seat: &mut HomeSeat<B>) -> bool
        requires seat { seat.old.table_id ≡ self.now.table.shared.table_id }
        requires idle { IsIdle seat.old.me }
        ensures table { seat.new.table_id ≡ seat.old.table_id }
        ensures view { seat.new.me.0 ≡ seat.old.me.0 }
        ensures out { result ≡ true → Holds B.tie B.sound seat.new.me }
        ensures missed { result ≡ false → seat.new.me.1 ≡ [] }
    {
        self.table.shared.swap::<TakeOut>(seat, 0, 0) == 1
    }

    // Makes a turn of this worker where the value lies.
    fn make_turn(&self, _hold: &Hold<'_>, seat: &mut HomeSeat<B>, alloc: Global, who: u32) -> Turn
        requires who { who < WORKERS }
        requires seat { seat.old.table_id ≡ self.now.table.shared.table_id }
        requires holds { Holds B.tie B.sound seat.old.me }
        ensures table { seat.new.table_id ≡ seat.old.table_id }
        ensures view { seat.new.me.0 ≡ seat.old.me.0 }
        ensures holds { Holds B.tie B.sound seat.new.me }
        ensures does { MakesTurn B.turn who seat.old.me seat.new.me result }
    {
        let slot = seat.slot_mut(&self.table.shared, 0);
        let Some(value) = slot else { unreachable!() };
        value.take_turn(alloc, who)
    }

    // Puts the value back.
    fn put_back(&self, _hold: &Hold<'_>, seat: &mut HomeSeat<B>)
        requires seat { seat.old.table_id ≡ self.now.table.shared.table_id }
        requires holds { Holds B.tie B.sound seat.old.me }
        ensures table { seat.new.table_id ≡ seat.old.table_id }
        ensures back { seat.new.me ≡ (seat.old.me.0, []) }
    {
        self.table.shared.store::<PutBack>(seat, 0, 1);
    }
}
