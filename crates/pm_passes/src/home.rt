ghost use Rattle.std.specs.Prelude.{◌≡◌, ◌≤◌, true, false, [], ◌∷◌, Some, IfOk, IfErr, IfSome, IfNone};

use crate::memory::out_of_memory;
use crate::rule::{
    Entering, Looking, Meeting, OneLog, Parting, PutBack, PutBackTelling, PutBackUnseen, TakeOut,
};
use crate::value::Logged;
use crate::view::View;
use atomic_table::{Seat, Table};
use std::alloc::{AllocError, Global};
use std::snapshot::Snapshot;
use std::sync::{Mutex, MutexGuard, Wait};

/// A pass at work: a thread's right to step on the table, with what the pass knows.
pub type PassSeat<B: Logged> = Seat<Option<B>, View<B::Entry>>;

/// The lock, held. Each step with the value asks for it; no clause says that it is this home's.
pub type Hold<'a> = MutexGuard<'a, ()>;

/// Where the value lies between calls: a table of two words, the turn and the log's length, and one slot. The lock is
/// held for a call.
#[derive(Drop)]
pub struct Home<B: Logged + Drop> {
    pub table: Table<Option<B>, View<B::Entry>, Snapshot<B>, OneLog, Global>,
    turn: Mutex<()>,
    ghost two_words: { table.shared.table_id.words ≡ 2 },
    ghost one_slot: { table.shared.table_id.slots ≡ 1 },
}

impl<B: Logged + Drop> Home<B> {
    ghost use Rattle.pm_passes.specs.Numbering.{every, last_number};
    ghost use Rattle.pm_passes.specs.Views.{StartsWith, AddsEntry, HasOwn, first_pass, given, given_telling, given_unseen, other_part, parted};
    ghost use Rattle.pm_passes.specs.Steps.{EntersHeld, HasDrawn, HasLog, IsHolding, IsIdle, IsNew, IsReady, Sees, SeesLonger};
    ghost use Rattle.pm_passes.specs.Passes.{IsWhole, MeetsPass};

    // Lays the value into a table, and gives the seat of the first pass, which has all shares. Where there is no memory
    // the value comes back, with the evidence of that.
    pub(crate) fn new(alloc: Global, value: B) -> Result<(Home<B>, PassSeat<B>), (B, AllocError)>
        requires new { IsNew B.Logged value }
        ensures seat { IfOk result (λ laid. laid.1.table_id ≡ laid.0.table.shared.table_id) }
        ensures key { IfOk result (λ laid. laid.0.table.shared.key.value ≡ value) }
        ensures knows { IfOk result (λ laid. laid.1.me
            ≡ (first_pass (B.numbers value) (B.Tie.row.coded.code (B.tie value)), [])) }
        ensures refused { IfErr result (λ back. back.0 ≡ value) }
    {
        let about = Snapshot::of(&value);
        let mut slots = match Vec::with_capacity(alloc, 1) {
            Ok(slots) => slots,
            Err(refused) => return Err((value, refused)),
        };
        slots.push_reserved(Some(value));
        match Table::new(alloc, &[1, 0], slots, &about) {
            Ok((table, seat)) => {
                let turn = Mutex::new(());
                Ok((Home { table, turn }, seat))
            }
            Err(refused) => Err(out_of_memory(refused)),
        }
    }

    /// Waits for the lock, and takes the value out as soon as it is at home. The seat has it then, and its pass has seen
    /// the whole log. Each step with the value asks for the lock, which is let go with what is answered here.
    pub fn take_out<R: Wait>(&self, rt: &R, seat: &mut PassSeat<B>) -> Hold<'_>
        requires seat { seat.old.table_id ≡ self.now.table.shared.table_id }
        requires idle { IsIdle seat.old.me }
        ensures table { seat.new.table_id ≡ seat.old.table_id }
        ensures out { HasLog B.Logged B.Tie.row.coded.code seat.new.me }
        ensures sees { Sees seat.old.me.0 seat.new.me.0 }
    {
        for _ in rt.forever() {
            let hold = self.turn.lock(rt);
            if self.table.shared.swap::<TakeOut>(seat, 0, 0) == 1 {
                return hold;
            }
        }
        unreachable!()
    }

    /// Tells all of the entry that the value has got, with the log's new length.
    pub fn enter(&self, _hold: &Hold<'_>, seat: &mut PassSeat<B>, count: u64)
        requires seat { seat.old.table_id ≡ self.now.table.shared.table_id }
        requires holding { IsHolding seat.old.me }
        requires entry { (b : B) × (seat.old.me.1 ≡ (0, Some b) ∷ [])
            × AddsEntry seat.old.me.0.number seat.old.me.0.all (B.log b) count }
        ensures table { seat.new.table_id ≡ seat.old.table_id }
        ensures entered { EntersHeld B.Logged seat.old.me seat.new.me }
    {
        self.table.shared.store::<Entering>(seat, 1, count);
    }

    /// Puts the value back.
    pub fn put_back(&self, _hold: &Hold<'_>, seat: &mut PassSeat<B>)
        requires seat { seat.old.table_id ≡ self.now.table.shared.table_id }
        requires holding { IsHolding seat.old.me }
        requires ready { IsReady B.Logged B.Tie.row.coded.code seat.old.me }
        ensures table { seat.new.table_id ≡ seat.old.table_id }
        ensures back { (b : B) × (seat.old.me.1 ≡ (0, Some b) ∷ [])
            × (seat.new.me ≡ (given seat.old.me.0 (B.numbers b), [])) }
    {
        self.table.shared.store::<PutBack>(seat, 0, 1);
    }

    /// Puts the value back, and the pass has not looked at the log: its front stays.
    pub fn put_back_unseen(&self, _hold: &Hold<'_>, seat: &mut PassSeat<B>)
        requires seat { seat.old.table_id ≡ self.now.table.shared.table_id }
        requires holding { IsHolding seat.old.me }
        requires ready { IsReady B.Logged B.Tie.row.coded.code seat.old.me }
        ensures table { seat.new.table_id ≡ seat.old.table_id }
        ensures back { (b : B) × (seat.old.me.1 ≡ (0, Some b) ∷ [])
            × (seat.new.me ≡ (given_unseen seat.old.me.0 (B.numbers b), [])) }
    {
        self.table.shared.store::<PutBackUnseen>(seat, 0, 1);
    }

    /// Puts the value back, and the pass is told of all faults and events.
    pub fn put_back_telling(&self, _hold: &Hold<'_>, seat: &mut PassSeat<B>)
        requires seat { seat.old.table_id ≡ self.now.table.shared.table_id }
        requires holding { IsHolding seat.old.me }
        requires ready { IsReady B.Logged B.Tie.row.coded.code seat.old.me }
        ensures table { seat.new.table_id ≡ seat.old.table_id }
        ensures back { (b : B) × (seat.old.me.1 ≡ (0, Some b) ∷ [])
            × (seat.new.me ≡ (given_telling seat.old.me.0 (B.numbers b), [])) }
    {
        self.table.shared.store::<PutBackTelling>(seat, 0, 1);
    }

    /// Draws a number where the value lies, for the pass that is split off next.
    pub fn draw(&self, _hold: &Hold<'_>, seat: &mut PassSeat<B>) -> Option<u64>
        requires seat { seat.old.table_id ≡ self.now.table.shared.table_id }
        requires has { HasLog B.Logged B.Tie.row.coded.code seat.old.me }
        ensures table { seat.new.table_id ≡ seat.old.table_id }
        ensures view { seat.new.me.0 ≡ seat.old.me.0 }
        ensures number { IfSome result (λ number. number ≡ seat.old.me.0.next) }
        ensures drawn { IfSome result (λ _. HasDrawn B.Logged B.Tie.row.coded.code seat.new.me) }
        ensures last { IfNone result (seat.old.me.0.next ≡ last_number) }
        ensures stays { IfNone result (HasLog B.Logged B.Tie.row.coded.code seat.new.me) }
    {
        let slot = seat.slot_mut(&self.table.shared, 0);
        let Some(value) = slot else { unreachable!() };
        value.draw()
    }

    /// Splits off a pass with the number that was drawn, which has seen as much and has half of the shares.
    pub fn part(&self, _hold: &Hold<'_>, seat: &mut PassSeat<B>) -> PassSeat<B>
        requires seat { seat.old.table_id ≡ self.now.table.shared.table_id }
        requires holding { IsHolding seat.old.me }
        requires shares { 2 ≤ seat.old.me.0.shares }
        ensures table { seat.new.table_id ≡ seat.old.table_id }
        ensures kept { seat.new.me ≡ (parted seat.old.me.0, seat.old.me.1) }
        ensures other { result.table_id ≡ seat.old.table_id }
        ensures fresh { result.me ≡ (other_part seat.old.me.0, []) }
    {
        self.table.shared.split_seat::<Parting>(seat)
    }

    // Loads the log's length: of the two fronts that the pass knows the longer one stays.
    fn look(&self, seat: &mut PassSeat<B>)
        requires seat { seat.old.table_id ≡ self.now.table.shared.table_id }
        requires speaks { seat.old.me.0.speaks ≡ true }
        requires free { seat.old.me.0.holds ≡ false }
        requires empty { seat.old.me.1 ≡ [] }
        ensures table { seat.new.table_id ≡ seat.old.table_id }
        ensures looks { SeesLonger seat.old.me seat.new.me }
    {
        self.table.shared.load::<Looking>(seat, 1);
    }

    // Takes in the pass of another seat: the longer one of both fronts is the front, and the entries of both are known.
    pub(crate) fn meet(&self, seat: &mut PassSeat<B>, other: PassSeat<B>)
        requires seat { seat.old.table_id ≡ self.now.table.shared.table_id }
        requires others { other.table_id ≡ self.now.table.shared.table_id }
        requires idle { IsIdle seat.old.me }
        requires other_idle { IsIdle other.me }
        ensures table { seat.new.table_id ≡ seat.old.table_id }
        ensures idle { IsIdle seat.new.me }
        ensures meets { MeetsPass seat.old.me.0 other.me.0 seat.new.me.0 }
        ensures own { HasOwn seat.new.me.0 }
        ensures few { seat.new.me.0.shares ≤ every }
    {
        self.table.shared.join_seat::<Meeting>(seat, other);
        self.look(seat);
    }

    // Takes the value out for good, as soon as it is at home.
    pub(crate) fn into_value<R: Wait>(self, rt: &R, mut seat: PassSeat<B>) -> B
        requires seat { seat.table_id ≡ self.table.shared.table_id }
        requires idle { IsIdle seat.me }
        requires origin { seat.me.0.origin ≡ B.Tie.row.coded.code (B.tie self.table.shared.key.value) }
        ensures sound { B.sound result }
        ensures tie { B.tie result ≡ B.tie self.table.shared.key.value }
        ensures log { StartsWith (B.log result) seat.me.0.front }
        ensures faults { seat.me.0.faults ≤ (B.numbers result).faults }
        ensures events { seat.me.0.events ≤ (B.numbers result).events }
        ensures whole { seat.me.0.shares ≡ every → IsWhole B.Logged seat.me.0 result }
    {
        let _hold = self.take_out(rt, &mut seat);
        let Some(value) = self.table.shared.exchange(&mut seat, 0, None) else {
            unreachable!()
        };
        value
    }
}
