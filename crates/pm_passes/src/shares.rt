use crate::home::{Hold, Home, PassSeat};
use crate::pass::Pass;
use crate::value::Logged;
use atomic_table::Badge;
use std::alloc::{AllocError, Global};
use std::mem;
use std::sync::Wait;

// All shares.
const EVERY: u64 = 4_294_967_296;

impl<B: Logged + Drop> Home<B> {
    ghost use Rattle.std.specs.Prelude.{◌≡◌, ◌≤◌, false, [], Some, IfOk, IfErr, IfSome, IfNone};
    ghost use Rattle.pm_passes.specs.Numbering.{every, last_number};
    ghost use Rattle.pm_passes.specs.Views.{StartsWith, first_pass, other_part, parted};
    ghost use Rattle.pm_passes.specs.Steps.{HasLog, IsHolding, IsIdle, IsNew};
    ghost use Rattle.pm_passes.specs.Passes.{FindsNoNumber, IsAmong, IsReadyPass, IsWhole, MeetsPass, SplitsPass, view_of};

    /// Lays a new value into a table, and gives the first pass, of number 0.
    ///
    /// # Errors
    ///
    /// There was no memory for that: the value comes back, with the evidence.
    pub fn open(alloc: Global, value: B) -> Result<(Home<B>, Pass<B::Entry>), (B, AllocError)>
        requires new { IsNew B.Logged value }
        ensures pass { IfOk result (λ laid. IsAmong laid.0.table.shared.table_id
            (B.Tie.row.coded.code (B.tie laid.0.table.shared.key.value)) laid.1) }
        ensures key { IfOk result (λ laid. laid.0.table.shared.key.value ≡ value) }
        ensures view { IfOk result (λ laid. view_of laid.1
            ≡ first_pass (B.numbers value) (B.Tie.row.coded.code (B.tie value))) }
        ensures refused { IfErr result (λ back. back.0 ≡ value) }
    {
        let (home, seat) = Home::new(alloc, value)?;
        let pass = Pass {
            badge: seat.into_badge(),
            number: 0,
            shares: EVERY,
        };
        Ok((home, pass))
    }

    // Splits the pass of a seat that has the value, and puts the value back.
    fn split_held(&self, hold: &Hold<'_>, seat: &mut PassSeat<B>) -> Option<(PassSeat<B>, u64)>
        requires seat { seat.old.table_id ≡ self.now.table.shared.table_id }
        requires holding { IsHolding seat.old.me }
        requires shares { 2 ≤ seat.old.me.0.shares }
        requires has { HasLog B.Logged B.Tie.row.coded.code seat.old.me }
        ensures table { seat.new.table_id ≡ seat.old.table_id }
        ensures first { IfSome result (λ _. seat.new.me ≡ (record (parted seat.old.me.0) { holds = false }, [])) }
        ensures other { IfSome result (λ other. other.0.table_id ≡ seat.old.table_id) }
        ensures fresh { IfSome result (λ other. other.0.me ≡ (other_part seat.old.me.0, [])) }
        ensures number { IfSome result (λ other. other.1 ≡ seat.old.me.0.next) }
        ensures last { IfNone result (seat.old.me.0.next ≡ last_number) }
        ensures stays { IfNone result (seat.new.me ≡ (record seat.old.me.0 { holds = false }, [])) }
    {
        match self.draw(hold, seat) {
            Some(number) => {
                let other = self.part(hold, seat);
                self.put_back_unseen(hold, seat);
                Some((other, number))
            }
            None => {
                self.put_back_unseen(hold, seat);
                None
            }
        }
    }

    // Splits the pass of a seat as soon as the value is at home.
    fn split_in_turn<R: Wait>(&self, rt: &R, seat: &mut PassSeat<B>) -> Option<(PassSeat<B>, u64)>
        requires seat { seat.old.table_id ≡ self.now.table.shared.table_id }
        requires idle { IsIdle seat.old.me }
        requires shares { 2 ≤ seat.old.me.0.shares }
        ensures table { seat.new.table_id ≡ seat.old.table_id }
        ensures ready { IsReadyPass seat.new.me }
        ensures other { IfSome result (λ other. other.0.table_id ≡ seat.old.table_id) }
        ensures fresh { IfSome result (λ other. IsReadyPass other.0.me) }
        ensures number { IfSome result (λ other. other.1 ≡ other.0.me.0.number) }
        ensures parts { IfSome result (λ other. SplitsPass seat.old.me.0 seat.new.me.0 other.0.me.0) }
        ensures none { IfNone result (FindsNoNumber seat.old.me.0 seat.new.me.0) }
    {
        let hold = self.take_out(rt, seat);
        self.split_held(&hold, seat)
    }

    /// Splits off a pass of a number that none had, which has seen as much and has half of the shares, rounded down.
    /// There is none once all numbers were drawn.
    pub fn split_pass<R: Wait>(&self, rt: &R, pass: &mut Pass<B::Entry>) -> Option<Pass<B::Entry>>
        requires pass { IsAmong self.now.table.shared.table_id
            (B.Tie.row.coded.code (B.tie self.now.table.shared.key.value)) pass.old }
        requires shares { 2 ≤ (view_of pass.old).shares }
        ensures pass { IsAmong self.now.table.shared.table_id
            (B.Tie.row.coded.code (B.tie self.now.table.shared.key.value)) pass.new }
        ensures other { IfSome result (IsAmong self.now.table.shared.table_id
            (B.Tie.row.coded.code (B.tie self.now.table.shared.key.value))) }
        ensures parts { IfSome result (λ other. SplitsPass (view_of pass.old) (view_of pass.new) (view_of other)) }
        ensures none { IfNone result (FindsNoNumber (view_of pass.old) (view_of pass.new)) }
    {
        let badge = mem::replace(&mut pass.badge, Badge::blank());
        let mut seat = badge.into_seat::<Option<B>>();
        let split = self.split_in_turn(rt, &mut seat);
        pass.badge = seat.into_badge();
        let (other, number) = split?;
        let half = pass.shares / 2;
        pass.shares -= half;
        Some(Pass {
            badge: other.into_badge(),
            number,
            shares: half,
        })
    }

    /// Takes another pass in, with its shares and counts, and all that it has seen and made.
    pub fn meet_pass(&self, pass: &mut Pass<B::Entry>, other: Pass<B::Entry>)
        requires pass { IsAmong self.now.table.shared.table_id
            (B.Tie.row.coded.code (B.tie self.now.table.shared.key.value)) pass.old }
        requires other { IsAmong self.now.table.shared.table_id
            (B.Tie.row.coded.code (B.tie self.now.table.shared.key.value)) other }
        ensures pass { IsAmong self.now.table.shared.table_id
            (B.Tie.row.coded.code (B.tie self.now.table.shared.key.value)) pass.new }
        ensures meets { MeetsPass (view_of pass.old) (view_of other) (view_of pass.new) }
    {
        let badge = mem::replace(&mut pass.badge, Badge::blank());
        let mut seat = badge.into_seat::<Option<B>>();
        let Pass {
            badge: theirs,
            shares,
            ..
        } = other;
        self.meet(&mut seat, theirs.into_seat::<Option<B>>());
        pass.shares += shares;
        pass.badge = seat.into_badge();
    }

    /// Takes the value out for good: it is tied as the one that was laid down, and its log begins with all that the pass
    /// has seen. Where the pass has all shares the log is that, and what is counted is the pass's own.
    pub fn close<R: Wait>(self, rt: &R, pass: Pass<B::Entry>) -> B
        requires pass { IsAmong self.table.shared.table_id
            (B.Tie.row.coded.code (B.tie self.table.shared.key.value)) pass }
        ensures sound { B.sound result }
        ensures tie { B.tie result ≡ B.tie self.table.shared.key.value }
        ensures log { StartsWith (B.log result) (view_of pass).front }
        ensures faults { (view_of pass).faults ≤ (B.numbers result).faults }
        ensures events { (view_of pass).events ≤ (B.numbers result).events }
        ensures whole { (view_of pass).shares ≡ every → IsWhole B.Logged (view_of pass) result }
    {
        let Pass { badge, .. } = pass;
        let seat = badge.into_seat::<Option<B>>();
        self.into_value(rt, seat)
    }
}
