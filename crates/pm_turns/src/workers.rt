ghost use Rattle.std.specs.Prelude.{◌≡◌, ◌<◌, ◌≤◌, ◌+◌, ◌-◌};
ghost use Rattle.std.specs.Thread.{IsSync};
ghost use Rattle.pm_turns.specs.declared.limits.TheConstants.{WORKERS};
ghost use Rattle.pm_turns.specs.Rule.{IsIdle, TakesTurn, HaveTurns};

use crate::home::{Home, HomeSeat};
use crate::{Gate, Turn, Turned, WORKERS};
use std::alloc::Global;
use std::sync::Wait;
use std::thread::{Threads, join};

// A turn of this worker, with its gate round it: its turn of this number, from 0.
fn turn_at<B: Turned + Drop, G: Gate, R: Wait>(
    rt: &R,
    alloc: Global,
    home: &Home<B>,
    gate: &G,
    seat: &mut HomeSeat<B>,
    who: u32,
    index: u64,
) -> Turn
    requires who { who < WORKERS }
    requires seat { seat.old.table_id ≡ home.now.table.shared.table_id }
    requires idle { IsIdle seat.old.me }
    ensures table { seat.new.table_id ≡ seat.old.table_id }
    ensures same { seat.new.me ≡ seat.old.me }
    ensures does { TakesTurn B.tie B.sound B.turn who seat.old.me.0 result }
{
    gate.before(who, index);
    let turn = home.take_turn(rt, alloc, seat, who);
    gate.after(who, index);
    turn
}

// The turns of one worker, each with its gate round it, until it is told that it has finished or all have stopped. It
// answers what came of the last one.
fn work<B: Turned + Drop, G: Gate, R: Wait>(
    rt: &R,
    alloc: Global,
    home: &Home<B>,
    gate: &G,
    seat: &mut HomeSeat<B>,
    who: u32,
) -> Turn
    requires who { who < WORKERS }
    requires seat { seat.old.table_id ≡ home.now.table.shared.table_id }
    requires idle { IsIdle seat.old.me }
    ensures table { seat.new.table_id ≡ seat.old.table_id }
    ensures same { seat.new.me ≡ seat.old.me }
    ensures last { TakesTurn B.tie B.sound B.turn who seat.old.me.0 result }
{
    let mut turn = turn_at(rt, alloc, home, gate, seat, who, 0);
    for index in 1..u64::MAX {
        match turn {
            Turn::Made => turn = turn_at(rt, alloc, home, gate, seat, who, index),
            Turn::Finished | Turn::Stopped => break,
        }
    }
    turn
}

// The workers from `first` on, `count` of them, each in a thread of its own. Each has had a turn of its own, and their
// seats come back as one.
fn spread<B: Turned + Drop + Send, G: Gate + Sync, R: Threads + Wait + Sync>(
    rt: &R,
    alloc: Global,
    home: &Home<B>,
    gate: &G,
    mut seat: HomeSeat<B>,
    first: u32,
    count: u32,
) -> HomeSeat<B>
    requires some { 0 < count }
    requires who { first + count ≤ WORKERS }
    requires seat { seat.table_id ≡ home.now.table.shared.table_id }
    requires idle { IsIdle seat.me }
    ensures table { result.table_id ≡ seat.table_id }
    ensures same { result.me ≡ seat.me }
    ensures each { HaveTurns B.tie B.sound B.turn first count seat.me.0 }
{
    if count == 1 {
        work(rt, alloc, home, gate, &mut seat, first);
        return seat;
    }
    let half = count / 2;
    let other = home.split_seat(&mut seat);
    let (mut seat, other) = join(
        rt,
        || -> HomeSeat<B>
            requires crosses { IsSync R.row }
            requires who { (0 < half) × (first + half ≤ WORKERS) }
            requires seat { seat.table_id ≡ home.now.table.shared.table_id }
            requires idle { IsIdle seat.me }
            ensures table { result.table_id ≡ seat.table_id }
            ensures same { result.me ≡ seat.me }
            ensures each { HaveTurns B.tie B.sound B.turn first half seat.me.0 }
        { spread(rt, alloc, home, gate, seat, first, half) },
        || -> HomeSeat<B>
            requires crosses { IsSync R.row }
            requires who { (half < count) × (first + count ≤ WORKERS) }
            requires seat { other.table_id ≡ home.now.table.shared.table_id }
            requires idle { IsIdle other.me }
            ensures table { result.table_id ≡ other.table_id }
            ensures same { result.me ≡ other.me }
            ensures each { HaveTurns B.tie B.sound B.turn (first + half) (count - half) other.me.0 }
        { spread(rt, alloc, home, gate, other, first + half, count - half) },
    );
    home.join_seat(&mut seat, other);
    seat
}

/// Workers take turns at the value, each in a thread of its own and each with the value's lock held for one turn, until
/// none has a turn left or the value takes no more. Where there is no memory for this the value comes back as it was.
///
/// Waits for the threads. Where none can be made the workers go one after another.
pub fn take_turns<B: Turned + Drop + Send, G: Gate + Sync, R: Threads + Wait + Sync>(
    rt: &R,
    alloc: Global,
    value: B,
    gate: &G,
) -> B
    requires { B.sound value }
    ensures sound { B.sound result }
    ensures tie { B.tie result ≡ B.tie value }
{
    match Home::new(alloc, value) {
        Ok((home, seat)) => {
            let seat = spread(rt, alloc, &home, gate, seat, 0, WORKERS);
            home.into_value(rt, seat)
        }
        Err(value) => value,
    }
}
