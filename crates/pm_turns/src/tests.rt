ghost use Rattle.std.specs.Prelude.{◌≡◌, ◌<◌, ◌≤◌};

use crate::{Gate, OpenGate, Turn, Turned, take_turns};
use std::alloc::Global;
use std::sync::atomic::{AtomicU64, Ordering};
use std::{array, thread};

// Counts the turns of each worker. A worker has finished after `each` turns of its own, and all are stopped after `all`
// turns of all together.
#[derive(Drop)]
struct Count {
    name: u64,
    each: u64,
    all: u64,
    total: u64,
    made: [u64; 10],
    told: [u64; 10],
}

impl Count {
    fn new(name: u64, each: u64, all: u64) -> Count
        ensures { result.total ≡ 0 }
    {
        Count {
            name,
            each,
            all,
            total: 0,
            made: [0; 10],
            told: [0; 10],
        }
    }

    // Tells a worker that this is the end. One that goes on all the same is told the other end at last.
    fn end(&mut self, who: usize, turn: Turn) -> Turn
        requires { who < 10 }
        ensures name { self.new.name ≡ self.old.name }
        ensures total { self.new.total ≡ self.old.total }
        ensures all { self.new.all ≡ self.old.all }
    {
        self.told[who] = self.told[who].saturating_add(1);
        if self.told[who] < 4 {
            return turn;
        }
        match turn {
            Turn::Finished => Turn::Stopped,
            Turn::Made | Turn::Stopped => Turn::Finished,
        }
    }
}

impl Turned for Count {
    type Tie = u64;

    ghost tie = { λ count. count.name };

    ghost sound = { λ count. count.total ≤ count.all };

    ghost turn = { λ old new who said. new.total ≤ new.all };

    fn take_turn(&mut self, _alloc: Global, who: u32) -> Turn {
        let who = who as usize;
        if self.total == self.all {
            return self.end(who, Turn::Stopped);
        }
        if self.made[who] >= self.each {
            return self.end(who, Turn::Finished);
        }
        self.total += 1;
        self.made[who] += 1;
        Turn::Made
    }
}

// Holds each worker before its first turn until all ten have come, and behind it until all ten have made theirs. It
// counts the calls for each worker, and those that come out of their order.
#[derive(Drop)]
struct Meeting {
    come: AtomicU64,
    gone: AtomicU64,
    calls: [AtomicU64; 10],
    strays: AtomicU64,
    ran_out: AtomicU64,
}

impl Meeting {
    fn new() -> Meeting {
        Meeting {
            come: AtomicU64::new(0),
            gone: AtomicU64::new(0),
            calls: array::from_fn(|_| AtomicU64::new(0)),
            strays: AtomicU64::new(0),
            ran_out: AtomicU64::new(0),
        }
    }

    // Waits until ten have come here, and for no more than 1,000,000 yields.
    fn hold(&self, here: &AtomicU64) {
        here.fetch_add(1, Ordering::SeqCst);
        for _ in 0..1_000_000 {
            if here.load(Ordering::SeqCst) == 10 {
                return;
            }
            thread::yield_now();
        }
        self.ran_out.fetch_add(1, Ordering::SeqCst);
    }

    // Counts a call of this worker, which is to be this one from 0.
    fn count(&self, who: u32, call: u64) {
        let Some(calls) = self.calls.get(who as usize) else {
            self.strays.fetch_add(1, Ordering::SeqCst);
            return;
        };
        if calls.fetch_add(1, Ordering::SeqCst) != call {
            self.strays.fetch_add(1, Ordering::SeqCst);
        }
    }
}

impl Gate for Meeting {
    fn before(&self, who: u32, index: u64) {
        self.count(who, index.wrapping_mul(2));
        if index == 0 {
            self.hold(&self.come);
        }
    }

    fn after(&self, who: u32, index: u64) {
        self.count(who, index.wrapping_mul(2).wrapping_add(1));
        if index == 0 {
            self.hold(&self.gone);
        }
    }
}

#[test]
fn every_turn_of_every_worker_is_made(rt: HostRuntime) {
    let count = take_turns(&rt, rt.alloc(), Count::new(7, 1000, u64::MAX), &OpenGate);
    assert_eq!(rt; count.made, [1000; 10]);
    assert_eq!(rt; count.told, [1; 10]);
    assert_eq!(rt; count.name, 7);
}

#[test]
fn a_value_that_stops_stops_all_workers(rt: HostRuntime) {
    let count = take_turns(&rt, rt.alloc(), Count::new(8, 1000, 500), &OpenGate);
    assert_eq!(rt; count.total, 500);
    assert_eq!(rt; count.told, [1; 10]);
    assert_eq!(rt; count.name, 8);
}

// All ten are before their first turn at one moment, and behind it at another.
#[test]
fn workers_go_beside_one_another(rt: HostRuntime) {
    let gate = Meeting::new();
    let count = take_turns(&rt, rt.alloc(), Count::new(9, 100, u64::MAX), &gate);
    assert_eq!(rt; gate.ran_out.load(Ordering::SeqCst), 0);
    assert_eq!(rt; gate.strays.load(Ordering::SeqCst), 0);
    for calls in &gate.calls {
        assert_eq!(rt; calls.load(Ordering::SeqCst), 202);
    }
    assert_eq!(rt; count.made, [100; 10]);
}
