//! A gate at which four workers meet.

use pm_turns::Gate;
use std::sync::atomic::{AtomicU64, Ordering};
use std::thread;

// How often a worker that is held gives up the processor, at most.
const TURNS: u32 = 1_000_000;

/// Holds clients 0 and 1, the collector and the flusher before their first turns, until all four have come. Then it
/// holds client 0 before its second turn until client 1 has ended its second, and client 1 before its third until client
/// 0 has ended its second. It counts the turns, and the holds that ran out.
#[derive(Drop)]
pub(crate) struct Meeting {
    come: AtomicU64,
    one: AtomicU64,
    zero: AtomicU64,
    begun: AtomicU64,
    ended: AtomicU64,
    ran_out: AtomicU64,
}

impl Meeting {
    pub(crate) fn new() -> Meeting {
        Meeting {
            come: AtomicU64::new(0),
            one: AtomicU64::new(0),
            zero: AtomicU64::new(0),
            begun: AtomicU64::new(0),
            ended: AtomicU64::new(0),
            ran_out: AtomicU64::new(0),
        }
    }

    // Waits until so many have come here, for `TURNS` turns at most.
    fn hold(&self, here: &AtomicU64, wanted: u64) {
        for _ in 0..TURNS {
            if here.load(Ordering::SeqCst) >= wanted {
                return;
            }
            thread::yield_now();
        }
        self.ran_out.fetch_add(1, Ordering::SeqCst);
    }

    /// How many turns were begun, how many ended, and how many holds ran out.
    pub(crate) fn counts(&self) -> (u64, u64, u64) {
        (
            self.begun.load(Ordering::SeqCst),
            self.ended.load(Ordering::SeqCst),
            self.ran_out.load(Ordering::SeqCst),
        )
    }
}

impl Gate for Meeting {
    fn before(&self, who: u32, index: u64) {
        self.begun.fetch_add(1, Ordering::SeqCst);
        match (who, index) {
            (0 | 1 | 8 | 9, 0) => {
                self.come.fetch_add(1, Ordering::SeqCst);
                self.hold(&self.come, 4);
            }
            (0, 1) => self.hold(&self.one, 1),
            (1, 2) => self.hold(&self.zero, 1),
            _ => {}
        }
    }

    fn after(&self, who: u32, index: u64) {
        self.ended.fetch_add(1, Ordering::SeqCst);
        let there = match (who, index) {
            (1, 1) => &self.one,
            (0, 1) => &self.zero,
            _ => return,
        };
        there.fetch_add(1, Ordering::SeqCst);
    }
}
