ghost use Rattle.std.specs.Prelude.{◌≡◌, [], ◌++◌, length, true, false, is_err, IsErr, OnOk, OnErr, Some};
ghost use Rattle.pm_types.specs.Counts.{Rose};
ghost use Rattle.pm_types.specs.Counts.{raised};
ghost use Rattle.pm_io.specs.Calls.{is_listed};
ghost use Rattle.pm_io.specs.Memory.{after_failed_call, after_refused_growth};

use crate::calls::{begin, raise};
use crate::{Failed, Sink};
use std::alloc::Global;
use std::marker::Model;

/// A sink that keeps its bytes in memory. It fails the calls that it is told to, and those in which
/// memory ran out.
#[derive(Debug, Drop)]
pub struct MemSink {
    written: Vec<u8>,
    finished: usize,
    fails: Vec<u64>,
    calls: u64,
    faults: u64,
    refused: u64,
}

impl Model for MemSink {
    ghost use Rattle.pm_io.specs.Memory.{SinkState};

    ghost Value = { SinkState };

    ghost view = { λ s. record {
      written = s.written.items;
      finished = s.finished;
      fails = s.fails.items;
      calls = s.calls;
      faults = s.faults;
      refused = s.refused;
    } };
}

impl MemSink {
    /// A sink with no bytes. It fails exactly the calls of `put` and `finish` whose number, counted
    /// from 1 over both, is in `fails`, and the calls of `put` in which it was refused memory. `new`
    /// itself takes no memory.
    pub fn new(alloc: Global, fails: Vec<u64>) -> Self
        ensures { result ≡ record {
          written = [];
          finished = 0;
          fails = fails.items;
          calls = 0;
          faults = 0;
          refused = 0;
        } }
    {
        MemSink {
            written: Vec::new(alloc),
            finished: 0,
            fails,
            calls: 0,
            faults: 0,
            refused: 0,
        }
    }

    /// All bytes that were put, lent.
    pub fn written(&self) -> &[u8]
        ensures { result.now ≡ self.now.written }
    {
        &self.written
    }

    /// How many bytes are finished.
    pub fn finished(&self) -> u64
        ensures { result ≡ self.now.finished }
    {
        self.finished as u64
    }

    /// How many growths were refused, in as many calls of `put` that failed for it. The count stays at
    /// 18,446,744,073,709,551,615.
    pub fn refused(&self) -> u64
        ensures { result ≡ self.now.refused }
    {
        self.refused
    }
}

impl Sink for MemSink {
    ghost written = { λ sink. Some sink.written };

    ghost finished = { λ sink. sink.finished };

    ghost count = { λ sink. sink.faults };

    fn put(&mut self, from: &[u8]) -> Result<(), Failed>
        ensures ok { OnOk result (self.new ≡ record self.old {
          written = self.old.written ++ from.now;
          calls = raised self.old.calls;
        }) }

        // A listed call fails, and no other call does but one whose growth was refused. Neither
        // appends anything.
        ensures listed { is_listed self.old.fails self.old.calls ≡ true → IsErr result }
        ensures listed_stays { is_listed self.old.fails self.old.calls ≡ true
            → self.new ≡ after_failed_call self.old }
        ensures refused { OnErr result (is_listed self.old.fails self.old.calls ≡ false
            → self.new ≡ after_refused_growth self.old) }
        ensures refused_rose { OnErr result (is_listed self.old.fails self.old.calls ≡ false
            → Rose self.old.refused self.new.refused) }
        ensures cause { OnErr result (Rose self.old.faults self.new.faults) }
    {
        begin(&mut self.calls, &self.fails, &mut self.faults)?;
        if self.written.extend_from_slice(from).is_err() {
            raise(&mut self.refused);
            raise(&mut self.faults);
            return Err(Failed);
        }
        Ok(())
    }

    fn finish(&mut self) -> Result<(), Failed>
        ensures listed { is_err result ≡ is_listed self.old.fails self.old.calls }
        ensures ok { OnOk result (self.new ≡ record self.old {
          finished = length self.old.written;
          calls = raised self.old.calls;
        }) }
        ensures err { OnErr result (self.new ≡ after_failed_call self.old) }
        ensures cause { OnErr result (Rose self.old.faults self.new.faults) }
    {
        begin(&mut self.calls, &self.fails, &mut self.faults)?;
        self.finished = self.written.len();
        Ok(())
    }

    fn faults(&self) -> u64 {
        self.faults
    }
}
