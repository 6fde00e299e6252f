ghost use Rattle.std.specs.Prelude.{◌≡◌, ◌<◌, [], ◌++◌, min, length, take, drop, is_err, IfOk, OnErr, Some};
ghost use Rattle.pm_types.specs.Counts.{Rose};
ghost use Rattle.pm_types.specs.Counts.{raised};
ghost use Rattle.pm_io.specs.Calls.{is_listed};
ghost use Rattle.pm_io.specs.Memory.{after_failed_take};

use crate::calls::begin;
use crate::{Failed, Source};
use std::marker::Model;

/// A source over bytes in memory. It gives them in pieces, and fails the calls that it is told to.
#[derive(Debug, Drop)]
pub struct MemSource {
    bytes: Vec<u8>,
    at: usize,
    piece: usize,
    fails: Vec<u64>,
    calls: u64,
    faults: u64,
}

impl Model for MemSource {
    ghost use Rattle.std.specs.Prelude.{◌<◌, ◌≤◌, length, drop};
    ghost use Rattle.pm_io.specs.Memory.{SourceState};

    ghost Value = { SourceState };

    ghost view = { λ s. record {
      left = drop s.at s.bytes.items;
      piece = s.piece;
      fails = s.fails.items;
      calls = s.calls;
      faults = s.faults;
    } };

    ghost invariant = { λ s. (s.at ≤ length s.bytes.items) × (0 < s.piece) };
}

impl MemSource {
    /// These bytes, in pieces of at most `piece` bytes a call, at least 1. It fails exactly the calls
    /// of `take` whose number, counted from 1, is in `fails`.
    pub fn new(bytes: Vec<u8>, piece: usize, fails: Vec<u64>) -> Self
        requires { 0 < piece }
        ensures { result ≡ record {
          left = bytes.items;
          piece = piece;
          fails = fails.items;
          calls = 0;
          faults = 0;
        } }
    {
        MemSource {
            bytes,
            at: 0,
            piece,
            fails,
            calls: 0,
            faults: 0,
        }
    }
}

impl Source for MemSource {
    ghost left = { λ source. Some source.left };

    ghost count = { λ source. source.faults };

    fn take(&mut self, into: &mut [u8]) -> Result<usize, Failed>
        ensures listed { is_err result ≡ is_listed self.old.fails self.old.calls }

        // What an `Ok` gives: as much as the piece, the room and the bytes that are left allow.
        ensures number { IfOk result
            (λ n. n ≡ min self.old.piece (min (length into.old) (length self.old.left))) }
        ensures moved { IfOk result (λ n. into.new ≡ take n self.old.left ++ drop n into.old) }
        ensures rest { IfOk result (λ n. self.new ≡ record self.old {
          left = drop n self.old.left;
          calls = raised self.old.calls;
        }) }
        ensures end { IfOk result (λ n. n ≡ 0 → 0 < length into.old → self.old.left ≡ []) }

        // A call that fails takes nothing.
        ensures room_stays { OnErr result (into.new ≡ into.old) }
        ensures counted { OnErr result (self.new ≡ after_failed_take self.old) }
        ensures cause { OnErr result (Rose self.old.faults self.new.faults) }
    {
        begin(&mut self.calls, &self.fails, &mut self.faults)?;
        let left = &self.bytes[self.at..];
        let n = self.piece.min(into.len()).min(left.len());
        into[..n].copy_from_slice(&left[..n]);
        self.at += n;
        Ok(n)
    }

    fn faults(&self) -> u64 {
        self.faults
    }
}
