ghost use Rattle.std.specs.Prelude.{◌≡◌, ◌<◌, [], ◌∷◌, ◌++◌, min, length, take, drop, true, false, IsErr, IfOk, OnOk, OnErr, Some};
ghost use Rattle.pm_types.specs.Counts.{Rose, raised};
ghost use Rattle.pm_io.specs.Calls.{is_listed};
ghost use Rattle.pm_peer.specs.declared.said.Said.TheVariants.{Told};
ghost use Rattle.pm_peer.specs.Talk.{heard_more};
ghost use Rattle.pm_peer.specs.Memory.{after_failed_call, after_refused_growth};

use crate::calls::{begin, raise};
use crate::{Peer, Said};
use pm_io::Failed;
use pm_types::{Bytes, NoMemory};
use std::alloc::Global;
use std::marker::Model;

/// A peer in memory. It gives its bytes in pieces, keeps what was said, and fails the calls that it is told to, and those
/// in which memory ran out.
#[derive(Debug, Drop)]
pub struct MemPeer {
    alloc: Global,
    bytes: Vec<u8>,
    at: usize,
    piece: usize,
    talk: Vec<Said>,
    fails: Vec<u64>,
    calls: u64,
    faults: u64,
    refused: u64,
}

impl Model for MemPeer {
    ghost use Rattle.std.specs.Prelude.{◌<◌, ◌≤◌, length, drop};
    ghost use Rattle.pm_peer.specs.Memory.{PeerState};

    ghost Value = { PeerState };

    ghost view = { λ p. record {
      left = drop p.at p.bytes.items;
      piece = p.piece;
      talk = p.talk.items;
      fails = p.fails.items;
      calls = p.calls;
      faults = p.faults;
      refused = p.refused;
    } };

    ghost invariant = { λ p. (p.at ≤ length p.bytes.items) × (0 < p.piece) };
}

// These bytes again, in a vector of their own.
fn copied(alloc: Global, bytes: &[u8]) -> Result<Bytes, NoMemory>
    ensures { IfOk result (λ copied. copied ≡ bytes.now) }
{
    Ok(Bytes::from_vec(bytes.to_vec(alloc)?))
}

// Notes that these bytes were heard, where there are any.
fn note_heard(alloc: Global, talk: &mut Vec<Said>, bytes: &[u8]) -> Result<(), NoMemory>
    ensures ok { OnOk result (talk.new.items ≡ heard_more talk.old.items bytes.now) }
    ensures err { OnErr result (talk.new.items ≡ talk.old.items) }
{
    if bytes.is_empty() {
        return Ok(());
    }
    let bytes = copied(alloc, bytes)?;
    talk.push(Said::Heard(bytes))?;
    Ok(())
}

// Notes that a line was told.
fn note_told(alloc: Global, talk: &mut Vec<Said>, line: &[u8]) -> Result<(), NoMemory>
    ensures ok { OnOk result (talk.new.items ≡ talk.old.items ++ Told line.now ∷ []) }
    ensures err { OnErr result (talk.new.items ≡ talk.old.items) }
{
    let line = copied(alloc, line)?;
    talk.push(Said::Told(line))?;
    Ok(())
}

impl MemPeer {
    /// A peer with these bytes, in pieces of at most `piece` bytes a call, at least 1. It fails exactly the calls of `hear`
    /// and `tell` whose number, counted from 1 over both, is in `fails`, and those in which it was refused memory. `new`
    /// itself takes no memory.
    pub fn new(alloc: Global, bytes: Vec<u8>, piece: usize, fails: Vec<u64>) -> Self
        requires { 0 < piece }
        ensures { result ≡ record {
          left = bytes.items;
          piece = piece;
          talk = [];
          fails = fails.items;
          calls = 0;
          faults = 0;
          refused = 0;
        } }
    {
        MemPeer {
            alloc,
            bytes,
            at: 0,
            piece,
            talk: Vec::new(alloc),
            fails,
            calls: 0,
            faults: 0,
            refused: 0,
        }
    }

    /// What was said so far, oldest first, lent.
    pub fn talk(&self) -> &[Said]
        ensures { result.now ≡ self.now.talk }
    {
        &self.talk
    }

    /// How many growths were refused, in as many calls that failed for it. The count stays at
    /// 18,446,744,073,709,551,615.
    pub fn refused(&self) -> u64
        ensures { result ≡ self.now.refused }
    {
        self.refused
    }
}

impl Peer for MemPeer {
    ghost left = { λ peer. Some peer.left };

    ghost talk = { λ peer. Some peer.talk };

    ghost count = { λ peer. peer.faults };

    fn hear(&mut self, into: &mut [u8]) -> Result<usize, Failed>
        // What an `Ok` gives: as much as the piece, the room and the bytes that are left allow.
        ensures number { IfOk result
            (λ n. n ≡ min self.old.piece (min (length into.old) (length self.old.left))) }
        ensures moved { IfOk result (λ n. into.new ≡ take n self.old.left ++ drop n into.old) }
        ensures rest { IfOk result (λ n. self.new ≡ record self.old {
          left = drop n self.old.left;
          talk = heard_more self.old.talk (take n self.old.left);
          calls = raised self.old.calls;
        }) }
        ensures end { IfOk result (λ n. n ≡ 0 → 0 < length into.old → self.old.left ≡ []) }

        // A listed call fails, and no other call does but one whose growth was refused. Neither takes anything.
        ensures room_stays { OnErr result (into.new ≡ into.old) }
        ensures listed { is_listed self.old.fails self.old.calls ≡ true → IsErr result }
        ensures listed_stays { is_listed self.old.fails self.old.calls ≡ true
            → self.new ≡ after_failed_call self.old }
        ensures refused { OnErr result (is_listed self.old.fails self.old.calls ≡ false
            → self.new ≡ after_refused_growth self.old) }
        ensures cause { OnErr result (Rose self.old.faults self.new.faults) }
    {
        begin(&mut self.calls, &self.fails, &mut self.faults)?;
        let left = &self.bytes[self.at..];
        let n = self.piece.min(into.len()).min(left.len());
        if note_heard(self.alloc, &mut self.talk, &left[..n]).is_err() {
            raise(&mut self.refused);
            raise(&mut self.faults);
            return Err(Failed);
        }
        into[..n].copy_from_slice(&left[..n]);
        self.at += n;
        Ok(n)
    }

    fn tell(&mut self, line: &[u8]) -> Result<(), Failed>
        ensures ok { OnOk result (self.new ≡ record self.old {
          talk = self.old.talk ++ Told line.now ∷ [];
          calls = raised self.old.calls;
        }) }

        // A listed call fails, and no other call does but one whose growth was refused. Neither tells anything.
        ensures listed { is_listed self.old.fails self.old.calls ≡ true → IsErr result }
        ensures listed_stays { is_listed self.old.fails self.old.calls ≡ true
            → self.new ≡ after_failed_call self.old }
        ensures refused { OnErr result (is_listed self.old.fails self.old.calls ≡ false
            → self.new ≡ after_refused_growth self.old) }
        ensures cause { OnErr result (Rose self.old.faults self.new.faults) }
    {
        begin(&mut self.calls, &self.fails, &mut self.faults)?;
        if note_told(self.alloc, &mut self.talk, line).is_err() {
            raise(&mut self.refused);
            raise(&mut self.faults);
            return Err(Failed);
        }
        Ok(())
    }

    fn faults(&self) -> u64 {
        self.faults
    }
}
