ghost use Rattle.std.specs.Prelude.{◌≡◌, ◌+◌, ◌<◌, ◌≤◌, [], ◌∷◌, ◌++◌, length, slice_get, MatchOption, OnOk, None};
ghost use Rattle.std.specs.Option.{option_copied};
ghost use Rattle.pm_delta.specs.Waiting.{room};

use pm_types::{Change, NoMemory};
use std::alloc::Global;
use std::cmp::max;
use std::collections::VecDeque;
use std::marker::Model;

/// The changes that wait, seen as a list, the one that waits longest first, and as the number of changes
/// that can be pushed without taking memory.
#[derive(Drop)]
pub struct Queue {
    changes: VecDeque<Change>,
}

impl Model for Queue {
    ghost use Rattle.std.specs.Prelude.{◌-◌};
    ghost use Rattle.std.specs.VecDeque.{deque_len, deque_capacity};
    ghost use Rattle.pm_delta.specs.Waiting.{Waiting};

    ghost Value = { Waiting };

    ghost view = { λ it. record {
      changes = it.changes.items;
      spare = deque_capacity it.changes - deque_len it.changes;
    } };
}

impl Queue {
    /// A queue in which nothing waits.
    pub fn new(alloc: Global) -> Queue
        ensures { result.changes ≡ [] }
    {
        Queue {
            changes: VecDeque::new(alloc),
        }
    }

    /// How many changes wait.
    pub fn len(&self) -> u64
        ensures { result ≡ length self.now.changes }
    {
        self.changes.len() as u64
    }

    /// Makes room for at least this many more changes. What waits stays, and so does the room that was
    /// taken before, also after want of memory. Where room is taken, it is for a quarter more than waits at
    /// least, and for four: so little of it is left unused, and the changes are moved seldom.
    pub fn reserve(&mut self, n: u64) -> Result<(), NoMemory>
        ensures changes { self.new.changes ≡ self.old.changes }
        ensures spare { OnOk result (n ≤ self.new.spare) }
        ensures kept { self.old.spare ≤ self.new.spare }
    {
        let count = n as usize;
        let waiting = self.changes.len();
        if self.changes.capacity() - waiting < count {
            self.changes.reserve_exact(max(count, max(4, waiting / 4)))?;
        }
        Ok(())
    }

    /// Lets a change wait behind all others, in room that was taken before.
    pub fn push(&mut self, change: Change)
        requires { 0 < self.old.spare }
        ensures changes { self.new.changes ≡ self.old.changes ++ change ∷ [] }
        ensures spare { self.new.spare + 1 ≡ self.old.spare }
    {
        self.changes.push_back_reserved(change);
    }

    /// The change that waits longest, or `None` where none waits. It stays.
    pub fn front(&self) -> Option<&Change>
        ensures { option_copied result ≡ slice_get self.now.changes 0 }
    {
        self.changes.front()
    }

    /// Takes the change that waits longest, or answers `None` where none waits. Its room can be used again.
    pub fn pop(&mut self) -> Option<Change>
        ensures changes { MatchOption result (self.old.changes ≡ [])
            (λ change. self.old.changes ≡ change ∷ self.new.changes) }
        ensures none { result ≡ None → self.new ≡ self.old }
        ensures room { room self.new ≡ room self.old }
    {
        self.changes.pop_front()
    }
}
