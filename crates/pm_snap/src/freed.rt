ghost use Rattle.std.specs.Prelude.{◌≡◌, ℕ, ◌+◌, ◌<◌, ◌≤◌, true, false, IfSome, IfNone, OnOk, slice_index_or};
ghost use Rattle.std.specs.declared.cmp.Reverse.{Reverse};
ghost use Rattle.std.specs.BinaryHeap.{heap_items, heap_len};
ghost use Rattle.std.specs.FinSet as set;
ghost use Rattle.pm_snap.specs.Freed.{IsLeastOf};

use pm_types::NoMemory;
use std::alloc::Global;
use std::cmp::Reverse;
use std::collections::BinaryHeap;
use std::marker::Model;

/// Keys that were given back, seen as a finite set, with the number of keys for which there is room
/// without more memory.
#[derive(Drop)]
pub(crate) struct Freed {
    heap: BinaryHeap<Reverse<u64>>,
}

impl Model for Freed {
    ghost use Rattle.std.specs.Prelude.{◌-◌};
    ghost use Rattle.std.specs.BinaryHeap.{heap_items, heap_len, heap_capacity};
    ghost use Rattle.pm_snap.specs.Freed.{FreedKeys, freed_code, key_set, IsFreed};

    ghost Value = { FreedKeys };

    ghost coded = { freed_code };

    ghost view = { λ it. record { keys = key_set (heap_items it.heap); room = heap_capacity it.heap - heap_len it.heap } };

    ghost invariant = { λ it. IsFreed (heap_items it.heap) };
}

// Whether the key is the first of the heap, and so the least.
fn starts_with(heap: &BinaryHeap<Reverse<u64>>, key: u64) -> bool
    ensures some { result ≡ true → 0 < heap_len heap.now }
    ensures first { (other : Reverse ℕ) → result ≡ true → (slice_index_or (heap_items heap.now) 0 other).0 ≡ key }
{
    match heap.peek() {
        Some(first) => first.0 == key,
        None => false,
    }
}

impl Freed {
    /// No key.
    pub(crate) fn new(alloc: Global) -> Freed
        ensures { result.keys ≡ set.empty }
    {
        Freed {
            heap: BinaryHeap::new(alloc),
        }
    }

    /// Makes room for so many keys more.
    pub(crate) fn reserve(&mut self, count: usize) -> Result<(), NoMemory>
        ensures keys { self.new.keys ≡ self.old.keys }
        ensures room { OnOk result (count ≤ self.new.room) }
        ensures kept { self.old.room ≤ self.new.room }
    {
        self.heap.reserve(count)?;
        Ok(())
    }

    /// The least key, or `None` where there is none.
    pub(crate) fn least(&self) -> Option<u64>
        ensures some { IfSome result (IsLeastOf self.now.keys) }
        ensures none { IfNone result (self.now.keys ≡ set.empty) }
    {
        match self.heap.peek() {
            Some(top) => Some(top.0),
            None => None,
        }
    }

    /// Adds a key for which there is room.
    pub(crate) fn put(&mut self, key: u64)
        requires room { 0 < self.old.room }
        requires new { set.contains self.old.keys key ≡ false }
        ensures keys { self.new.keys ≡ set.insert self.old.keys key }
        ensures room { self.old.room ≤ self.new.room + 1 }
    {
        let Ok(()) = self.heap.push(Reverse(key)) else {
            unreachable!()
        };
    }

    /// Takes the key away, where it is there: at once if it is the least, and else by a walk over all. It
    /// takes no memory.
    pub(crate) fn take(&mut self, key: u64)
        ensures keys { self.new.keys ≡ set.remove self.old.keys key }
        ensures room { self.old.room ≤ self.new.room }
    {
        if starts_with(&self.heap, key) {
            let Some(_) = self.heap.pop() else {
                unreachable!()
            };
        } else {
            self.heap.retain(|freed| freed.0 != key);
        }
    }
}
