ghost use Rattle.std.specs.Prelude.{◌≡◌, ℕ, ◌<◌, ◌≤◌, true, is_some, Some, None, IsSome, IsNone, IfOk, IfSome, IfErr, IsOk, OnOk, OnErr};
ghost use Rattle.std.specs.Borrow.{sem};
ghost use Rattle.std.specs.FinMap as map;
ghost use Rattle.std.specs.FinSet as set;
ghost use Rattle.std.specs.Option.{option_copied};
ghost use Rattle.pm_snap.specs.Snapped.{at_key, is_ready, with_value, without, IsLowestUnused, IsSound};
ghost use Rattle.pm_snap.specs.Kept.{IsNext};
ghost use Rattle.pm_snap.specs.Lending.{lends_value};

use crate::Keep;
use crate::freed::Freed;
use crate::notes::{note, save};
use pm_types::{NoMemory, Numbered};
use std::alloc::Global;
use std::collections::BTreeMap;
use std::marker::Model;

/// A table of values by key, seen as two finite maps, the values now and the values of the moment when
/// the table was frozen, where it is frozen, and beside them the set of the keys that were changed, added
/// or taken since that moment. Keys run from 1.
///
/// A key is ready where the table is not frozen, or where the key was changed, added or taken since: to
/// change or to take its value then succeeds. Only `freeze` ends that.
#[derive(Drop)]
pub struct Table<T> {
    values: Numbered<T>,
    // How many keys are used.
    used: usize,
    // The keys from 1 to below `next` that are not used.
    freed: Freed,
    // The least key that was never passed. It is not used; a key above it may be.
    next: u64,
    // Where the table is frozen: for each key that was changed since, what it held.
    kept: Option<BTreeMap<u64, Option<T>>>,
    alloc: Global,
}

impl<T> Model for Table<T> {
    ghost use Rattle.pm_snap.specs.Snapped.{Snapped, snapped_code};
    ghost use Rattle.pm_snap.specs.Kept.{AreKeysWhole, table_of};

    ghost Value = { Snapped T };

    ghost coded = { snapped_code T.code };

    ghost view = { λ it. table_of it.values it.kept };

    ghost invariant = { λ it. AreKeysWhole it.values it.used it.freed it.next it.kept };
}

// The next key once `key` is used: `next` itself where that is another one, and else the least key above it
// that is not used. `None` where all keys above it are used.
fn next_after<T>(values: &Numbered<T>, next: u64, key: u64) -> Option<u64>
    requires { map.get values.now next ≡ None }
    ensures found { IfSome result (IsNext values.now next key) }
    ensures none { IsNone result → (above : ℕ) → next < above → above ≤ u64.MAX
        → is_some (map.get values.now above) ≡ true }
{
    if key != next {
        return Some(next);
    }
    for below in next..u64::MAX {
        if !values.has(below + 1) {
            return Some(below + 1);
        }
    }
    None
}

// Takes a key that is used from now on out of the freed ones.
fn use_freed(freed: &mut Freed, next: u64, key: u64)
    requires { set.contains freed.old.keys key ≡ true → key < next }
    ensures keys { freed.new.keys ≡ set.remove freed.old.keys key }
    ensures room { freed.old.room ≤ freed.new.room }
{
    if key < next {
        freed.take(key);
    }
}

impl<T: Keep + Drop> Table<T> {
    /// A table with no value, not frozen.
    pub fn new(alloc: Global) -> Self
        ensures current { result.current ≡ map.empty }
        ensures frozen { result.frozen ≡ None }
        ensures changed { result.changed ≡ set.empty }
    {
        Table::expecting(alloc, 0)
    }

    /// The same table, where so many values are to come, in any order of their keys.
    pub fn expecting(alloc: Global, many: usize) -> Self
        ensures current { result.current ≡ map.empty }
        ensures frozen { result.frozen ≡ None }
        ensures changed { result.changed ≡ set.empty }
    {
        Table {
            values: Numbered::expecting(alloc, many),
            used: 0,
            freed: Freed::new(alloc),
            next: 1,
            kept: None,
            alloc,
        }
    }

    /// What holds of a table at every moment: keys are at least 1. It does nothing, and takes no memory.
    pub fn sound(&self)
        ensures { IsSound self.now }
    {
        let _next = self.next;
    }

    /// The value that the key has now.
    pub fn get(&self, key: u64) -> Option<&T>
        ensures { option_copied result ≡ map.get self.now.current key }
    {
        self.values.get(key)
    }

    /// The value that the key had when the table was frozen; `None` also where it is not frozen. It takes
    /// no memory.
    pub fn frozen(&self, key: u64) -> Option<&T>
        ensures { option_copied result ≡ at_key self.now.frozen key }
    {
        let Some(kept) = &self.kept else {
            return None;
        };
        match kept.get(&key) {
            Some(old) => old.as_ref(),
            None => self.values.get(key),
        }
    }

    /// The lowest key from 1 on that is not used now, which `add` gives.
    pub fn vacant(&self) -> u64
        ensures { IsLowestUnused self.now.current result }
    {
        match self.freed.least() {
            Some(key) => key,
            None => self.next,
        }
    }

    /// Gives the value the lowest key from 1 on that is not used now, and answers that key, which is ready
    /// then. What is frozen stays. After want of memory the value comes back, and all is as it was.
    pub fn add(&mut self, value: T) -> Result<u64, (T, NoMemory)>
        ensures lowest { IfOk result (IsLowestUnused self.old.current) }
        ensures ok { IfOk result (λ key. self.new ≡ with_value self.old key value) }
        ensures err { OnErr result (self.new ≡ self.old) }
        ensures given_back { IfErr result (λ back. back.0 ≡ value) }
    {
        let key = self.vacant();
        match self.add_at(key, value) {
            Ok(()) => Ok(key),
            Err(back) => Err(back),
        }
    }

    /// Gives the value this key, which is not used now and is ready then. Keys may be far from each other:
    /// the memory that is taken does not grow with the key. What is frozen stays. After want of memory the
    /// value comes back, and all is as it was.
    pub fn add_at(&mut self, key: u64, value: T) -> Result<(), (T, NoMemory)>
        requires from_one { 0 < key }
        requires unused { map.get self.old.current key ≡ None }
        ensures ok { OnOk result (self.new ≡ with_value self.old key value) }
        ensures err { OnErr result (self.new ≡ self.old) }
        ensures given_back { IfErr result (λ back. back.0 ≡ value) }
    {
        let Some(after) = next_after(&self.values, self.next, key) else {
            // The keys below `next` were all given once, and those above it are all used.
            let given = (self.next - 1) + (u64::MAX - self.next);
            return Err((value, NoMemory::uncountable(given)));
        };
        let Some(used) = self.used.checked_add(1) else {
            return Err((value, NoMemory::uncountable(self.used as u64)));
        };
        if let Err(fault) = self.freed.reserve(used) {
            return Err((value, fault));
        }
        self.values.insert(key, value)?;
        if let Err(fault) = note(&mut self.kept, key, None) {
            let Some(value) = self.values.remove(key) else {
                unreachable!()
            };
            return Err((value, fault));
        }
        use_freed(&mut self.freed, self.next, key);
        self.used = used;
        self.next = after;
        Ok(())
    }

    /// The value of a key that is used now, to be changed; the key is ready then. What is frozen stays. At
    /// a ready key it succeeds and takes no memory; after want of memory all is as it was.
    pub fn change(&mut self, key: u64) -> Result<&mut T, NoMemory>
        requires { IsSome (map.get self.old.current key) }
        ensures* writes_back { sem 𝓛 (lends_value T.row self.entry key result) }
        ensures value { IfOk result (λ lent. map.get self.old.current key ≡ Some lent.now) }
        ensures succeeds { is_ready self.old key ≡ true → IsOk result }
    {
        save(&self.values, &mut self.kept, self.alloc, key)?;
        match self.values.get_mut(key) {
            Some(value) => Ok(value),
            None => unreachable!(),
        }
    }

    /// Takes the value of a key that is used now, which is then not used, and is ready. What is frozen
    /// stays. At a ready key it succeeds and takes no memory; after want of memory all is as it was.
    pub fn remove(&mut self, key: u64) -> Result<T, NoMemory>
        requires { IsSome (map.get self.old.current key) }
        ensures value { IfOk result (λ value. map.get self.old.current key ≡ Some value) }
        ensures ok { OnOk result (self.new ≡ without self.old key) }
        ensures err { OnErr result (self.new ≡ self.old) }
        ensures succeeds { is_ready self.old key ≡ true → IsOk result }
    {
        save(&self.values, &mut self.kept, self.alloc, key)?;
        let Some(value) = self.values.remove(key) else {
            unreachable!()
        };
        self.used -= 1;
        if key < self.next {
            self.freed.put(key);
        }
        Ok(value)
    }

    /// Freezes a table that is not frozen: the values of this moment can be read until it is thawed. The
    /// values now stay, and no key is ready. It takes no memory and no time that grows with the table.
    pub fn freeze(&mut self)
        requires { IsNone self.old.frozen }
        ensures current { self.new.current ≡ self.old.current }
        ensures frozen { self.new.frozen ≡ Some self.old.current }
        ensures changed { self.new.changed ≡ set.empty }
    {
        self.kept = Some(BTreeMap::new(self.alloc));
    }

    /// Lets the frozen values go. The values now stay, and every key is ready. It takes no memory, and time
    /// for the keys that were changed.
    pub fn thaw(&mut self)
        ensures current { self.new.current ≡ self.old.current }
        ensures frozen { self.new.frozen ≡ None }
        ensures changed { self.new.changed ≡ set.empty }
    {
        self.kept = None;
    }
}
