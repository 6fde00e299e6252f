ghost use Rattle.std.specs.Prelude.{◌≡◌, IfOk, IfErr, OnOk, OnErr};
ghost use Rattle.std.specs.FinMap as map;
ghost use Rattle.pm_remset.specs.Gathered.{gathered};
ghost use Rattle.pm_remset.specs.Grouped.{names};
ghost use Rattle.pm_remset.specs.Listed.{with_added, IsInOrder, IsEntry, IsGap, IsFirstFrom};
ghost use Rattle.pm_remset.specs.Remembered.{FindsLeastOf, FindsAtOrAfter, FindsPassing, AppendsSources};

use crate::entry::Entry;
use crate::trees::SourceTrees;
use pm_types::{NoMemory, RefSource};
use std::alloc::Global;
use std::marker::Model;

/// Sources in a list, in order, seen as a finite map from sources to the slots that they name. A source is found by
/// halving. One that comes or goes moves those behind it, so the list is for few of them.
#[derive(Drop)]
pub(crate) struct SourceList {
    entries: Vec<Entry>,
}

impl Model for SourceList {
    ghost use Rattle.std.specs.Prelude.{ℕ};
    ghost use Rattle.std.specs.FinMap as map;
    ghost use Rattle.std.specs.Coded.{coded_ℕ};
    ghost use Rattle.pm_types.specs.contracts.source.RefSource as source;
    ghost use Rattle.pm_types.specs.Orders.{source_cmp};
    ghost use Rattle.pm_remset.specs.Grouped.{names};
    ghost use Rattle.pm_remset.specs.Listed.{IsInOrder};

    ghost Value = { map.FinMap source_cmp ℕ };

    ghost coded = { map.code source.the_row.coded coded_ℕ };

    ghost view = { λ it. map.from_entries it.entries.items };

    ghost invariant = { λ it. IsInOrder it.entries.items };
}

// The place of the source's entry, or the place for one. One behind all of them is found at once.
fn search(entries: &[Entry], source: RefSource) -> Result<usize, usize>
    requires { IsInOrder entries.now }
    ensures found { IfOk result (IsEntry entries.now source) }
    ensures absent { IfErr result (IsGap entries.now source) }
{
    if let Some(last) = entries.last() {
        if last.source() < source {
            return Err(entries.len());
        }
    }
    entries.binary_search_by_key(&source, |entry| entry.source())
}

// The place of the first entry whose source is not below this one, or the number of entries.
fn first_from(entries: &[Entry], from: RefSource) -> usize
    requires { IsInOrder entries.now }
    ensures { IsFirstFrom entries.now from result }
{
    match search(entries, from) {
        Ok(at) => at,
        Err(at) => at,
    }
}

impl SourceList {
    /// No source.
    pub(crate) fn new(alloc: Global) -> SourceList
        ensures { result ≡ map.empty }
    {
        SourceList {
            entries: Vec::new(alloc),
        }
    }

    // Puts the entry, if there is none of its source yet.
    fn add(&mut self, entry: Entry) -> Result<(), NoMemory>
        ensures { OnOk result (self.new ≡ with_added self.old entry.0 entry.1) }
    {
        match search(&self.entries, entry.source()) {
            Ok(_) => Ok(()),
            Err(at) => {
                self.entries.insert(at, entry)?;
                Ok(())
            }
        }
    }

    /// The list that was told of these sources, as `SourceTrees::of_told` is told of them. It is made from the last one
    /// on: where they were told in the opposite order, none of them moves.
    pub(crate) fn of_told(alloc: Global, mut told: Vec<Entry>) -> Result<SourceList, NoMemory>
        ensures { IfOk result (λ list. list ≡ gathered told.items) }
    {
        let mut list = SourceList {
            entries: Vec::with_capacity(alloc, told.len())?,
        };
        while let Some(entry) = told.pop() {
            list.add(entry)?;
        }
        Ok(list)
    }

    /// The same sources in trees.
    pub(crate) fn to_trees(&self) -> Result<SourceTrees, NoMemory>
        ensures { IfOk result (λ trees. trees ≡ self.now) }
    {
        let alloc = *self.entries.allocator();
        let mut told = Vec::with_capacity(alloc, self.entries.len())?;
        for entry in &self.entries {
            told.push(Entry::new(entry.source(), entry.slot()))?;
        }
        SourceTrees::of_told(alloc, told)
    }

    /// How many sources there are.
    pub(crate) fn len(&self) -> usize
        ensures { result ≡ map.len self.now }
    {
        self.entries.len()
    }

    /// As of `Remset`.
    pub(crate) fn put(&mut self, source: RefSource, slot: u32) -> Result<(), NoMemory>
        ensures ok { OnOk result (self.new ≡ map.insert self.old source slot) }
        ensures err { OnErr result (self.new ≡ self.old) }
    {
        match search(&self.entries, source) {
            Ok(at) => {
                self.entries[at].set_slot(slot);
                Ok(())
            }
            Err(at) => {
                self.entries.insert(at, Entry::new(source, slot))?;
                Ok(())
            }
        }
    }

    /// Lets the source name the slot, and answers which one it named. After want of memory all is as it was.
    pub(crate) fn exchange(&mut self, source: RefSource, slot: u32) -> Result<Option<u32>, NoMemory>
        ensures old { IfOk result (λ old. old ≡ map.get self.old source) }
        ensures ok { OnOk result (self.new ≡ map.insert self.old source slot) }
        ensures err { OnErr result (self.new ≡ self.old) }
    {
        match search(&self.entries, source) {
            Ok(at) => {
                let old = self.entries[at].slot();
                self.entries[at].set_slot(slot);
                Ok(Some(old))
            }
            Err(at) => {
                self.entries.insert(at, Entry::new(source, slot))?;
                Ok(None)
            }
        }
    }

    /// Whether a source names the slot. Each entry may be looked at.
    pub(crate) fn names(&self, slot: u32) -> bool
        ensures { result ≡ names slot self.now }
    {
        match self.least_of(slot) {
            Some(_) => true,
            None => false,
        }
    }

    /// As of `Remset`.
    pub(crate) fn take(&mut self, source: RefSource) -> Option<u32>
        ensures value { result ≡ map.get self.old source }
        ensures after { self.new ≡ map.remove self.old source }
    {
        match search(&self.entries, source) {
            Ok(at) => {
                let entry = self.entries.remove(at);
                Some(entry.slot())
            }
            Err(_) => None,
        }
    }

    /// As of `Remset`. Each entry may be looked at.
    pub(crate) fn least_of(&self, slot: u32) -> Option<RefSource>
        ensures { FindsLeastOf self.now slot result }
    {
        for entry in &self.entries {
            if entry.slot() == slot {
                return Some(entry.source());
            }
        }
        None
    }

    /// As of `Remset`.
    pub(crate) fn at_or_after(&self, from: RefSource) -> Option<(RefSource, u32)>
        ensures { FindsAtOrAfter self.now from result }
    {
        let at = first_from(&self.entries, from);
        if at < self.entries.len() {
            let entry = &self.entries[at];
            Some((entry.source(), entry.slot()))
        } else {
            None
        }
    }

    /// As of `Remset`.
    pub(crate) fn next_where<P: Fn(RefSource, u32) -> bool + Drop>(
        &self,
        pass: &P,
    ) -> Option<(RefSource, u32)>
        requires { P.IsAlwaysCallable pass.now }
        ensures { FindsPassing P.Fn pass.now self.now result }
    {
        for entry in &self.entries {
            let source = entry.source();
            let slot = entry.slot();
            if pass(source, slot) {
                return Some((source, slot));
            }
        }
        None
    }

    /// As of `Remset`. Each entry is looked at.
    pub(crate) fn of_slot(&self, slot: u32, out: &mut Vec<RefSource>) -> Result<(), NoMemory>
        ensures ok { OnOk result (AppendsSources self.now slot out.old.items out.new.items) }
        ensures err { OnErr result (out.new.items ≡ out.old.items) }
    {
        let before = out.len();
        for entry in &self.entries {
            if entry.slot() != slot {
                continue;
            }
            if let Err(failed) = out.push(entry.source()) {
                out.truncate(before);
                return Err(NoMemory::from(failed));
            }
        }
        Ok(())
    }
}
