ghost use Rattle.std.specs.Prelude.{◌≡◌, IfOk, OnOk, OnErr};
ghost use Rattle.std.specs.FinMap as map;
ghost use Rattle.pm_remset.specs.Gathered.{gathered};
ghost use Rattle.pm_remset.specs.Grouped.{HasNoGroup};
ghost use Rattle.pm_remset.specs.Remembered.{FindsLeastOf, FindsAtOrAfter, FindsPassing, AppendsSources};

use crate::entry::Entry;
use crate::group::{group_of, put_in, take_from};
use crate::list::SourceList;
use pm_types::{NoMemory, RefSource};
use std::alloc::Global;
use std::collections::{BTreeMap, BTreeSet};
use std::marker::Model;

/// Many sources in groups, seen as a finite map from sources to the slots that they name. A group stands together in
/// the order of sources, and is a list. A tree has the groups by their names. An index has each slot beside each group
/// with a source that names it.
#[derive(Drop)]
pub(crate) struct SourceTrees {
    groups: BTreeMap<RefSource, SourceList>,
    index: BTreeSet<(u32, RefSource)>,
    count: u64,
    alloc: Global,
}

impl Model for SourceTrees {
    ghost use Rattle.std.specs.Prelude.{ℕ};
    ghost use Rattle.std.specs.FinMap as map;
    ghost use Rattle.std.specs.Coded.{coded_ℕ};
    ghost use Rattle.pm_types.specs.contracts.source.RefSource as source;
    ghost use Rattle.pm_types.specs.Orders.{source_cmp};
    ghost use Rattle.pm_remset.specs.Grouped.{AreGrouped, joined};

    ghost Value = { map.FinMap source_cmp ℕ };

    ghost coded = { map.code source.the_row.coded coded_ℕ };

    ghost view = { λ it. joined it.groups.entries };

    ghost invariant = { λ it. AreGrouped it.groups it.index it.count };
}

impl SourceTrees {
    // No source.
    fn new(alloc: Global) -> SourceTrees
        ensures { result ≡ map.empty }
    {
        SourceTrees {
            groups: BTreeMap::new(alloc),
            index: BTreeSet::new(alloc),
            count: 0,
            alloc,
        }
    }

    /// The set that was told of these sources, each with the slot that it names: of a source that is told
    /// twice the last one counts.
    pub(crate) fn of_told(alloc: Global, told: Vec<Entry>) -> Result<SourceTrees, NoMemory>
        ensures { IfOk result (λ set. set ≡ gathered told.items) }
    {
        let mut set = SourceTrees::new(alloc);
        for entry in told {
            set.put(entry.source(), entry.slot())?;
        }
        Ok(set)
    }

    /// How many sources are remembered.
    pub(crate) fn len(&self) -> u64
        ensures { result ≡ map.len self.now }
    {
        self.count
    }

    // Puts the first source of a group.
    fn put_first(&mut self, source: RefSource, slot: u32) -> Result<(), NoMemory>
        requires { HasNoGroup self.old source }
        ensures ok { OnOk result (self.new ≡ map.insert self.old source slot) }
        ensures err { OnErr result (self.new ≡ self.old) }
    {
        if self.count == u64::MAX {
            return Err(NoMemory::uncountable(self.count));
        }
        let group = group_of(source);
        let mut list = SourceList::new(self.alloc);
        list.put(source, slot)?;
        self.index.insert((slot, group))?;
        match self.groups.insert(group, list) {
            Ok(_) => {
                self.count += 1;
                Ok(())
            }
            Err(failed) => {
                self.index.remove(&(slot, group));
                Err(NoMemory::from(failed))
            }
        }
    }

    /// Remembers that the source names the slot, in place of the slot that it named before. After want of
    /// memory all is as it was.
    pub(crate) fn put(&mut self, source: RefSource, slot: u32) -> Result<(), NoMemory>
        ensures ok { OnOk result (self.new ≡ map.insert self.old source slot) }
        ensures err { OnErr result (self.new ≡ self.old) }
    {
        if self.count == u64::MAX {
            return Err(NoMemory::uncountable(self.count));
        }
        let group = group_of(source);
        let Some(list) = self.groups.get_mut(&group) else {
            return self.put_first(source, slot);
        };
        if put_in(list, &mut self.index, group, source, slot)? {
            self.count += 1;
        }
        Ok(())
    }

    // Lets the group go, if it has no source.
    fn let_go(&mut self, group: RefSource)
        ensures { self.new ≡ self.old }
    {
        let Some(list) = self.groups.get(&group) else {
            return;
        };
        if list.len() == 0 {
            self.groups.remove(&group);
        }
    }

    /// Forgets the source, and answers the slot that it named, or `None` where it was not remembered. It
    /// takes no memory.
    pub(crate) fn take(&mut self, source: RefSource) -> Option<u32>
        ensures value { result ≡ map.get self.old source }
        ensures after { self.new ≡ map.remove self.old source }
    {
        let group = group_of(source);
        let list = self.groups.get_mut(&group)?;
        let named = take_from(list, &mut self.index, group, source)?;
        let was_last = list.len() == 0;
        self.count -= 1;
        if was_last {
            self.let_go(group);
        }
        Some(named)
    }

    /// The least source that names the slot, or `None` where none does.
    pub(crate) fn least_of(&self, slot: u32) -> Option<RefSource>
        ensures { FindsLeastOf self.now slot result }
    {
        match self.index.range((slot, RefSource::Root(0))..).next() {
            Some((found, group)) if *found == slot => self.groups.get(group)?.least_of(slot),
            Some(_) => None,
            None => None,
        }
    }

    /// The least source that is not below this one, and the slot that it names, or `None` where all are
    /// below it.
    pub(crate) fn at_or_after(&self, from: RefSource) -> Option<(RefSource, u32)>
        ensures { FindsAtOrAfter self.now from result }
    {
        for (_name, list) in self.groups.range(group_of(from)..) {
            if let Some(found) = list.at_or_after(from) {
                return Some(found);
            }
        }
        None
    }

    /// The least source at which the test answers true, and the slot that it names, or `None` where it
    /// answers false at all.
    pub(crate) fn next_where<P: Fn(RefSource, u32) -> bool + Drop>(
        &self,
        pass: &P,
    ) -> Option<(RefSource, u32)>
        requires { P.IsAlwaysCallable pass.now }
        ensures { FindsPassing P.Fn pass.now self.now result }
    {
        for (_name, list) in &self.groups {
            if let Some(found) = list.next_where(pass) {
                return Some(found);
            }
        }
        None
    }

    /// Appends the sources that name the slot to the list, in order. After want of memory the list is as
    /// it was.
    pub(crate) fn of_slot(&self, slot: u32, out: &mut Vec<RefSource>) -> Result<(), NoMemory>
        ensures ok { OnOk result (AppendsSources self.now slot out.old.items out.new.items) }
        ensures err { OnErr result (out.new.items ≡ out.old.items) }
    {
        let before = out.len();
        for (found, group) in self.index.range((slot, RefSource::Root(0))..) {
            if *found != slot {
                return Ok(());
            }
            if let Some(list) = self.groups.get(group) {
                if let Err(failed) = list.of_slot(slot, out) {
                    out.truncate(before);
                    return Err(failed);
                }
            }
        }
        Ok(())
    }
}
