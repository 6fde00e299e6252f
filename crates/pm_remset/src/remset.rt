ghost use Rattle.std.specs.Prelude.{◌≡◌, IfOk, OnOk, OnErr};
ghost use Rattle.std.specs.FinMap as map;
ghost use Rattle.pm_remset.specs.Gathered.{gathered};
ghost use Rattle.pm_remset.specs.Remembered.{FindsLeastOf, FindsAtOrAfter, FindsPassing, AppendsSources};

use crate::entry::Entry;
use crate::list::SourceList;
use crate::trees::SourceTrees;
use pm_types::{NoMemory, RefSource};
use std::alloc::Global;
use std::marker::Model;

// So many sources stand in a list at most.
const FEW: usize = 256;

// Few sources stand in a list, and go into trees once they are more.
#[derive(Drop)]
enum Kept {
    Few(SourceList),
    Many(SourceTrees),
}

/// The sources outside a car that name a slot of it, seen as a finite map from sources to slots.
#[derive(Drop)]
pub struct Remset {
    kept: Kept,
}

impl Model for Remset {
    ghost use Rattle.std.specs.Prelude.{ℕ};
    ghost use Rattle.std.specs.FinMap as map;
    ghost use Rattle.std.specs.Coded.{coded_ℕ};
    ghost use Rattle.pm_types.specs.contracts.source.RefSource as source;
    ghost use Rattle.pm_types.specs.Orders.{source_cmp};
    ghost use Rattle.pm_remset.specs.Kept.{set_of};

    ghost Value = { map.FinMap source_cmp ℕ };

    ghost coded = { map.code source.the_row.coded coded_ℕ };

    ghost view = { λ it. set_of it.kept };
}

impl Remset {
    /// A set in which nothing is remembered.
    pub fn new(alloc: Global) -> Remset
        ensures { result ≡ map.empty }
    {
        Remset {
            kept: Kept::Few(SourceList::new(alloc)),
        }
    }

    /// The set that was told of these sources, each with the slot that it names: of a source that is told
    /// twice the last one counts.
    pub(crate) fn of_told(alloc: Global, told: Vec<Entry>) -> Result<Remset, NoMemory>
        ensures { IfOk result (λ set. set ≡ gathered told.items) }
    {
        let kept = if told.len() <= FEW {
            Kept::Few(SourceList::of_told(alloc, told)?)
        } else {
            Kept::Many(SourceTrees::of_told(alloc, told)?)
        };
        Ok(Remset { kept })
    }

    // Lets the sources stand in trees, where the list of few is full.
    fn make_way(&mut self) -> Result<(), NoMemory>
        ensures { self.new ≡ self.old }
    {
        if let Kept::Few(list) = &self.kept {
            if list.len() >= FEW {
                let trees = list.to_trees()?;
                self.kept = Kept::Many(trees);
            }
        }
        Ok(())
    }

    /// How many sources are remembered.
    pub fn len(&self) -> u64
        ensures { result ≡ map.len self.now }
    {
        match &self.kept {
            Kept::Few(list) => list.len() as u64,
            Kept::Many(trees) => trees.len(),
        }
    }

    /// Remembers that the source names the slot, in place of the slot that it named before. After want of
    /// memory all is as it was.
    pub fn put(&mut self, source: RefSource, slot: u32) -> Result<(), NoMemory>
        ensures ok { OnOk result (self.new ≡ map.insert self.old source slot) }
        ensures err { OnErr result (self.new ≡ self.old) }
    {
        self.make_way()?;
        match &mut self.kept {
            Kept::Few(list) => list.put(source, slot),
            Kept::Many(trees) => trees.put(source, slot),
        }
    }

    /// Forgets the source, and answers the slot that it named, or `None` where it was not remembered. It
    /// takes no memory.
    pub fn take(&mut self, source: RefSource) -> Option<u32>
        ensures value { result ≡ map.get self.old source }
        ensures after { self.new ≡ map.remove self.old source }
    {
        match &mut self.kept {
            Kept::Few(list) => list.take(source),
            Kept::Many(trees) => trees.take(source),
        }
    }

    /// The least source that names the slot, or `None` where none does.
    pub fn least_of(&self, slot: u32) -> Option<RefSource>
        ensures { FindsLeastOf self.now slot result }
    {
        match &self.kept {
            Kept::Few(list) => list.least_of(slot),
            Kept::Many(trees) => trees.least_of(slot),
        }
    }

    /// The least source that is not below this one, and the slot that it names, or `None` where all are
    /// below it.
    pub fn at_or_after(&self, from: RefSource) -> Option<(RefSource, u32)>
        ensures { FindsAtOrAfter self.now from result }
    {
        match &self.kept {
            Kept::Few(list) => list.at_or_after(from),
            Kept::Many(trees) => trees.at_or_after(from),
        }
    }

    /// The least source at which the test answers true, and the slot that it names, or `None` where it
    /// answers false at all.
    pub fn next_where<P: Fn(RefSource, u32) -> bool + Drop>(
        &self,
        pass: P,
    ) -> Option<(RefSource, u32)>
        requires { P.IsAlwaysCallable pass }
        ensures { FindsPassing P.Fn pass self.now result }
    {
        match &self.kept {
            Kept::Few(list) => list.next_where(&pass),
            Kept::Many(trees) => trees.next_where(&pass),
        }
    }

    /// Appends the sources that name the slot to the list, in order. After want of memory the list is as
    /// it was.
    pub fn of_slot(&self, slot: u32, out: &mut Vec<RefSource>) -> Result<(), NoMemory>
        ensures ok { OnOk result (AppendsSources self.now slot out.old.items out.new.items) }
        ensures err { OnErr result (out.new.items ≡ out.old.items) }
    {
        match &self.kept {
            Kept::Few(list) => list.of_slot(slot, out),
            Kept::Many(trees) => trees.of_slot(slot, out),
        }
    }
}
