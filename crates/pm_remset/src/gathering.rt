ghost use Rattle.std.specs.Prelude.{◌≡◌, IfOk, OnOk, OnErr};
ghost use Rattle.std.specs.FinMap as map;

use crate::Remset;
use crate::entry::Entry;
use pm_types::{NoMemory, RefSource};
use std::alloc::Global;
use std::marker::Model;

/// A remembered set that is still to be made: what it is told is kept in a list, and the set is made of the
/// list at once. It is seen as the set, a finite map from sources to slots.
#[derive(Drop)]
pub struct Gathering {
    told: Vec<Entry>,
}

impl Model for Gathering {
    ghost use Rattle.std.specs.Prelude.{ℕ};
    ghost use Rattle.std.specs.FinMap as map;
    ghost use Rattle.std.specs.Coded.{coded_ℕ};
    ghost use Rattle.pm_types.specs.contracts.source.RefSource as source;
    ghost use Rattle.pm_types.specs.Orders.{source_cmp};
    ghost use Rattle.pm_remset.specs.Gathered.{gathered};

    ghost Value = { map.FinMap source_cmp ℕ };

    ghost coded = { map.code source.the_row.coded coded_ℕ };

    ghost view = { λ it. gathered it.told.items };
}

impl Gathering {
    /// Nothing was told yet.
    pub fn new(alloc: Global) -> Gathering
        ensures { result ≡ map.empty }
    {
        Gathering {
            told: Vec::new(alloc),
        }
    }

    /// Remembers that the source names the slot, in place of the slot that it named before. After want of
    /// memory all is as it was. Each call makes the list longer, also for a source that was told before.
    pub fn put(&mut self, source: RefSource, slot: u32) -> Result<(), NoMemory>
        ensures ok { OnOk result (self.new ≡ map.insert self.old source slot) }
        ensures err { OnErr result (self.new ≡ self.old) }
    {
        self.told.push(Entry::new(source, slot))?;
        Ok(())
    }

    /// The set, made at once. Its time grows with the calls that told it, times the logarithm of their
    /// number.
    ///
    /// # Errors
    ///
    /// `NoMemory` where memory ran out. What was told is gone then.
    pub fn into_set(self, alloc: Global) -> Result<Remset, NoMemory>
        ensures { IfOk result (λ set. set ≡ self) }
    {
        Remset::of_told(alloc, self.told)
    }
}
