ghost use Rattle.std.specs.Prelude.{◌≡◌, OnOk, OnErr, IfOk};
ghost use Rattle.std.specs.FinMap as map;

use pm_types::{Id, Name, NoMemory};
use std::alloc::Global;
use std::collections::{BTreeMap, btree_map};
use std::marker::Model;

/// Names and what they stand for, seen as a finite map.
#[derive(Drop)]
pub struct Roots {
    bound: BTreeMap<Name, Id>,
}

impl Model for Roots {
    ghost use Rattle.std.specs.Prelude.{ℕ};
    ghost use Rattle.std.specs.FinMap as map;
    ghost use Rattle.std.specs.Coded.{coded_ℕ, coded_list};
    ghost use Rattle.pm_types.specs.Orders.{name_cmp};

    ghost Value = { map.FinMap name_cmp ℕ };

    ghost coded = { map.code (coded_list coded_ℕ) coded_ℕ };

    ghost view = { λ it. map.from_entries it.bound.entries };
}

impl Roots {
    /// No name is bound.
    pub fn new(alloc: Global) -> Self
        ensures { result ≡ map.empty }
    {
        Roots {
            bound: BTreeMap::new(alloc),
        }
    }

    /// How many names are bound.
    pub fn len(&self) -> usize
        ensures { result ≡ map.len self.now }
    {
        self.bound.len()
    }

    /// What the name stands for.
    pub fn get(&self, name: &Name) -> Option<Id>
        ensures { result ≡ map.get self.now name.now }
    {
        self.bound.get(name).copied()
    }

    /// Goes over the names in the order of their bytes, each with what it stands for.
    pub fn iter(&self) -> btree_map::Iter<'_, Name, Id>
        ensures { result ≡ map.entries self.now }
    {
        self.bound.iter()
    }

    /// What the names stand for, in the order of the names' bytes.
    pub fn ids(&self, alloc: Global) -> Result<Vec<Id>, NoMemory>
        ensures { IfOk result (λ ids. ids.items ≡ map.values self.now) }
    {
        Ok(self.bound.values().copied().collect(alloc)?)
    }

    /// The same names again, each for what it stands for.
    pub fn copy(&self, alloc: Global) -> Result<Roots, NoMemory>
        ensures { IfOk result (λ copied. copied ≡ self.now) }
    {
        let mut copied = Roots::new(alloc);
        for (name, id) in self.bound.iter() {
            copied.bind(name.copy(alloc)?, *id)?;
        }
        Ok(copied)
    }

    /// Binds the name, in place of an earlier binding.
    pub fn bind(&mut self, name: Name, id: Id) -> Result<(), NoMemory>
        ensures ok { OnOk result (self.new ≡ map.insert self.old name id) }
        ensures err { OnErr result (self.new ≡ self.old) }
    {
        self.bound.insert(name, id)?;
        Ok(())
    }

    /// Lets the name be bound to nothing.
    pub fn unbind(&mut self, name: &Name)
        ensures { self.new ≡ map.remove self.old name.now }
    {
        self.bound.remove(name);
    }
}
