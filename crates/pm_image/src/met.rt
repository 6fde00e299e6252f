ghost use Rattle.std.specs.Prelude.{◌≡◌, ℕ, ◌<◌, List, OnOk, IfOk, is_some};
ghost use Rattle.std.specs.FinSet as set;
ghost use Rattle.pm_types.specs.declared.limits.TheConstants.{ROOTS};
ghost use Rattle.pm_types.specs.declared.address.Addr.{Addr};
ghost use Rattle.pm_image.specs.declared.catalog.CatEntry.TheVariants.{Root};
ghost use Rattle.pm_image.specs.CatalogPages.{nothing_met, meeting, meeting_next, is_free_page, has_root_left, is_next_name};

use crate::{CatEntry, NumberSet};
use pm_types::{Name, NoMemory, ROOTS};
use std::alloc::Global;
use std::marker::Model;

/// What was met in the catalog of a store, in the order in which it is read.
#[derive(Drop)]
pub struct Met {
    // The numbers of the cars.
    cars: NumberSet,
    // The pages that stand as a catalog page or as a car's page.
    pages: NumberSet,
    // The train of the last car, 0 before the first.
    train: u64,
    // The name of the last root.
    name: Option<Name>,
    // How many roots there were.
    roots: usize,
}

impl Model for Met {
    ghost use Rattle.std.specs.Prelude.{◌≤◌};
    ghost use Rattle.pm_types.specs.declared.limits.TheConstants.{ROOTS};
    ghost use Rattle.pm_image.specs.CatalogPages.{Met as Seen};
    ghost use Rattle.pm_image.specs.Meeting.{met_code, met_of};

    ghost Value = { Seen };

    ghost coded = { met_code };

    ghost view = { λ it. met_of it.cars it.pages it.train it.name it.roots };

    ghost invariant = { λ it. it.roots ≤ ROOTS };
}

impl Met {
    /// Nothing was met.
    pub fn new(alloc: Global) -> Self
        ensures { result ≡ nothing_met }
    {
        Met {
            cars: NumberSet::new(alloc),
            pages: NumberSet::new(alloc),
            train: 0,
            name: None,
            roots: 0,
        }
    }

    /// What was met where a catalog begins, whose first page is this one, counted from 0.
    pub fn beginning_at(alloc: Global, first: u64) -> Result<Met, NoMemory>
        ensures { IfOk result (λ met. met ≡ record nothing_met { pages = set.insert set.empty first }) }
    {
        let mut met = Met::new(alloc);
        met.pages.insert(first)?;
        Ok(met)
    }

    /// A car of this number was met.
    pub(crate) fn has_car(&self, car: u64) -> bool
        ensures { result ≡ set.contains self.now.cars car }
    {
        self.cars.contains(car)
    }

    /// The train of the last car, 0 before the first.
    pub(crate) fn train(&self) -> u64
        ensures { result ≡ self.now.train }
    {
        self.train
    }

    /// A root was met.
    pub(crate) fn has_root(&self) -> bool
        ensures { result ≡ is_some self.now.name }
    {
        self.name.is_some()
    }

    /// The page may stand next in a store of so many pages; without their number any may. It takes no
    /// memory.
    pub(crate) fn is_free_page(&self, count: Option<u64>, page: u64) -> bool
        ensures { result ≡ is_free_page count self.now.pages page }
    {
        match count {
            None => true,
            Some(count) => 2 <= page && page < count && !self.pages.contains(page),
        }
    }

    /// The name comes after that of the last root.
    pub(crate) fn is_next_name(&self, name: &Name) -> bool
        ensures { result ≡ is_next_name self.now.name name.now }
    {
        match &self.name {
            None => true,
            Some(before) => before < name,
        }
    }

    /// One root more is within the limit of a store; a page by itself has none.
    pub(crate) fn has_root_left(&self, count: Option<u64>) -> bool
        ensures { result ≡ has_root_left count self.now.roots }
    {
        match count {
            None => true,
            Some(_) => self.roots < ROOTS,
        }
    }

    /// Meets the next page of the catalog, of which 0 is none. After want of memory some of it may be met.
    pub(crate) fn meet_next(&mut self, next: u64) -> Result<(), NoMemory>
        ensures { OnOk result (self.new ≡ meeting_next self.old next) }
    {
        if next > 0 {
            self.pages.insert(next)?;
        }
        Ok(())
    }

    /// Meets the entry. After want of memory some of it may be met.
    pub(crate) fn meet(&mut self, alloc: Global, entry: &CatEntry) -> Result<(), NoMemory>
        requires { (name : List ℕ) (at : Addr) → entry.now ≡ Root name at → self.old.roots < ROOTS }
        ensures { OnOk result (self.new ≡ meeting self.old entry.now) }
    {
        match entry {
            CatEntry::Car {
                car,
                train,
                page,
                ..
            } => {
                self.cars.insert(*car)?;
                self.pages.insert(*page)?;
                self.train = *train;
            }
            CatEntry::Root { name, .. } => {
                self.name = Some(name.copy(alloc)?);
                self.roots += 1;
            }
        }
        Ok(())
    }
}
