//! How a catalog is cut into pages: how many entries each page has. The sizes of the entries alone decide.

ghost use Rattle.std.specs.Prelude.{◌≤◌};
ghost use Rattle.pm_types.specs.declared.limits.TheConstants.{PAGE_BYTES};

use crate::progress::place::PlacedCar;
use pm_image::{CAR_ENTRY_BYTES, ENTRIES, ROOT_ENTRY_BYTES};
use pm_law_copies::layout::{cutting_goes_on_at_the_last_page, entries_are_cut_in_one_way};
use pm_types::{Addr, Name, NoMemory, PAGE_BYTES};
use std::alloc::Global;

/// The pages of a catalog whose entries are met one after another.
#[derive(Drop)]
pub struct Counter {
    /// How many entries each page has that is full.
    counts: Vec<usize>,
    /// How many entries the page has that is being filled.
    count: usize,
    /// How many bytes of it are used.
    used: usize,
    ghost few: { count ≤ used },
    ghost fits: { used ≤ PAGE_BYTES },
}

impl Counter {
    ghost use Rattle.std.specs.Prelude.{◌≡◌, ◌+◌, ◌≤◌, List, [], ◌∷◌, ◌++◌, map, IfOk, OnOk};
    ghost use Rattle.pm_image.specs.declared.catalog.CatEntry.{CatEntry};
    ghost use Rattle.pm_image.specs.CatalogPages.{entry_size};
    ghost use Rattle.pm_copies.specs.Plans.{root_entry};
    ghost use Rattle.pm_copies.specs.Cutting.{cut};
    ghost use Rattle.pm_save.specs.Progress.Counted.{IsCounted, CountsOn, MakesRoom, drafted, drafted_entries, lengths};

    /// No entry was met.
    fn new(alloc: Global) -> Counter
        ensures { IsCounted [] result }
    {
        cutting_goes_on_at_the_last_page();
        Counter {
            counts: Vec::new(alloc),
            count: 0,
            used: ENTRIES,
        }
    }

    /// The page that is being filled is full.
    fn end_page(&mut self) -> Result<(), NoMemory>
        ensures counts { OnOk result (self.new.counts.items ≡ self.old.counts.items ++ self.old.count ∷ []) }
        ensures count { OnOk result (self.new.count ≡ 0) }
        ensures used { OnOk result (self.new.used ≡ ENTRIES) }
    {
        self.counts.push(self.count)?;
        self.count = 0;
        self.used = ENTRIES;
        Ok(())
    }

    /// Where the page that is being filled has no room for so many bytes more, the next one is begun.
    fn make_room(&mut self, size: usize) -> Result<(), NoMemory>
        requires { size ≤ 78 }
        ensures roomy { OnOk result (MakesRoom size self.old self.new) }
        ensures room { OnOk result (self.new.used + size ≤ PAGE_BYTES) }
    {
        cutting_goes_on_at_the_last_page();
        if self.used + size > PAGE_BYTES {
            self.end_page()?;
        }
        Ok(())
    }

    /// An entry of so many bytes is met: it goes on the page that is being filled, or on the next one where it has no
    /// room.
    fn put(&mut self, size: usize) -> Result<(), NoMemory>
        requires some { 1 ≤ size }
        requires few { size ≤ 78 }
        ensures { OnOk result ((entry : CatEntry) → size ≡ entry_size entry → CountsOn (entry ∷ []) self.old self.new) }
    {
        self.make_room(size)?;
        self.count += 1;
        self.used += size;
        Ok(())
    }

    /// The entries of these cars are met.
    fn put_cars(&mut self, cars: &[PlacedCar]) -> Result<(), NoMemory>
        ensures { OnOk result (CountsOn (map drafted cars.now) self.old self.new) }
    {
        for _car in cars {
            self.put(CAR_ENTRY_BYTES)?;
        }
        Ok(())
    }

    /// The entries of these roots are met.
    fn put_roots(&mut self, roots: &[(Name, Addr)]) -> Result<(), NoMemory>
        ensures { OnOk result (CountsOn (map root_entry roots.now) self.old self.new) }
    {
        for (name, _) in roots {
            self.put(ROOT_ENTRY_BYTES + name.as_slice().len())?;
        }
        Ok(())
    }

    /// How many entries each page has, once all were met.
    fn end(self) -> Result<Vec<usize>, NoMemory>
        ensures { IfOk result (λ counts. (met : List CatEntry) → IsCounted met self
            → counts.items ≡ lengths (cut met)) }
    {
        entries_are_cut_in_one_way();
        let Counter { counts, count, .. } = self;
        let mut counts = counts;
        counts.push(count)?;
        Ok(counts)
    }

    /// How many entries each page has of the catalog of these cars and roots, the first page first.
    pub fn count_entries(
        alloc: Global,
        cars: &[PlacedCar],
        roots: &[(Name, Addr)],
    ) -> Result<Vec<usize>, NoMemory>
        ensures { IfOk result (λ counts. counts.items ≡ lengths (cut (drafted_entries cars.now roots.now))) }
    {
        let mut counter = Counter::new(alloc);
        counter.put_cars(cars)?;
        counter.put_roots(roots)?;
        counter.end()
    }
}
