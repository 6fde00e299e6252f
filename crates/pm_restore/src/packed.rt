//! A dump as the cars of a copy.
ghost use Rattle.std.specs.Prelude.{◌≡◌};
ghost use Rattle.pm_restore.specs.Parts.{cars_of_dump};

use crate::Placing;
use crate::beginning::unwritten;
use crate::names::named;
use crate::slots::slots_between;
use pm_dump::Dump;
use pm_graphs::settled::PackedPages;
use pm_save::progress::{CarPage, Frozen, spell};
use pm_save::writer::Writer;
use pm_types::{NoMemory, Slot};
use std::alloc::Global;
use std::marker::Model;

/// A dump as the cars of a copy: which of its objects each car has. A car is made from them each time that it is asked
/// for, and is not kept.
#[derive(Drop)]
pub struct PackedDump<'a> {
    dump: &'a Dump,
    placing: Placing,
}

impl<'a> Model for PackedDump<'a> {
    ghost use Rattle.std.specs.Prelude.{◌≡◌};
    ghost use Rattle.pm_dump.specs.Dump.{Dump as Says};
    ghost use Rattle.pm_dump.specs.Sound.{IsSoundDump};
    ghost use Rattle.pm_restore.specs.Firsts.{firsts_of};

    ghost Value = { Says };

    ghost view = { λ it. it.dump.now };

    ghost invariant = { λ it. IsSoundDump it.dump.now × (it.placing ≡ firsts_of it.dump.now.objects) };
}

impl<'a> PackedDump<'a> {
    ghost use Rattle.std.specs.Prelude.{◌≡◌, IfOk, length};
    ghost use Rattle.std.specs.FinMap.{get};
    ghost use Rattle.pm_dump.specs.Sound.{IsSoundDump};
    ghost use Rattle.pm_saving.specs.Progress.{slots_of};
    ghost use Rattle.pm_restore.specs.Packing.Packing.{packed_cars};
    ghost use Rattle.pm_save.specs.Writer.Shown.{writing};
    ghost use Rattle.pm_restore.specs.Parts.{cars_of_dump};
    ghost use Rattle.pm_restore.specs.Restored.{BeginsDump};

    /// The cars of this dump. Beside it they take 8 bytes a car.
    pub fn new(alloc: Global, dump: &'a Dump) -> Result<PackedDump<'a>, NoMemory>
        requires { IsSoundDump dump.now }
        ensures { IfOk result (λ packed. packed ≡ dump.now) }
    {
        let placing = Placing::of(alloc, dump)?;
        Ok(PackedDump { dump, placing })
    }

    /// How many cars there are: their numbers are 1 and so on.
    pub fn car_count(&self) -> usize
        ensures { result ≡ length (packed_cars self.now) }
    {
        self.placing.car_count()
    }

    /// The slots of the car of this number, none where there is no such car.
    fn slots_in(&self, alloc: Global, number: u64) -> Result<Vec<(u32, Slot)>, NoMemory>
        ensures { IfOk result (λ slots. slots.items ≡ slots_of (get (cars_of_dump self.now) number)) }
    {
        let (from, end) = self.placing.range(self.dump, number);
        let slots = slots_between(alloc, self.dump, &self.placing, from, end)?;
        Ok(slots)
    }

    /// A writer in which the copy of the dump is in progress under number 1, and nothing of it was written.
    pub(crate) fn begin(&self, alloc: Global) -> Result<Writer, NoMemory>
        ensures { IfOk result (λ writer. BeginsDump self.now (writing writer)) }
    {
        let mut writer = Writer::new(PackedPages::from_vec(Vec::new(alloc)));
        let cars = unwritten(alloc, self.car_count())?;
        let roots = named(alloc, self.dump, &self.placing, self.dump.roots())?;
        writer.begin_listed(alloc, cars, roots, self.dump.next(), 1)?;
        Ok(writer)
    }
}

impl<'a> Frozen for PackedDump<'a> {
    ghost cars = { cars_of_dump };

    /// The page of the car of this number, made from its objects.
    fn page(&self, alloc: Global, number: u64) -> Result<CarPage, NoMemory> {
        let slots = self.slots_in(alloc, number)?;
        let page = spell(alloc, number, &slots)?;
        Ok(page)
    }
}
