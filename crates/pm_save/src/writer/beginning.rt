//! How a copy begins.

ghost use Rattle.std.specs.Prelude.{List, IfOk};
ghost use Rattle.std.specs.List.{AllByRecursion};
ghost use Rattle.pm_image.specs.declared.settled.KeptPage.{KeptPage};
ghost use Rattle.pm_save.specs.Progress.Kept.{IsKept, IsWithin};
ghost use Rattle.pm_save.specs.Writer.Planned.{IsStarted};

use crate::progress::{
    Counter, InProgress, PlacedCar, a_listed_copy_begins_beside_the_settled_one,
};
use crate::writer::Writer;
use pm_types::{Addr, Name, NoMemory};
use std::alloc::Global;

/// A copy of these cars and roots under this number, of which nothing was written. It has room for the pages of its
/// catalog, and for its cars once it is settled.
fn start(
    alloc: Global,
    cars: Vec<PlacedCar>,
    roots: Vec<(Name, Addr)>,
    next_id: u64,
    number: u32,
) -> Result<InProgress, NoMemory>
    ensures started { IfOk result (IsStarted cars.items roots.items next_id number) }
    ensures kept { (settled : List KeptPage)
        → AllByRecursion (λ (one : PlacedCar). IsWithin settled one.place) cars.items
        → IfOk result (IsKept settled) }
{
    let counts = Counter::count_entries(alloc, cars.as_slice(), roots.as_slice())?;
    let pages = Vec::with_capacity(alloc, counts.len())?;
    let room = Vec::with_capacity(alloc, cars.len())?;
    Ok(InProgress {
        number,
        cars,
        placed: 0,
        roots,
        next_id,
        kept: false,
        counts,
        parts: pages,
        digest: [0; 32],
        room,
    })
}

impl Writer {
    ghost use Rattle.std.specs.Prelude.{◌≡◌, ◌<◌, ℕ, List, map, Option, Some, None, IfSome, OnOk, OnErr};
    ghost use Rattle.std.specs.List.{AllByRecursion};
    ghost use Rattle.pm_types.specs.Names.{IsName};
    ghost use Rattle.pm_types.specs.declared.address.Addr.{Addr};
    ghost use Rattle.pm_shadow.specs.State.{State};
    ghost use Rattle.pm_view.specs.View.{Cars};
    ghost use Rattle.pm_copies.specs.Listed.{Listed, copy_listed};
    ghost use Rattle.pm_copies.specs.Accepted.{IsAccepted};
    ghost use Rattle.pm_copies.specs.Plans.{root_entry};
    ghost use Rattle.pm_saving.specs.Progress.{copy_of};
    ghost use Rattle.pm_saving.specs.Beginning.{AreFrozen, BeginsListed};
    ghost use Rattle.pm_saving.specs.Tied.{IsTied};
    ghost use Rattle.pm_save.specs.declared.progress.place.PlacedCar.{PlacedCar};
    ghost use Rattle.pm_save.specs.Progress.Kept.{IsWithin};
    ghost use Rattle.pm_save.specs.Writer.Planned.{IsPlanned};
    ghost use Rattle.pm_save.specs.Writer.Shown.{writing};

    /// Begins a copy of a list of cars, with these roots in ascending order of their names, and this next identity. Each
    /// car was placed before: it is clean, where the settled car of its number has the same content, or still to be
    /// written. It makes no call of the disk. After want of memory all is as it was.
    pub fn begin_listed(
        &mut self,
        alloc: Global,
        cars: Vec<PlacedCar>,
        roots: Vec<(Name, Addr)>,
        next_id: u64,
        number: u32,
    ) -> Result<(), NoMemory>
        requires idle { (writing self.old).progress ≡ None }
        // The settled car of each clean one is there.
        requires within { AllByRecursion (λ (one : PlacedCar). IsWithin (writing self.old).settled one.place)
            cars.items }
        requires names { AllByRecursion (λ (root : List ℕ × Addr). IsName root.0) roots.items }
        // The copy is that of each list whose cars were placed so;
        ensures begun { OnOk result ((list : List Listed) → IsPlanned (writing self.old).settled list cars.items
            → BeginsListed (writing self.old) (writing self.new) list roots.items next_id number) }
        // it is what is listed, by frozen cars among which each listed one is found;
        ensures copy { OnOk result ((list : List Listed) (frozen : Cars)
            → IsPlanned (writing self.old).settled list cars.items → AreFrozen frozen list
            → IfSome (writing self.new).progress (λ progress.
            copy_of frozen progress ≡ copy_listed list (map root_entry roots.items) next_id)) }
        // and what holds between calls holds again, where no rule refuses what is listed, and the number is later than
        // that of the current copy.
        ensures tied { OnOk result ((list : List Listed) (frozen : Cars) (s : State) (contents : Option (List ℕ))
            → IsPlanned (writing self.old).settled list cars.items → AreFrozen frozen list
            → IsAccepted list (map root_entry roots.items) next_id → s.header.epoch < number
            → IsTied (writing self.old) None s contents → IsTied (writing self.new) (Some frozen) s contents) }
        ensures err { OnErr result (writing self.new ≡ writing self.old) }
    {
        a_listed_copy_begins_beside_the_settled_one();
        let progress = start(alloc, cars, roots, next_id, number)?;
        self.progress = Some(progress);
        Ok(())
    }
}
