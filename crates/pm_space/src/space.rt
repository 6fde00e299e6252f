ghost use Rattle.std.specs.Prelude.{◌≡◌, IfOk, OnOk, OnErr, None};
ghost use Rattle.pm_view.specs.Seen.{seen, MayStore};
ghost use Rattle.pm_view.specs.Law.{HeapLaw};
ghost use Rattle.pm_view.specs.Reading.{SourceStands, stored, resolve};
ghost use Rattle.pm_view.specs.Rows.{new_space, spread, HasValue};
ghost use Rattle.pm_view.specs.Counts.{standing, old};
ghost use Rattle.pm_types.specs.Counts.{capped};
ghost use Rattle.pm_space.specs.Shown.{view, LeadsWhereStored, KeepsRest};
ghost use Rattle.pm_space.specs.KeptOnce.{HeapLaw-prop};
ghost use Rattle.pm_space.specs.Quiet.{IsQuiet, IsQuiet-prop};
ghost use Rattle.pm_view.specs.Stale.{IsSole, IsSole-prop};

use crate::links::LinkTable;
use crate::parts::Parts;
use crate::{counting, sources, spreading};
use pm_guard::Guard;
use pm_handles::Handles;
use pm_law_commands::row::{a_new_space_stands_for_nothing, a_source_is_set};
use pm_place::Placement;
use pm_roots::Roots;
use pm_snap::Table;
use pm_trains::Trains;
use pm_types::{Addr, NoMemory, RefSource};
use pm_view::Phase;
use std::alloc::Global;

/// A space of objects, which keeps the heap law at every moment.
#[derive(Drop)]
pub struct Space<F> {
    pub parts: Parts<F>,
    /// So many cars at the front of the train that is drained have no change waiting. Whoever changes the parts makes it
    /// 0, or shows that it is so.
    pub quiet: usize,
    /// While a car is emptied: the one slot of it whose object moved away that a source which the car remembers may
    /// still name; `None` where that is not known. Whoever changes the parts makes it `None`, or shows that it is so.
    pub moved: Option<u32>,
    ghost kept: { HeapLaw (view parts) } by { HeapLaw-prop (view parts) },
    ghost still: { IsQuiet (view parts) quiet } by { IsQuiet-prop (view parts) quiet },
    ghost sole: { IsSole (view parts) moved } by { IsSole-prop (view parts) moved },
}

impl<F: Drop> Space<F> {
    /// A space with this chooser in which nothing was ever made: it has no car, train 1 is open, no name is
    /// bound, every register is empty, and the next identity is 1. Its cars are not frozen.
    pub fn new(alloc: Global, place: Placement<F>) -> Result<Space<F>, NoMemory>
        ensures view { IfOk result (λ space. view space.parts ≡ new_space) }
        ensures frozen { IfOk result (λ space. space.parts.cars.frozen ≡ None) }
        ensures place { IfOk result (λ space. space.parts.place ≡ place) }
    {
        a_new_space_stands_for_nothing();
        let trains = Trains::new(alloc)?;
        let handles = Handles::new(alloc)?;
        Ok(Space {
            parts: Parts {
                cars: Table::new(alloc),
                links: LinkTable::new(alloc),
                trains,
                roots: Roots::new(alloc),
                handles,
                place,
                guard: Guard::new(),
                phase: Phase::Idle,
                next: 1,
                completed: 0,
            },
            quiet: 0,
            moved: None,
        })
    }

    /// Where an address leads: to the new place of the object where it moved away, and else to itself. An
    /// address that a source stores leads to an object that stands.
    pub fn resolve(&self, at: Addr) -> Addr
        ensures place { result ≡ resolve (view self.now.parts) at }
        ensures live { LeadsWhereStored (view self.now.parts) at result }
    {
        sources::resolve(&self.parts.cars, at)
    }

    /// The address that the source stores, or `None` where it is null. The source stands.
    pub fn stored(&self, source: RefSource) -> Option<Addr>
        requires { SourceStands (view self.now.parts) source }
        ensures { result ≡ stored (view self.now.parts) source }
    {
        sources::stored(&self.parts, source)
    }

    /// Sets the source by the write barrier: it stores the address, and each car that hears of that has one
    /// more change waiting. No remembered set is touched, and what is frozen stays. The source stands; the
    /// address is null or that of an object that stands, and not null for a root. After want of memory all
    /// is as it was.
    pub fn spread(&mut self, source: RefSource, to: Option<Addr>) -> Result<(), NoMemory>
        requires stands { SourceStands (view self.old.parts) source }
        requires value { HasValue source to }
        requires target { MayStore (seen (view self.old.parts)) to }
        ensures ok { OnOk result (view self.new.parts ≡ spread (view self.old.parts) source to) }
        ensures err { OnErr result (view self.new.parts ≡ view self.old.parts) }
        ensures rest { KeepsRest self.old.parts self.new.parts }
    {
        a_source_is_set();
        self.quiet = 0;
        self.moved = None;
        spreading::spread(&mut self.parts, source, to)
    }

    /// What the collector is at.
    pub fn phase(&self) -> Phase
        ensures { result ≡ (view self.now.parts).phase }
    {
        self.parts.phase
    }

    /// How many collections were completed.
    pub fn completed(&self) -> u64
        ensures { result ≡ (view self.now.parts).completed }
    {
        self.parts.completed
    }

    /// How many objects stand. It looks at each car once.
    pub fn standing(&self) -> u64
        ensures { result ≡ capped (standing (view self.now.parts)) }
    {
        counting::standing(&self.parts)
    }

    /// How many objects stand in the trains that are numbered up to this one. It looks at each of their cars
    /// once.
    pub fn old(&self, youngest: u64) -> u64
        ensures { result ≡ capped (old (view self.now.parts) youngest) }
    {
        counting::old(&self.parts, youngest)
    }
}
