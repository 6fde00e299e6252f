//! The engine with a nursery: what it keeps, and what it tells.

ghost use Rattle.std.specs.Prelude.{◌≡◌, ◌≤◌, [], None};
ghost use Rattle.pm_space.specs.Shown.{view};
ghost use Rattle.pm_engine.specs.Works.Working.{disk_at, past_in, view_in};
ghost use Rattle.pm_engine.specs.Works.Seen.{IsCrashSafe};
ghost use Rattle.pm_young.specs.Entering.{KeepsEntered};
ghost use Rattle.pm_young.specs.Halts.{stopped_by};
ghost use Rattle.pm_young.specs.Kept.{StandsYoung};

use crate::halt::Halt;
use crate::tally::YoungTally;
use pm_disk::Disk;
use pm_engine::works::{Start, Works};
use pm_nursery::Nursery;
use pm_space::Space;
use pm_types::{Entry, Id, NoMemory};
use std::snapshot::Snapshot;

/// What an engine works with, and a nursery: objects that no name and no object in a car names yet, and the registers
/// that hold one. The space stands for less than the world at the journal's end: for the world within, without the
/// young objects. Once a call has answered that the disk failed or that memory ran out, every further one answers
/// `Reopen`: the store has to be opened again. Its journal and what a crash leaves are sound also then.
#[derive(Drop)]
pub struct YoungEngine<D: Disk, F> {
    pub(crate) works: Works<D, F>,
    pub(crate) opening: Start<D, F>,
    pub(crate) nursery: Nursery,
    /// The identities of the objects that came into a car since the opening, in their order.
    pub(crate) entered: Vec<Id>,
    /// The first call that answered that the disk failed, or that memory ran out.
    pub(crate) halted: Option<Halt>,
    ghost safe: { ∥ IsCrashSafe opening (stopped_by halted) works ∥₁ },
    ghost within: { halted ≡ None → ∥ StandsYoung opening works nursery ∥₁ },
    ghost comes_in: { ∥ KeepsEntered (view opening.space.value.parts) (view_in works) nursery entered.items ∥₁ },
    ghost counted: { opening.count ≤ D.count (disk_at works) },
    ghost whole: { past_in works ≡ [] },
}

impl<D: Disk, F: Drop> YoungEngine<D, F> {
    ghost use Rattle.std.specs.Prelude.{◌≡◌, ◌⊎◌, ◌≤◌, ◌<◌, ℕ, List, length, None, IsSome, OnOk, OnErr};
    ghost use Rattle.std.specs.FinMap.{get, len};
    ghost use Rattle.pm_model.specs.Reachability.{IsReachable};
    ghost use Rattle.pm_view.specs.Represents.{IsHeld};
    ghost use Rattle.pm_model.specs.Closed.{IsClosed};
    ghost use Rattle.pm_model.specs.Journal.{IsLegal};
    ghost use Rattle.pm_saving.specs.Serving.{opening, world};
    ghost use Rattle.pm_saving.specs.Images.{IsCopyInProgress, IsSettledCopy, IsTold, KeepsImages};
    ghost use Rattle.pm_view.specs.Counts.{IsStanding, standing};
    ghost use Rattle.pm_types.specs.Counts.{capped};
    ghost use Rattle.pm_young.specs.Seen.{KeepsStart, KeepsYoung, disk_in, entered_in, halt_in};
    ghost use Rattle.pm_young.specs.Seen.{opened_count, opened_disk, room, serving, young_in};
    ghost use Rattle.pm_young.specs.Seen.{young_tally_in, young_tally_of};
    ghost use Rattle.pm_young.specs.Halts.{IsForDisk, IsForMemory};
    ghost use Rattle.pm_young.specs.Kept.{IsYoungPart};
    ghost use Rattle.pm_space.specs.Shown.{view};

    /// What was asked and answered since the opening, in order.
    pub fn journal(&self) -> &[Entry]
        ensures { result.now ≡ (serving self.now).journal }
    {
        self.works.journal.as_slice()
    }

    /// How many events were made: sweeps, commands, events of the collector and flush events that were answered Ok.
    pub fn events(&self) -> u64
        ensures { result ≡ (serving self.now).events }
    {
        self.works.events
    }

    /// How many events of the collector were made.
    pub fn steps(&self) -> u64
        ensures { result ≡ (serving self.now).steps }
    {
        self.works.steps
    }

    /// How many collections were completed.
    pub fn completed(&self) -> u64
        ensures { result ≡ (serving self.now).view.completed }
    {
        self.works.space.completed()
    }

    /// How many objects stand in cars. It looks at each car once.
    pub fn standing(&self) -> u64
        ensures { result ≡ capped (standing (serving self.now).view) }
    {
        self.works.space.standing()
    }

    /// How many objects are young, at most 256.
    pub fn young(&self) -> u64
        ensures { result ≡ len (young_in self.now).objects }
    {
        self.nursery.len() as u64
    }

    /// The identities of the objects that came into a car since the opening, in their order.
    pub fn entered(&self) -> &[Id]
        ensures { result.now ≡ entered_in self.now }
    {
        self.entered.as_slice()
    }

    /// Makes room for so many further entries of the journal, so that they take no memory. Where memory runs out all is
    /// as it was, and no call is halted by it.
    pub fn reserve_entries(&mut self, n: u64) -> Result<(), NoMemory>
        ensures serving { serving self.new ≡ serving self.old }
        ensures young { KeepsYoung self.old self.new }
        ensures disk { disk_in self.new ≡ disk_in self.old }
        ensures start { KeepsStart self.old self.new }
        ensures room { OnOk result (n ≤ room self.new) }
        // There is room for as many as before; where it fails so many had no room, and as many have as before.
        ensures grows { room self.old ≤ room self.new }
        ensures full { OnErr result (room self.old < n) }
        ensures err { OnErr result (room self.new ≡ room self.old) }
    {
        self.works.journal.reserve(n as usize)?;
        Ok(())
    }

    /// The disk, the journal, what the engine came to, and its heap. What is young is dropped. To drop the heap takes time
    /// for each of its objects, so a caller whose process ends may leave it.
    pub fn into_parts(self) -> (D, Vec<Entry>, YoungTally, Space<F>)
        ensures disk { result.0 ≡ disk_in self }
        ensures journal { result.1.items ≡ (serving self).journal }
        ensures tally { young_tally_of result.2 ≡ young_tally_in self }
        ensures heap { view result.3.parts ≡ (serving self).view }
    {
        let YoungEngine {
            works,
            nursery,
            entered,
            ..
        } = self;
        let tally = YoungTally {
            entries: works.journal.len() as u64,
            events: works.events,
            steps: works.steps,
            completed: works.space.completed(),
            standing: works.space.standing(),
            young: nursery.len() as u64,
            entered: entered.len() as u64,
            journal: Snapshot::of(&works.journal),
            course: works.course,
            ids: Snapshot::of(&entered),
            saver: Snapshot::of(&works.saver),
        };
        (works.pages.into_disk(), works.journal, tally, works.space)
    }

    /// A law of the engine at any time, also after want of memory: in the world that was opened whatever is named is an
    /// object, the journal is legal from it, and each image since then is one that may be; while no call has answered
    /// that the disk failed, each image now stands for the last acknowledged copy, also after want of memory and while a
    /// copy is in progress; after the disk failed for that one or the one in progress. Of each entry it is told what had
    /// been made before it. The disk's count of failed calls is the one at the opening or more. What is in a car was in
    /// one at the opening or entered; and while every call is answered, what the world's names and registers reach
    /// stands or is young.
    pub fn keep_their_images(&self)
        ensures closed { IsClosed (opening (serving self.now)) }
        ensures legal { IsLegal (opening (serving self.now)) (serving self.now).journal }
        ensures images { ∥ KeepsImages D.contents D.image D.moment D.since (opened_disk self.now) (serving self.now)
            (disk_in self.now) ∥₁ }
        ensures settled { (serving self.now).stopped ≡ None → IsTold (D.contents (opened_disk self.now))
            → (left : List ℕ) → D.image (disk_in self.now) left → IsSettledCopy (world (serving self.now)) left }
        ensures memory { IsForMemory (halt_in self.now) → IsTold (D.contents (opened_disk self.now))
            → (left : List ℕ) → D.image (disk_in self.now) left → IsSettledCopy (world (serving self.now)) left }
        ensures disk { IsForDisk (halt_in self.now) → IsTold (D.contents (opened_disk self.now))
            → (left : List ℕ) → D.image (disk_in self.now) left → ∥ IsSettledCopy (world (serving self.now)) left
            ⊎ IsCopyInProgress (world (serving self.now)) left ∥₁ }
        ensures told { length (serving self.now).course ≡ length (serving self.now).journal }
        ensures counted { opened_count self.now ≤ D.count (disk_in self.now) }
        ensures comes_in { ∥ KeepsEntered (serving self.now).opened (serving self.now).view (young_in self.now)
            (entered_in self.now) ∥₁ }
        ensures reached { halt_in self.now ≡ None → (id : ℕ)
            → IsReachable (world (serving self.now)).heap (IsHeld (world (serving self.now))) id
            → ∥ IsStanding (serving self.now).view id ⊎ IsSome (get (young_in self.now).objects id) ∥₁ }
    {
        self.nursery.sound();
    }
    /// A law of the nursery, while every call is answered: it is the young part of the world at the journal's end. So
    /// which identities are young says what is in it.
    pub fn keep_their_nursery(&self)
        ensures { halt_in self.now ≡ None → ∥ IsYoungPart (world (serving self.now)) (young_in self.now) ∥₁ }
    {
        self.nursery.sound();
    }
}
