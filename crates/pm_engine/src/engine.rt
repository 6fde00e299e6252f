//! The engine: what it keeps, how it is opened, and what it tells.

ghost use Rattle.std.specs.Prelude.{◌≤◌};
ghost use Rattle.pm_saving.specs.Bounds.{KeepsBounds};
ghost use Rattle.pm_engine.specs.History.{HasHistory};
ghost use Rattle.pm_engine.specs.Works.Working.{disk_at};
ghost use Rattle.pm_engine.specs.Works.Seen.{seen};
ghost use Rattle.pm_engine.specs.Sound.{IsSound};

use crate::works::{Start, WATCH_ROOM, Works, tell_watches};
use crate::{Tally, Unmade};
use arrayvec::ArrayVec;
use pm_disk::Disk;
use pm_space::Space;
use pm_types::{Entry, NoMemory, Watch, WatchLine};
use std::snapshot::Snapshot;

/// A space, the pages of its store on a disk, the saver between them, and the journal: one value, which is changed by one
/// event after another. Once a call has answered that the disk failed every further one answers `Reopen`: the store has to
/// be opened again.
#[derive(Drop)]
pub struct Engine<D: Disk, F> {
    pub(crate) works: Works<D, F>,
    pub(crate) opening: Start<D, F>,
    /// Where a call has answered that the disk failed: the count of failed calls then.
    pub(crate) stopped: Option<u64>,
    /// The event for which a call last answered that memory ran out. It stands beside what the engine serves, which is as
    /// it was then.
    pub(crate) unmade: Option<Unmade>,
    ghost sound: { ∥ IsSound opening stopped works ∥₁ },
    ghost bounded: { ∥ KeepsBounds (seen opening stopped works) ∥₁ },
    ghost counted: { opening.count ≤ D.count (disk_at works) },
    ghost past: { ∥ HasHistory (seen opening stopped works) ∥₁ },
}

impl<D: Disk, F: Drop> Engine<D, F> {
    ghost use Rattle.std.specs.Prelude.{◌≡◌, ◌≤◌, ◌<◌, ◌+◌, ◌^◌, ◌++◌, ℕ, List, [], length, map, nat_eq, None, OnOk, OnErr};
    ghost use Rattle.std.specs.List.{AllByRecursion, AllZip, IsDistinct};
    ghost use Rattle.pm_types.specs.declared.event.Watch.{Watch as KeptWatch};
    ghost use Rattle.pm_disk.specs.Disk.{IfTold};
    ghost use Rattle.pm_model.specs.Reachability.{IsReachable};
    ghost use Rattle.pm_view.specs.Represents.{IsHeld};
    ghost use Rattle.pm_model.specs.Closed.{IsClosed};
    ghost use Rattle.pm_model.specs.Journal.{IsLegal, watch_places};
    ghost use Rattle.pm_saving.specs.Serving.{IsServed, opening, world};
    ghost use Rattle.pm_saving.specs.Images.{IsSettledCopy, IsTold, KeepsImages};
    ghost use Rattle.pm_view.specs.Bounded.{EndsLost, IsHonest};
    ghost use Rattle.pm_view.specs.Counts.{old, standing};
    ghost use Rattle.pm_view.specs.Law.{HeapLaw};
    ghost use Rattle.pm_copies.specs.Opened.{IsOpenedStore};
    ghost use Rattle.pm_engine.specs.History.{HasHistory};
    ghost use Rattle.pm_view.specs.Watches.{lines_from};
    ghost use Rattle.pm_types.specs.Counts.{capped};
    ghost use Rattle.pm_space.specs.Shown.{view};
    ghost use Rattle.pm_engine.specs.Shown.{KeepsEntries, KeepsStart, disk_in, opened_count, opened_disk, pages_in};
    ghost use Rattle.pm_engine.specs.Shown.{chooser, past_of, recent, room, serving, tally_of, total_in, unmade_in};

    /// What was asked and answered since the opening, in order, while no entry was let go.
    pub fn journal(&self) -> &[Entry]
        requires past { past_of self.now ≡ [] }
        ensures { result.now ≡ (serving self.now).journal }
    {
        self.works.journal.as_slice()
    }

    /// How many entries the journal has, those that were let go among them.
    pub fn entries(&self) -> u64
        ensures { result ≡ length (serving self.now).journal }
    {
        self.works.entries()
    }

    /// What was asked and answered since entries were last let go, in order; where none were, since the opening.
    pub fn recent(&self) -> &[Entry]
        ensures kept { result.now ≡ recent self.now }
        ensures told { (serving self.now).journal ≡ past_of self.now ++ result.now }
    {
        self.works.journal.as_slice()
    }

    /// Lets go of all entries that are kept, so that memory does not grow with the number of commands. It takes none, and
    /// their buffer stays. What is served is the same; so are the whole journal and its course, as clauses see them, and
    /// watches and counts, as calls tell them. Where the journal has over 2^63 entries none is let go.
    pub fn forget_entries(&mut self)
        ensures serving { serving self.new ≡ serving self.old }
        ensures disk { disk_in self.new ≡ disk_in self.old }
        ensures pages { pages_in self.new ≡ pages_in self.old }
        ensures start { KeepsStart self.old self.new }
        ensures unmade { unmade_in self.new ≡ unmade_in self.old }
        ensures kept { length (serving self.old).journal ≤ 2 ^ 63 → recent self.new ≡ [] }
        ensures beyond { 2 ^ 63 < length (serving self.old).journal → recent self.new ≡ recent self.old }
        // There is room for as many more as were let go.
        ensures room { room self.new + length (recent self.new) ≡ room self.old + length (recent self.old) }
    {
        self.works.forget();
    }

    /// How many events were made: calls of `client`, `collect` and `flush` that were answered Ok.
    pub fn events(&self) -> u64
        ensures { result ≡ (serving self.now).events }
    {
        self.works.events
    }

    /// How many events of the collector were made: calls of `collect` that were answered Ok.
    pub fn steps(&self) -> u64
        ensures { result ≡ (serving self.now).steps }
    {
        self.works.steps
    }

    /// How many collections were completed.
    pub fn completed(&self) -> u64
        ensures { result ≡ (serving self.now).view.completed }
    {
        self.works.space.completed()
    }

    /// How many objects stand. It looks at each car once.
    pub fn standing(&self) -> u64
        ensures { result ≡ capped (standing (serving self.now).view) }
    {
        self.works.space.standing()
    }

    /// How many objects stand in the trains that are numbered up to this one. It looks at each of their cars once.
    pub fn old(&self, youngest: u64) -> u64
        ensures { result ≡ capped (old (serving self.now).view youngest) }
    {
        self.works.space.old(youngest)
    }

    /// The watches that are set, in order.
    pub fn watches(&self) -> &[Watch]
        ensures { result.now ≡ (serving self.now).watches }
    {
        self.works.watches.as_slice()
    }

    /// What is told of the watches now, in order. It takes no memory. Where as many collections were completed since a
    /// watch was set as its bound says, no object of a train of that time stands.
    pub fn lines(&self) -> ArrayVec<WatchLine, WATCH_ROOM>
        ensures told { result.items ≡ lines_from (serving self.now).view 1 (serving self.now).watches }
        ensures honest { AllByRecursion IsHonest result.items }
    {
        tell_watches(&self.works.space, self.works.watches.as_slice())
    }

    /// The heap, lent: it stands for the world that is served, so what it tells of an object or of a name is the world's.
    pub fn space(&self) -> &Space<F>
        ensures heap { view result.now.parts ≡ (serving self.now).view }
        ensures place { result.now.parts.place ≡ chooser self.now }
    {
        &self.works.space
    }

    /// Makes room for so many further entries of the journal, so that they take no memory. Where memory runs out all is
    /// as it was.
    pub fn reserve_entries(&mut self, n: u64) -> Result<(), NoMemory>
        ensures serving { serving self.new ≡ serving self.old }
        ensures disk { disk_in self.new ≡ disk_in self.old }
        ensures start { KeepsStart self.old self.new }
        ensures unmade { unmade_in self.new ≡ unmade_in self.old }
        ensures entries { KeepsEntries self.old self.new }
        ensures room { OnOk result (n ≤ room self.new) }
        // There is room for as many as before; where it fails so many had no room, and as many have as before.
        ensures grows { room self.old ≤ room self.new }
        ensures full { OnErr result (room self.old < n) }
        ensures err { OnErr result (room self.new ≡ room self.old) }
    {
        self.works.journal.reserve(n as usize)?;
        Ok(())
    }

    /// The disk, the entries that are kept, what the engine came to, and its heap. Where as many collections were completed since a
    /// watch was set as its bound says, no object of a train of that time stands. To drop the heap takes time for each of
    /// its objects, so a caller whose process ends may leave it.
    pub fn into_parts(self) -> (D, Vec<Entry>, Tally, Space<F>)
        ensures disk { result.0 ≡ disk_in self }
        ensures journal { (serving self).journal ≡ past_of self ++ result.1.items }
        ensures tally { tally_of result.2 ≡ total_in self }
        ensures honest { AllByRecursion IsHonest (tally_of result.2).lines }
        ensures heap { view result.3.parts ≡ (serving self).view }
        ensures place { result.3.parts.place ≡ chooser self }
    {
        let Engine { works, unmade, .. } = self;
        let entries = works.entries();
        let standing = works.space.standing();
        let tally = Tally {
            entries,
            events: works.events,
            steps: works.steps,
            completed: works.space.completed(),
            standing,
            lines: tell_watches(&works.space, works.watches.as_slice()),
            past: Snapshot::of(&works.past),
            journal: Snapshot::of(&works.journal),
            course: works.course,
            saver: Snapshot::of(&works.saver),
            unmade,
        };
        (works.pages.into_disk(), works.journal, tally, works.space)
    }

    /// A law of the engine at any time: it serves the world of its journal. So in the world that was opened whatever is
    /// named is an object, the journal is legal from it, and each image since then is one that may be; while no call has
    /// answered that the disk failed, each image now stands for the last acknowledged copy. So many watches are set as in
    /// the world at the journal's end, and of each entry it is told what had been made before it. Different identities
    /// that the world's names and registers reach are no more than the objects that stand. Each watch keeps its bound:
    /// once as many collections were completed as it says, nothing that was lost when the watch was set is in any car.
    /// It came by calls from the space that the bytes were opened as, its watches stand at the places of the entries that
    /// set them, and no more collections were completed than events of the collector were made. The disk's count of
    /// failed calls is the one at the opening or more.
    pub fn keep_their_images(&self)
        ensures served { ∥ IsServed (serving self.now) ∥₁ }
        ensures closed { IsClosed (opening (serving self.now)) }
        ensures legal { IsLegal (opening (serving self.now)) (serving self.now).journal }
        ensures images { ∥ KeepsImages D.contents D.image D.moment D.since (opened_disk self.now) (serving self.now)
            (disk_in self.now) ∥₁ }
        ensures settled { (serving self.now).stopped ≡ None → IsTold (D.contents (opened_disk self.now))
            → (left : List ℕ) → D.image (disk_in self.now) left → IsSettledCopy (world (serving self.now)) left }
        ensures watching { (world (serving self.now)).watches ≡ length (serving self.now).watches }
        ensures told { length (serving self.now).course ≡ length (serving self.now).journal }
        ensures standing { (ids : List ℕ) → IsDistinct nat_eq ids
            → AllByRecursion (IsReachable (world (serving self.now)).heap (IsHeld (world (serving self.now)))) ids
            → length ids ≤ standing (serving self.now).view }
        ensures bounds { ∥ KeepsBounds (serving self.now) ∥₁ }
        ensures law { HeapLaw (serving self.now).view }
        ensures history { ∥ HasHistory (serving self.now) ∥₁ }
        ensures store { IfTold (D.contents (opened_disk self.now)) (λ bytes.
            ∥ IsOpenedStore bytes (serving self.now).opened ∥₁) }
        ensures positions { map (λ (watch : KeptWatch). watch.position) (serving self.now).watches
            ≡ watch_places 0 (serving self.now).journal }
        ensures few { (serving self.now).view.completed ≤ (serving self.now).steps }
        ensures gone { AllZip (EndsLost (opening (serving self.now)) (serving self.now).journal (serving self.now).view)
            (lines_from (serving self.now).view 1 (serving self.now).watches)
            (watch_places 0 (serving self.now).journal) }
        ensures counted { opened_count self.now ≤ D.count (disk_in self.now) }
    {}
}
