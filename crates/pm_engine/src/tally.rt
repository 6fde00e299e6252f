//! What an engine came to.

ghost use Rattle.std.specs.Prelude.{◌≡◌};

use crate::Unmade;
use crate::works::{Course, Past, Saver, WATCH_ROOM};
use arrayvec::ArrayVec;
use pm_types::{Entry, WatchLine};
use std::snapshot::Snapshot;

/// What an engine came to. It is made where an engine is taken apart, and nothing changes it.
#[derive(Drop)]
pub struct Tally {
    pub(crate) entries: u64,
    pub(crate) events: u64,
    pub(crate) steps: u64,
    pub(crate) completed: u64,
    pub(crate) standing: u64,
    pub(crate) lines: ArrayVec<WatchLine, WATCH_ROOM>,
    /// The entries that were let go, and those that were kept: the journal that it was made with, which tells it from the
    /// tally of another engine.
    pub(crate) past: Snapshot<Past>,
    pub(crate) journal: Snapshot<Vec<Entry>>,
    /// What had been made before each entry of it.
    pub(crate) course: Course,
    /// The saver, with the copy in progress.
    pub(crate) saver: Snapshot<Saver>,
    /// The event for which memory ran out last, if it did.
    pub(crate) unmade: Option<Unmade>,
}

impl Tally {
    ghost use Rattle.pm_engine.specs.Shown.{tally_of};

    /// How many entries the journal has.
    pub fn entries(&self) -> u64
        ensures { result ≡ (tally_of self.now).entries }
    {
        self.entries
    }

    /// How many events were made.
    pub fn events(&self) -> u64
        ensures { result ≡ (tally_of self.now).events }
    {
        self.events
    }

    /// How many of the events were the collector's.
    pub fn steps(&self) -> u64
        ensures { result ≡ (tally_of self.now).steps }
    {
        self.steps
    }

    /// How many collections were completed.
    pub fn completed(&self) -> u64
        ensures { result ≡ (tally_of self.now).completed }
    {
        self.completed
    }

    /// What is told of the watches, in order.
    pub fn lines(&self) -> &[WatchLine]
        ensures { result.now ≡ (tally_of self.now).lines }
    {
        self.lines.as_slice()
    }

    /// The event for which memory ran out last, if it did.
    pub fn unmade(&self) -> Option<Unmade>
        ensures { result ≡ (tally_of self.now).unmade }
    {
        self.unmade
    }

    /// How many objects stand.
    pub fn standing(&self) -> u64
        ensures { result ≡ (tally_of self.now).standing }
    {
        self.standing
    }
}
