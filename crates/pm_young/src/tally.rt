//! What an engine with a nursery came to.

ghost use Rattle.std.specs.Prelude.{◌≡◌};

use pm_engine::works::{Course, Saver};
use pm_types::{Entry, Id};
use std::snapshot::Snapshot;

/// What an engine with a nursery came to. It is made where an engine is taken apart, and nothing changes it.
#[derive(Drop)]
pub struct YoungTally {
    pub(crate) entries: u64,
    pub(crate) events: u64,
    pub(crate) steps: u64,
    pub(crate) completed: u64,
    pub(crate) standing: u64,
    pub(crate) young: u64,
    pub(crate) entered: u64,
    /// The journal that it was made with, which tells it from the tally of another engine.
    pub(crate) journal: Snapshot<Vec<Entry>>,
    /// What had been made before each entry of it.
    pub(crate) course: Course,
    /// The identities that entered.
    pub(crate) ids: Snapshot<Vec<Id>>,
    /// The saver, with the copy in progress.
    pub(crate) saver: Snapshot<Saver>,
}

impl YoungTally {
    ghost use Rattle.pm_young.specs.Seen.{young_tally_of};

    /// How many entries the journal has.
    pub fn entries(&self) -> u64
        ensures { result ≡ (young_tally_of self.now).entries }
    {
        self.entries
    }

    /// How many events were made.
    pub fn events(&self) -> u64
        ensures { result ≡ (young_tally_of self.now).events }
    {
        self.events
    }

    /// How many of the events were the collector's.
    pub fn steps(&self) -> u64
        ensures { result ≡ (young_tally_of self.now).steps }
    {
        self.steps
    }

    /// How many collections were completed.
    pub fn completed(&self) -> u64
        ensures { result ≡ (young_tally_of self.now).completed }
    {
        self.completed
    }

    /// How many objects stand in cars.
    pub fn standing(&self) -> u64
        ensures { result ≡ (young_tally_of self.now).standing }
    {
        self.standing
    }

    /// How many objects are young.
    pub fn young(&self) -> u64
        ensures { result ≡ (young_tally_of self.now).young }
    {
        self.young
    }

    /// How many objects came into a car since the opening.
    pub fn entered(&self) -> u64
        ensures { result ≡ (young_tally_of self.now).entered }
    {
        self.entered
    }
}
