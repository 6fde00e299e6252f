//! Letting go of the entries that were answered.

use crate::works::works::Works;
use pm_disk::Disk;

impl<D: Disk, F: Drop> Works<D, F> {
    ghost use Rattle.std.specs.Prelude.{◌≡◌, length};
    ghost use Rattle.pm_engine.specs.Works.Working.{Forgets, journal_in};

    /// How many entries the journal has, those that were let go among them.
    pub fn entries(&self) -> u64
        ensures { result ≡ length (journal_in self.now) }
    {
        self.past.count(&self.journal)
    }

    /// Lets go of all entries that are kept, where the journal has at most 2^63, and else of none. Their buffer stays, and
    /// no memory is taken.
    pub fn forget(&mut self)
        ensures { Forgets self.old self.new }
    {
        self.past.let_go(&mut self.journal);
    }
}
