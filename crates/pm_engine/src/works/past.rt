//! The entries of a journal that were let go: how many there were.

ghost use Rattle.std.specs.Prelude.{◌≡◌, ◌≤◌, ◌^◌, length};
ghost use Rattle.pm_engine.specs.Works.Told.{told_of};

use crate::works::forgotten::{Forgotten, tell_past};
use pm_types::Entry;

/// So many entries of a journal are let go at most.
const MOST_FORGOTTEN: u64 = 1 << 63;

/// The entries of a journal that were let go. At run time it is how many there were; which they were only clauses see.
#[derive(Drop)]
pub struct Past {
    pub(crate) entries: Forgotten,
    /// How many entries were let go.
    pub(crate) forgotten: u64,
    ghost counted: { forgotten ≡ length (told_of entries) },
    ghost few: { forgotten ≤ 2 ^ 63 },
}

impl Past {
    ghost use Rattle.std.specs.Prelude.{◌≡◌, ◌≤◌, ◌<◌, ◌+◌, ◌-◌, ◌^◌, ◌++◌, [], length, vec_len, vec_capacity};
    ghost use Rattle.pm_engine.specs.Works.Told.{told_of};

    /// That of a journal of which no entry was let go.
    pub(crate) fn nothing() -> Past
        ensures { told_of result.entries ≡ [] }
    {
        Past {
            entries: Forgotten::Nothing,
            forgotten: 0,
        }
    }

    /// How many entries a journal has of which these are kept.
    pub(crate) fn count(&self, kept: &Vec<Entry>) -> u64
        ensures { result ≡ length (told_of self.now.entries ++ kept.now.items) }
    {
        self.forgotten + kept.len() as u64
    }

    /// Lets go of all entries that are kept, where the journal has at most 2^63, and else of none. Their buffer stays.
    pub(crate) fn let_go(&mut self, kept: &mut Vec<Entry>)
        ensures whole { told_of self.new.entries ++ kept.new.items ≡ told_of self.old.entries ++ kept.old.items }
        ensures kept { length (told_of self.old.entries ++ kept.old.items) ≤ 2 ^ 63 → kept.new.items ≡ [] }
        ensures beyond { 2 ^ 63 < length (told_of self.old.entries ++ kept.old.items)
            → kept.new.items ≡ kept.old.items }
        // There is room for as many more as were let go.
        ensures room { (vec_capacity kept.new - vec_len kept.new) + length kept.new.items
            ≡ (vec_capacity kept.old - vec_len kept.old) + length kept.old.items }
    {
        let count = self.count(kept);
        if count <= MOST_FORGOTTEN {
            tell_past(&mut self.entries, kept);
            self.forgotten = count;
            kept.clear();
        }
    }
}
