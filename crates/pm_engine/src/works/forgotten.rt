//! Which entries of a journal were let go, which only proofs read.

ghost use Rattle.std.specs.Prelude.{◌≡◌, ◌++◌};
ghost use Rattle.pm_engine.specs.Works.Told.{told_of};

use pm_types::Entry;
use std::snapshot::Snapshot;

/// Entries that were let go, in order. It has the room of its last member however many there are: a snapshot has no
/// bytes, and only clauses read what it shows.
#[derive(Drop)]
pub enum Forgotten {
    /// No entry.
    Nothing,
    /// These, and behind them those that were let go at once.
    Then(Snapshot<Forgotten>, Snapshot<Vec<Entry>>),
}

/// Tells that these entries were let go too.
pub(crate) fn tell_past(past: &mut Forgotten, entries: &Vec<Entry>)
    ensures { told_of past.new ≡ told_of past.old ++ entries.now.items }
{
    *past = Forgotten::Then(Snapshot::of(past), Snapshot::of(entries));
}
