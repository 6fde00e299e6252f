//! What had been made before each entry of a journal, which only proofs read: what is kept of it at run time is the last.

ghost use Rattle.std.specs.Prelude.{◌≡◌, [], ◌∷◌, ◌++◌};
ghost use Rattle.pm_engine.specs.Works.Course.{told_before};

use std::snapshot::Snapshot;

/// What had been made before each entry of a journal, in order. It takes no memory: a snapshot has no bytes, and only
/// clauses read what it shows.
#[derive(Drop)]
pub enum Course {
    /// No entry.
    Nothing,
    /// These, and one more behind them: so many events of the collector, and so many in all.
    Then(Snapshot<Course>, u64, u64),
}

/// Tells what had been made before one entry more.
pub(crate) fn tell_before(course: &mut Course, steps: u64, events: u64)
    ensures { told_before course.new
        ≡ told_before course.old ++ record { steps = steps; events = events } ∷ [] }
{
    *course = Course::Then(Snapshot::of(course), steps, events);
}
