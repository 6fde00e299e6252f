//! Who made each entry of a journal, which only clauses read.

ghost use Rattle.std.specs.Prelude.{◌≡◌, [], ◌∷◌, ◌++◌};
ghost use Rattle.pm_seats.specs.Callers.{callers_of};

use std::snapshot::Snapshot;

/// The numbers of the passes whose callers made the entries of a journal, in order. It takes no memory: a snapshot has
/// no bytes, and no call reads what it shows.
#[derive(Drop)]
pub enum Callers {
    /// No entry.
    Nothing,
    /// These, and one more behind them, of this caller.
    Then(Snapshot<Callers>, u64),
}

/// Adds the caller of one entry more.
pub(crate) fn add_caller(callers: &mut Callers, number: u64)
    ensures { callers_of callers.new ≡ callers_of callers.old ++ number ∷ [] }
{
    *callers = Callers::Then(Snapshot::of(callers), number);
}
