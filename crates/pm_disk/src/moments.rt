ghost use Rattle.std.specs.Prelude.{◌≡◌, List, [], ◌∷◌};
ghost use Rattle.pm_disk.specs.declared.mark.Mark.{Mark};
ghost use Rattle.std.specs.Borrow.{ftrue};

use crate::Mark as Call;
use std::marker::Model;

/// The clock of a disk, which only clauses read: one mark for each call that was made, the newest
/// first. Their count is the time, their kinds say how many calls of each were made, and what a number says is the
/// disk's own affair. It has no bytes when it runs, so it never stops.
#[derive(Drop)]
pub struct Moments {
    pub ghost marks: { List Mark },
}

impl Model for Moments {
    ghost also_owns = { λ _. ftrue };
}

impl Moments {
    /// No call was made yet.
    pub fn new() -> Moments
        ensures { result.marks ≡ [] }
    {
        Moments {}
    }

    /// The clock after one call more, which is marked so.
    pub fn after(&self, _mark: &Call) -> Moments
        ensures { result.marks ≡ _mark.now ∷ self.now.marks }
    {
        Moments {}
    }
}
