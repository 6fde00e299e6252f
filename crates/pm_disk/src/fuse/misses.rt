ghost use Rattle.std.specs.Prelude.{◌≡◌, List, [], ◌∷◌};
ghost use Rattle.pm_disk.specs.declared.fuse.missed.Missed.{Missed};
ghost use Rattle.std.specs.Borrow.{ftrue};

use crate::fuse::Missed as Call;
use std::marker::Model;

/// The calls that a fuse failed, the newest first, which only clauses read. It has no bytes when it runs, so there is
/// always room for one more.
#[derive(Drop)]
pub struct Misses {
    pub ghost marks: { List Missed },
}

impl Model for Misses {
    ghost also_owns = { λ _. ftrue };
}

impl Misses {
    /// No call was failed yet.
    pub fn new() -> Misses
        ensures { result.marks ≡ [] }
    {
        Misses {}
    }

    /// The calls after one more.
    pub fn after(&self, _call: &Call) -> Misses
        ensures { result.marks ≡ _call.now ∷ self.now.marks }
    {
        Misses {}
    }
}
