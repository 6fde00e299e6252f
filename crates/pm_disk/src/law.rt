//! What several calls of a disk leave together. The contract is the law, and the function does nothing.
ghost use Rattle.std.specs.Prelude.{ℕ, List, Bool};
ghost use Rattle.pm_disk.specs.Disk.{Elapses, LeavesOnly, Passes};

use crate::disk::Disk;

/// A law of crashes, of images that pass a test. Before the first call only such images are left where each that might
/// have been left at that moment is one. A run of calls that leaves only such images may go on by a call that leaves
/// such images, or by another such run. And what passes a test passes each test that follows from it.
pub fn runs_are_joined<D: Disk>()
    ensures started { (old : D) (p : List ℕ → Bool)
        → ((image : List ℕ) → D.since old (D.moment old) image → Passes p image)
        → LeavesOnly D.moment D.since old old (Passes p) }
    ensures goes_on { (old mid new : D) (p : List ℕ → Bool) → LeavesOnly D.moment D.since old mid (Passes p)
        → Elapses (D.moment mid) (D.moment new) (D.since mid) (D.since new) (D.image new)
        → ((image : List ℕ) → D.image new image → Passes p image) → LeavesOnly D.moment D.since old new (Passes p) }
    ensures joined { (old mid new : D) (p : List ℕ → Bool) → LeavesOnly D.moment D.since old mid (Passes p)
        → LeavesOnly D.moment D.since mid new (Passes p) → LeavesOnly D.moment D.since old new (Passes p) }
    ensures weaker { (old new : D) (p q : List ℕ → Bool) → LeavesOnly D.moment D.since old new (Passes p)
        → ((image : List ℕ) → Passes p image → Passes q image) → LeavesOnly D.moment D.since old new (Passes q) }
{}
