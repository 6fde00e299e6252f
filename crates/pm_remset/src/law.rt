//! A law of searches. The function's contract is the law, and the function does nothing.

ghost use Rattle.std.specs.Prelude.{◌≡◌, ℕ, Bool, Option};
ghost use Rattle.pm_types.specs.declared.source.RefSource.{RefSource};
ghost use Rattle.pm_remset.specs.Remembered.{Remembered, first_that, FindsFirstThat};

/// A law of searches: of the entries that pass a test, the one that stands first in order passes while
/// each one below it fails, and no other entry does.
pub fn the_first_is_the_least()
    ensures finds { (test : RefSource → ℕ → Bool) (set : Remembered) → FindsFirstThat test set (first_that test set) }
    ensures only { (test : RefSource → ℕ → Bool) (set : Remembered) (found : Option (RefSource × ℕ))
        → FindsFirstThat test set found → found ≡ first_that test set }
{}
