ghost use Rattle.std.specs.Prelude.{◌≡◌, ℕ};
ghost use Rattle.std.specs.FinMap.{FinMap};
ghost use Rattle.std.specs.Ordering.{nat_cmp};
ghost use Rattle.pm_snap.specs.Snapped.{IsLowestUnused};

/// A law of keys: one key alone is the lowest that is not used. So what `vacant` tells is what `add` gives.
pub fn one_key_is_the_lowest<T>()
    ensures { (values : FinMap nat_cmp T) (p q : ℕ) → IsLowestUnused values p → IsLowestUnused values q → p ≡ q }
{}
