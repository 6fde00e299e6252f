//! A law of reports. The function's contract is the law, and the function does nothing.
ghost use Rattle.std.specs.Prelude.{◌≡◌, ℕ, List};
ghost use Rattle.pm_inspect.specs.Tell.Told.{IsReport};

/// A law of reports: a store has one alone. The spaces that opening makes of it may number its roots in different ways,
/// of which a report shows nothing.
pub fn a_store_has_one_report()
    ensures { (bytes one other : List ℕ) → IsReport bytes one → IsReport bytes other → one ≡ other }
{}
