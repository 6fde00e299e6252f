ghost use Rattle.std.specs.Prelude.{◌≡◌};
ghost use Rattle.pm_turns.specs.declared.limits.TheConstants.{WORKERS};

/// How many workers there are: the clients are 0 to 7, the collector is 8 and the flusher 9.
pub const WORKERS: u32 = 10;

/// A law of limits: the number of workers.
pub fn limits_of_workers()
    ensures { WORKERS ≡ 10 }
{}
