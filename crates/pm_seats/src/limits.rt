ghost use Rattle.std.specs.Prelude.{◌≡◌, ◌^◌, suc};
ghost use Rattle.pm_seats.specs.declared.limits.TheConstants.{LAST_EVENT};

/// So many events are made of one logbook: 2^50 - 1.
pub const LAST_EVENT: u64 = 1_125_899_906_842_623;

/// A law of limits: the number of events is below 2^50.
pub fn limits_of_events()
    ensures { suc LAST_EVENT ≡ 2 ^ 50 }
{}
