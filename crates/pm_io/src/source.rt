ghost use Rattle.std.specs.Prelude.{◌≡◌, ℕ, ◌<◌, ◌≤◌, List, Option, Some, [], length, IfOk, OnOk, OnErr};
ghost use Rattle.pm_types.specs.Counts.{Rose};
ghost use Rattle.pm_io.specs.Streams.{TakesFront};

use crate::Failed;

/// What bytes are taken from, front to back.
pub trait Source: Drop {
    /// The bytes that are still to come, where the source tells them.
    ghost left: { Self → Option (List ℕ) };

    /// How many calls failed. It never falls, and stays at its greatest value.
    ghost count: { Self → ℕ };

    /// Moves the first bytes that are left to the front of `into`, and answers how many. It answers 0
    /// for an `into` that has room only where none is left. A call that fails loses no byte that the
    /// source told of, and may have written to `into`.
    fn take(&mut self, into: &mut [u8]) -> Result<usize, Failed>
        ensures fits { IfOk result (λ n. n ≤ length into.old) }
        ensures taken { IfOk result (λ n. (bytes : List ℕ) → left self.old ≡ Some bytes
            → TakesFront bytes n into.new (left self.new)) }
        ensures end { IfOk result (λ n. (bytes : List ℕ) → left self.old ≡ Some bytes
            → n ≡ 0 → 0 < length into.old → bytes ≡ []) }
        ensures failed { OnErr result ((bytes : List ℕ) → left self.old ≡ Some bytes
            → left self.new ≡ Some bytes) }
        ensures counted { OnOk result (count self.new ≡ count self.old) }
        ensures cause { OnErr result (Rose (count self.old) (count self.new)) };

    /// How many calls failed: 0 to 18,446,744,073,709,551,615, where it stays.
    fn faults(&self) -> u64
        ensures { result ≡ count self.now };
}
