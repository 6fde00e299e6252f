ghost use Rattle.std.specs.Prelude.{◌≡◌, ℕ, List, Option, Some, ◌++◌, length, OnOk, OnErr};
ghost use Rattle.pm_types.specs.Counts.{Rose};
ghost use Rattle.pm_io.specs.Streams.{AppendsPart};

use crate::Failed;

/// What bytes are put into, one piece after another.
pub trait Sink: Drop {
    /// All bytes that were put so far, where the sink tells them.
    ghost written: { Self → Option (List ℕ) };

    /// How many of them are finished.
    ghost finished: { Self → ℕ };

    /// How many calls failed. It never falls, and stays at its greatest value.
    ghost count: { Self → ℕ };

    /// Appends the piece. A call that fails appends a first part of it, which may be none or all.
    fn put(&mut self, from: &[u8]) -> Result<(), Failed>
        ensures appended { OnOk result ((bytes : List ℕ) → written self.old ≡ Some bytes
            → written self.new ≡ Some (bytes ++ from.now)) }
        ensures failed { OnErr result ((bytes : List ℕ) → written self.old ≡ Some bytes
            → AppendsPart bytes from.now (written self.new)) }
        ensures finish_stays { finished self.new ≡ finished self.old }
        ensures counted { OnOk result (count self.new ≡ count self.old) }
        ensures cause { OnErr result (Rose (count self.old) (count self.new)) };

    /// Finishes all bytes that were put. It appends nothing.
    fn finish(&mut self) -> Result<(), Failed>
        ensures bytes_stay { (bytes : List ℕ) → written self.old ≡ Some bytes
            → written self.new ≡ Some bytes }
        ensures all_finished { OnOk result ((bytes : List ℕ) → written self.old ≡ Some bytes
            → finished self.new ≡ length bytes) }
        ensures failed { OnErr result (finished self.new ≡ finished self.old) }
        ensures counted { OnOk result (count self.new ≡ count self.old) }
        ensures cause { OnErr result (Rose (count self.old) (count self.new)) };

    /// How many calls failed: 0 to 18,446,744,073,709,551,615, where it stays.
    fn faults(&self) -> u64
        ensures { result ≡ count self.now };
}
