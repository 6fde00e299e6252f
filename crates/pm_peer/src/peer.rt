ghost use Rattle.std.specs.Prelude.{◌≡◌, ℕ, ◌<◌, ◌≤◌, List, Option, Some, [], ◌∷◌, ◌++◌, length, take, IfOk, OnOk, OnErr};
ghost use Rattle.pm_types.specs.Counts.{Rose};
ghost use Rattle.pm_io.specs.Streams.{TakesFront};
ghost use Rattle.pm_peer.specs.declared.said.Said.{Said};
ghost use Rattle.pm_peer.specs.declared.said.Said.TheVariants.{Told};
ghost use Rattle.pm_peer.specs.Talk.{heard_more, TellsPart};

use pm_io::Failed;

/// Who is heard and told, in turns: a source and a sink in one, so that what is said has an order.
pub trait Peer: Drop {
    /// The bytes that are still to come, where the peer tells them.
    ghost left: { Self → Option (List ℕ) };

    /// What was heard of it and told to it so far, oldest first, where it tells that.
    ghost talk: { Self → Option (List Said) };

    /// How many calls failed. It never falls, and stays at its greatest value.
    ghost count: { Self → ℕ };

    /// Moves the first bytes that are left to the front of `into`, and answers how many. It answers 0 for an `into` that
    /// has room only at the end. A call that fails loses no byte that the peer told of, and may have written to `into`.
    fn hear(&mut self, into: &mut [u8]) -> Result<usize, Failed>
        ensures fits { IfOk result (λ n. n ≤ length into.old) }
        ensures taken { IfOk result (λ n. (bytes : List ℕ) → left self.old ≡ Some bytes
            → TakesFront bytes n into.new (left self.new)) }
        ensures end { IfOk result (λ n. (bytes : List ℕ) → left self.old ≡ Some bytes
            → n ≡ 0 → 0 < length into.old → bytes ≡ []) }
        ensures heard { IfOk result (λ n. (said : List Said) → talk self.old ≡ Some said
            → talk self.new ≡ Some (heard_more said (take n into.new))) }
        ensures failed { OnErr result ((bytes : List ℕ) → left self.old ≡ Some bytes
            → left self.new ≡ Some bytes) }
        ensures silent { OnErr result ((said : List Said) → talk self.old ≡ Some said
            → talk self.new ≡ Some said) }
        ensures counted { OnOk result (count self.new ≡ count self.old) }
        ensures cause { OnErr result (Rose (count self.old) (count self.new)) };

    /// Tells a line, which has its newline, and finishes it: it is on its way to who reads. A call that fails has told a
    /// first part of it, which may be none or all. It hears nothing.
    fn tell(&mut self, line: &[u8]) -> Result<(), Failed>
        ensures told { OnOk result ((said : List Said) → talk self.old ≡ Some said
            → talk self.new ≡ Some (said ++ Told line.now ∷ [])) }
        ensures failed { OnErr result ((said : List Said) → talk self.old ≡ Some said
            → TellsPart said line.now (talk self.new)) }
        ensures left_stays { (bytes : List ℕ) → left self.old ≡ Some bytes → left self.new ≡ Some bytes }
        ensures counted { OnOk result (count self.new ≡ count self.old) }
        ensures cause { OnErr result (Rose (count self.old) (count self.new)) };

    /// How many calls failed: 0 to 18,446,744,073,709,551,615, where it stays.
    fn faults(&self) -> u64
        ensures { result ≡ count self.now };
}
