ghost use Rattle.std.specs.Prelude.{◌≡◌, ◌≢◌, ℕ, ◌<◌, ◌≤◌, List, Option, Some, [], length, option_map, IfOk, IfErr, OnOk, OnErr};
ghost use Rattle.std.specs.IoError.{error_kind};
ghost use Rattle.pm_io.specs.Streams.{TakesFront};
ghost use Rattle.pm_io.specs.Tries.{Tries, failed_once, interrupted_more};

use std::io::{self, ErrorKind, Read};

/// What a source asks of a stream. A stream may tell its bytes and how its calls went, and then these clauses say what a
/// call does.
pub trait InStream: Drop {
    /// The bytes that are still to come, where they are told.
    ghost left: { Self → Option (List ℕ) };

    /// How many calls failed and how many were interrupted, where that is told.
    ghost tries: { Self → Option Tries };

    /// Moves the first bytes that are left to the front of `into`, and answers how many: 0, for an `into` that has room,
    /// only where none is left. A call that was interrupted may be tried again.
    fn give(&mut self, into: &mut [u8]) -> io::Result<usize>
        ensures fits { IfOk result (λ n. n ≤ length into.old) }
        ensures taken { IfOk result (λ n. (bytes : List ℕ) → left self.old ≡ Some bytes
            → TakesFront bytes n into.new (left self.new)) }
        ensures end { IfOk result (λ n. (bytes : List ℕ) → left self.old ≡ Some bytes
            → n ≡ 0 → 0 < length into.old → bytes ≡ []) }
        ensures kept { OnErr result ((bytes : List ℕ) → left self.old ≡ Some bytes
            → left self.new ≡ Some bytes) }
        ensures done { OnOk result (tries self.new ≡ tries self.old) }
        ensures interrupted { IfErr result (λ error. error_kind error ≡ ErrorKind.Interrupted
            → tries self.new ≡ option_map (interrupted_more 1) (tries self.old)) }
        ensures failed { IfErr result (λ error. error_kind error ≢ ErrorKind.Interrupted
            → tries self.new ≡ option_map failed_once (tries self.old)) };
}

// A reader of std tells the bytes that std knows of it, and nothing of its calls.
impl<R: Read + Drop> InStream for R {
    ghost use Rattle.std.specs.Prelude.{None};

    ghost left = { λ reader. R.remaining reader };

    ghost tries = { λ _. None };

    fn give(&mut self, into: &mut [u8]) -> io::Result<usize> {
        self.read(into)
    }
}
