ghost use Rattle.std.specs.Prelude.{◌≡◌, ◌≢◌, ℕ, ◌<◌, ◌≤◌, List, ◌++◌, Option, Some, None, length, take, option_map, IfOk, IfErr, OnOk, OnErr};
ghost use Rattle.std.specs.Io.KnownBytes.{Keeps, WriteAppends};
ghost use Rattle.std.specs.IoError.{error_kind};
ghost use Rattle.pm_io.specs.Tries.{Tries, failed_once, interrupted_more};

use std::io::{self, ErrorKind, Write};

/// What a sink asks of a stream. A stream may tell its bytes and how its calls went, and then these clauses say what each
/// call does.
pub trait OutStream: Drop {
    /// All bytes that were written so far, where they are told.
    ghost written: { Self → Option (List ℕ) };

    /// How many of them are flushed.
    ghost flushed: { Self → ℕ };

    /// How many calls failed and how many were interrupted, where that is told.
    ghost tries: { Self → Option Tries };

    /// Appends the first bytes of the piece, which has at least one, and answers how many. A call that appends none has
    /// failed; one that was interrupted may be tried again.
    fn accept(&mut self, from: &[u8]) -> io::Result<usize>
        requires { 0 < length from.now }
        ensures fits { IfOk result (λ n. n ≤ length from.now) }
        ensures appended { IfOk result (λ n. (bytes : List ℕ) → written self.old ≡ Some bytes
            → written self.new ≡ Some (bytes ++ take n from.now)) }
        ensures kept { OnErr result ((bytes : List ℕ) → written self.old ≡ Some bytes
            → written self.new ≡ Some bytes) }
        ensures flush_stays { flushed self.new ≡ flushed self.old }
        ensures done { IfOk result (λ n. 0 < n → tries self.new ≡ tries self.old) }
        ensures stuck { IfOk result (λ n. n ≡ 0
            → tries self.new ≡ option_map failed_once (tries self.old)) }
        ensures interrupted { IfErr result (λ error. error_kind error ≡ ErrorKind.Interrupted
            → tries self.new ≡ option_map (interrupted_more 1) (tries self.old)) }
        ensures failed { IfErr result (λ error. error_kind error ≢ ErrorKind.Interrupted
            → tries self.new ≡ option_map failed_once (tries self.old)) };

    /// Flushes all bytes that were written. It appends nothing. A call that was interrupted may be tried again.
    fn flush_all(&mut self) -> io::Result<()>
        ensures bytes_stay { (bytes : List ℕ) → written self.old ≡ Some bytes
            → written self.new ≡ Some bytes }
        ensures all_flushed { OnOk result ((bytes : List ℕ) → written self.old ≡ Some bytes
            → flushed self.new ≡ length bytes) }
        ensures flush_stays { OnErr result (flushed self.new ≡ flushed self.old) }
        ensures done { OnOk result (tries self.new ≡ tries self.old) }
        ensures interrupted { IfErr result (λ error. error_kind error ≡ ErrorKind.Interrupted
            → tries self.new ≡ option_map (interrupted_more 1) (tries self.old)) }
        ensures failed { IfErr result (λ error. error_kind error ≢ ErrorKind.Interrupted
            → tries self.new ≡ option_map failed_once (tries self.old)) };
}

// A writer of std tells nothing: how many of its bytes are flushed no clause of std says.
impl<W: Write + Drop> OutStream for W {
    ghost written = { λ _. None };

    ghost flushed = { λ _. 0 };

    ghost tries = { λ _. None };

    fn accept(&mut self, from: &[u8]) -> io::Result<usize>
        ensures fits { IfOk result (λ n. n ≤ length from.now) }

        // What std knows of the bytes grows by those that were taken.
        ensures known { WriteAppends (W.contents self.old) (W.contents self.new) result from.now }
    {
        self.write(from)
    }

    fn flush_all(&mut self) -> io::Result<()>
        // What std knows of the bytes stays.
        ensures known { Keeps (W.contents self.old) (W.contents self.new) }
    {
        self.flush()
    }
}
