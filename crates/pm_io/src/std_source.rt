ghost use Rattle.std.specs.Prelude.{◌≡◌, ◌≢◌, ℕ, ◌<◌, ◌≤◌, List, [], Some, length, IfOk, IfErr, OnOk, OnErr};
ghost use Rattle.std.specs.IoError.{error_kind};
ghost use Rattle.pm_types.specs.Counts.{Rose};
ghost use Rattle.pm_io.specs.Known.{new_source};
ghost use Rattle.pm_io.specs.Streams.{TakesFront};
ghost use Rattle.pm_io.specs.Tries.{NoneFailed, ShowsFault};

use crate::calls::count;
use crate::{Failed, InStream, Source};
use std::io;
use std::io::{Error, ErrorKind};
use std::marker::Model;

/// A source over a stream, which may be any of std's readers. It tells the bytes that the stream tells.
#[derive(Drop)]
pub struct StdSource<R: InStream> {
    reader: R,
    faults: u64,
}

impl<R: InStream> Model for StdSource<R> {
    ghost use Rattle.pm_io.specs.Known.{SourceOver};

    ghost Value = { SourceOver };

    ghost view = { λ s. record { left = R.left s.reader; tries = R.tries s.reader; faults = s.faults } };
}

// One call of the stream, tried again where it was interrupted.
fn give_once<R: InStream>(reader: &mut R, into: &mut [u8]) -> io::Result<usize>
    ensures fits { IfOk result (λ n. n ≤ length into.old) }
    ensures taken { IfOk result (λ n. (bytes : List ℕ) → R.left reader.old ≡ Some bytes
        → TakesFront bytes n into.new (R.left reader.new)) }
    ensures end { IfOk result (λ n. (bytes : List ℕ) → R.left reader.old ≡ Some bytes
        → n ≡ 0 → 0 < length into.old → bytes ≡ []) }
    ensures kept { OnErr result ((bytes : List ℕ) → R.left reader.old ≡ Some bytes
        → R.left reader.new ≡ Some bytes) }
    ensures none_failed { OnOk result (NoneFailed (R.tries reader.old) (R.tries reader.new)) }
    ensures shown { OnErr result (ShowsFault (R.tries reader.old) (R.tries reader.new)) }
    ensures tried_again { IfErr result (λ error. error_kind error ≢ ErrorKind.Interrupted) }
{
    for _turn in 0..u64::MAX {
        match reader.give(into) {
            Ok(n) => return Ok(n),
            Err(error) => {
                if error.kind() != ErrorKind::Interrupted {
                    return Err(error);
                }
            }
        }
    }
    Err(Error::other("interrupted too often"))
}

impl<R: InStream> StdSource<R> {
    /// A source of what the stream gives.
    pub fn new(reader: R) -> Self
        ensures { result ≡ new_source (R.left reader) (R.tries reader) }
    {
        StdSource { reader, faults: 0 }
    }
}

impl<R: InStream> Source for StdSource<R> {
    ghost left = { λ source. source.left };

    ghost count = { λ source. source.faults };

    fn take(&mut self, into: &mut [u8]) -> Result<usize, Failed>
        ensures fits { IfOk result (λ n. n ≤ length into.old) }
        ensures taken { IfOk result (λ n. (bytes : List ℕ) → self.old.left ≡ Some bytes
            → TakesFront bytes n into.new self.new.left) }
        ensures end { IfOk result (λ n. (bytes : List ℕ) → self.old.left ≡ Some bytes
            → n ≡ 0 → 0 < length into.old → bytes ≡ []) }
        ensures failed { OnErr result ((bytes : List ℕ) → self.old.left ≡ Some bytes
            → self.new.left ≡ Some bytes) }
        ensures counted { OnOk result (self.new.faults ≡ self.old.faults) }
        ensures cause { OnErr result (Rose self.old.faults self.new.faults) }

        // It fails where a call of the stream failed, and there alone.
        ensures none_failed { OnOk result (NoneFailed self.old.tries self.new.tries) }
        ensures shown { OnErr result (ShowsFault self.old.tries self.new.tries) }
    {
        let taken = give_once(&mut self.reader, into);
        count(taken, &mut self.faults)
    }

    fn faults(&self) -> u64 {
        self.faults
    }
}
