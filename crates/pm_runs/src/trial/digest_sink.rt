//! A sink that keeps the digest of its bytes.

ghost use Rattle.std.specs.Prelude.{◌≡◌, [], ◌++◌, length, Ok};
ghost use Rattle.sha2.specs.Sha256.{sha256};

use crate::trial::told::{Told, tell};
use pm_io::{Failed, Sink};
use sha2::{Digest, Sha256};
use std::marker::Model;
use std::snapshot::Snapshot;

/// A sink that keeps the SHA-256 of what is put into it and no byte of it. It takes no memory, and no call of it fails.
#[derive(Drop)]
pub struct DigestSink {
    hasher: Sha256,
    told: Told,
    finished: Snapshot<Told>,
}

impl Model for DigestSink {
    ghost use Rattle.std.specs.Prelude.{length};
    ghost use Rattle.sha2.specs.Hashers.{Holds256};
    ghost use Rattle.pm_runs.specs.Trial.Digested.{DigestState};
    ghost use Rattle.pm_runs.specs.Trial.Told.{bytes_of};

    ghost Value = { DigestState };

    ghost view = { λ s. record {
      written = bytes_of s.told;
      finished = length (bytes_of s.finished.value);
    } };

    ghost invariant = { λ s. Holds256 s.hasher (bytes_of s.told) };
}

impl DigestSink {
    /// A sink into which nothing was put.
    pub fn new() -> Self
        ensures { result ≡ record { written = []; finished = 0 } }
    {
        let told = Told::Nothing;
        let finished = Snapshot::of(&told);
        DigestSink {
            hasher: Sha256::new(),
            told,
            finished,
        }
    }

    /// The SHA-256 of all bytes that were put.
    pub fn digest(self) -> [u8; 32]
        ensures { result ≡ sha256 self.written }
    {
        self.hasher.finalize()
    }
}

impl Sink for DigestSink {
    ghost use Rattle.std.specs.Prelude.{Some};

    ghost written = { λ sink. Some sink.written };

    ghost finished = { λ sink. sink.finished };

    ghost count = { λ _. 0 };

    fn put(&mut self, from: &[u8]) -> Result<(), Failed>
        ensures ok { result ≡ Ok tt }
        ensures put { self.new ≡ record self.old { written = self.old.written ++ from.now } }
    {
        self.hasher.update(from);
        tell(&mut self.told, from);
        Ok(())
    }

    fn finish(&mut self) -> Result<(), Failed>
        ensures ok { result ≡ Ok tt }
        ensures finished { self.new ≡ record self.old { finished = length self.old.written } }
    {
        self.finished = Snapshot::of(&self.told);
        Ok(())
    }

    fn faults(&self) -> u64 {
        0
    }
}
