ghost use Rattle.std.specs.Prelude.{◌≡◌, ℕ, ◌<◌, ◌≤◌, List, Some, [], ◌++◌, length, IfOk, OnOk, OnErr};
ghost use Rattle.pm_types.specs.Counts.{Rose};
ghost use Rattle.pm_io.specs.Streams.{TakesFront, AppendsPart};

use crate::Peer;
use crate::calls::raise;
use pm_io::{Failed, Sink, Source};

/// The peer whose bytes are those of a source, and who is told by a sink. It does not tell what was said.
#[derive(Drop)]
pub struct Streams<S: Source, K: Sink> {
    /// What is heard.
    pub source: S,
    /// What is told.
    pub sink: K,
    faults: u64,
}

impl<S: Source, K: Sink> Streams<S, K> {
    /// The peer over these two, of which no fault was counted yet.
    pub fn new(source: S, sink: K) -> Self
        ensures heard { result.source ≡ source }
        ensures told { result.sink ≡ sink }
        ensures none { result.faults ≡ 0 }
    {
        Streams {
            source,
            sink,
            faults: 0,
        }
    }

    /// The two, given back.
    pub fn into_parts(self) -> (S, K)
        ensures heard { result.0 ≡ self.source }
        ensures told { result.1 ≡ self.sink }
    {
        (self.source, self.sink)
    }
}

// Puts the line, and then finishes it.
fn put_and_finish<K: Sink>(sink: &mut K, line: &[u8]) -> Result<(), Failed>
    ensures put { OnOk result ((bytes : List ℕ) → K.written sink.old ≡ Some bytes
        → K.written sink.new ≡ Some (bytes ++ line.now)) }
    ensures finished { OnOk result ((bytes : List ℕ) → K.written sink.old ≡ Some bytes
        → K.finished sink.new ≡ length (bytes ++ line.now)) }
    ensures failed { OnErr result ((bytes : List ℕ) → K.written sink.old ≡ Some bytes
        → AppendsPart bytes line.now (K.written sink.new)) }
    ensures finish_stays { OnErr result (K.finished sink.new ≡ K.finished sink.old) }
    ensures counted { OnOk result (K.count sink.new ≡ K.count sink.old) }
    ensures cause { OnErr result (Rose (K.count sink.old) (K.count sink.new)) }
{
    sink.put(line)?;
    sink.finish()
}

impl<S: Source, K: Sink> Peer for Streams<S, K> {
    ghost use Rattle.std.specs.Prelude.{None};

    ghost left = { λ peer. S.left peer.source };

    ghost talk = { λ _. None };

    ghost count = { λ peer. peer.faults };

    fn hear(&mut self, into: &mut [u8]) -> Result<usize, Failed>
        // One `take` of the source.
        ensures fits { IfOk result (λ n. n ≤ length into.old) }
        ensures taken { IfOk result (λ n. (bytes : List ℕ) → S.left self.old.source ≡ Some bytes
            → TakesFront bytes n into.new (S.left self.new.source)) }
        ensures end { IfOk result (λ n. (bytes : List ℕ) → S.left self.old.source ≡ Some bytes
            → n ≡ 0 → 0 < length into.old → bytes ≡ []) }
        ensures failed { OnErr result ((bytes : List ℕ) → S.left self.old.source ≡ Some bytes
            → S.left self.new.source ≡ Some bytes) }
        ensures source_counted { OnOk result (S.count self.new.source ≡ S.count self.old.source) }
        ensures source_cause { OnErr result (Rose (S.count self.old.source) (S.count self.new.source)) }
        ensures sink_stays { self.new.sink ≡ self.old.sink }
        ensures counted { OnOk result (self.new.faults ≡ self.old.faults) }
        ensures cause { OnErr result (Rose self.old.faults self.new.faults) }
    {
        match self.source.take(into) {
            Ok(n) => Ok(n),
            Err(failed) => {
                raise(&mut self.faults);
                Err(failed)
            }
        }
    }

    fn tell(&mut self, line: &[u8]) -> Result<(), Failed>
        // One `put` of the sink, and then one `finish`.
        ensures put { OnOk result ((bytes : List ℕ) → K.written self.old.sink ≡ Some bytes
            → K.written self.new.sink ≡ Some (bytes ++ line.now)) }
        ensures finished { OnOk result ((bytes : List ℕ) → K.written self.old.sink ≡ Some bytes
            → K.finished self.new.sink ≡ length (bytes ++ line.now)) }
        ensures failed { OnErr result ((bytes : List ℕ) → K.written self.old.sink ≡ Some bytes
            → AppendsPart bytes line.now (K.written self.new.sink)) }
        ensures finish_stays { OnErr result (K.finished self.new.sink ≡ K.finished self.old.sink) }
        ensures sink_counted { OnOk result (K.count self.new.sink ≡ K.count self.old.sink) }
        ensures sink_cause { OnErr result (Rose (K.count self.old.sink) (K.count self.new.sink)) }
        ensures source_stays { self.new.source ≡ self.old.source }
        ensures counted { OnOk result (self.new.faults ≡ self.old.faults) }
        ensures cause { OnErr result (Rose self.old.faults self.new.faults) }
    {
        match put_and_finish(&mut self.sink, line) {
            Ok(()) => Ok(()),
            Err(failed) => {
                raise(&mut self.faults);
                Err(failed)
            }
        }
    }

    fn faults(&self) -> u64 {
        self.faults
    }
}
