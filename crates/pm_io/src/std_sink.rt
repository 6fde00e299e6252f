ghost use Rattle.std.specs.Prelude.{◌≡◌, ◌≢◌, ℕ, ◌<◌, ◌≤◌, List, ◌++◌, length, take, Some, IfOk, IfErr, OnOk, OnErr};
ghost use Rattle.std.specs.IoError.{error_kind};
ghost use Rattle.pm_types.specs.Counts.{Rose};
ghost use Rattle.pm_io.specs.Known.{new_sink};
ghost use Rattle.pm_io.specs.Streams.{AppendsPart};
ghost use Rattle.pm_io.specs.Tries.{NoneFailed, ShowsFault};

use crate::calls::count;
use crate::{Failed, OutStream, Sink};
use std::io;
use std::io::{Error, ErrorKind};
use std::marker::Model;

/// A sink over a stream, which may be any of std's writers. It tells the bytes that the stream tells.
#[derive(Drop)]
pub struct StdSink<W: OutStream> {
    writer: W,
    faults: u64,
}

impl<W: OutStream> Model for StdSink<W> {
    ghost use Rattle.pm_io.specs.Known.{SinkOver};

    ghost Value = { SinkOver };

    ghost view = { λ s. record {
      written = W.written s.writer;
      flushed = W.flushed s.writer;
      tries = W.tries s.writer;
      faults = s.faults;
    } };
}

// Writes at least a byte of the piece, and tries again where the call was interrupted.
fn write_once<W: OutStream>(writer: &mut W, from: &[u8]) -> io::Result<usize>
    requires { 0 < length from.now }
    ensures some { IfOk result (λ n. 0 < n) }
    ensures fits { IfOk result (λ n. n ≤ length from.now) }
    ensures ok { IfOk result (λ n. (bytes : List ℕ) → W.written writer.old ≡ Some bytes
        → W.written writer.new ≡ Some (bytes ++ take n from.now)) }
    ensures err { OnErr result ((bytes : List ℕ) → W.written writer.old ≡ Some bytes
        → W.written writer.new ≡ Some bytes) }
    ensures flush_stays { W.flushed writer.new ≡ W.flushed writer.old }
    ensures none_failed { OnOk result (NoneFailed (W.tries writer.old) (W.tries writer.new)) }
    ensures shown { OnErr result (ShowsFault (W.tries writer.old) (W.tries writer.new)) }
    ensures tried_again { IfErr result (λ error. error_kind error ≢ ErrorKind.Interrupted) }
{
    for _turn in 0..u64::MAX {
        match writer.accept(from) {
            Ok(0) => return Err(Error::from(ErrorKind::WriteZero)),
            Ok(n) => return Ok(n),
            Err(error) => {
                if error.kind() != ErrorKind::Interrupted {
                    return Err(error);
                }
            }
        }
    }
    Err(Error::other("interrupted too often"))
}

// Writes the whole piece, all of its rest at each call.
fn write_whole<W: OutStream>(writer: &mut W, from: &[u8]) -> io::Result<()>
    ensures ok { OnOk result ((bytes : List ℕ) → W.written writer.old ≡ Some bytes
        → W.written writer.new ≡ Some (bytes ++ from.now)) }
    ensures err { OnErr result ((bytes : List ℕ) → W.written writer.old ≡ Some bytes
        → AppendsPart bytes from.now (W.written writer.new)) }
    ensures flush_stays { W.flushed writer.new ≡ W.flushed writer.old }
    ensures none_failed { OnOk result (NoneFailed (W.tries writer.old) (W.tries writer.new)) }
    ensures shown { OnErr result (ShowsFault (W.tries writer.old) (W.tries writer.new)) }
    ensures tried_again { IfErr result (λ error. error_kind error ≢ ErrorKind.Interrupted) }
{
    let mut done = 0;
    while done < from.len() {
        done += write_once(writer, &from[done..])?;
    }
    Ok(())
}

// Flushes all bytes, and tries again where the call was interrupted.
fn flush_once<W: OutStream>(writer: &mut W) -> io::Result<()>
    ensures bytes_stay { (bytes : List ℕ) → W.written writer.old ≡ Some bytes
        → W.written writer.new ≡ Some bytes }
    ensures all_flushed { OnOk result ((bytes : List ℕ) → W.written writer.old ≡ Some bytes
        → W.flushed writer.new ≡ length bytes) }
    ensures flush_stays { OnErr result (W.flushed writer.new ≡ W.flushed writer.old) }
    ensures none_failed { OnOk result (NoneFailed (W.tries writer.old) (W.tries writer.new)) }
    ensures shown { OnErr result (ShowsFault (W.tries writer.old) (W.tries writer.new)) }
    ensures tried_again { IfErr result (λ error. error_kind error ≢ ErrorKind.Interrupted) }
{
    for _turn in 0..u64::MAX {
        match writer.flush_all() {
            Ok(()) => return Ok(()),
            Err(why) => {
                if why.kind() != ErrorKind::Interrupted {
                    return Err(why);
                }
            }
        }
    }
    Err(Error::other("interrupted too often"))
}

impl<W: OutStream> StdSink<W> {
    /// A sink that hands on to the stream.
    pub fn new(writer: W) -> Self
        ensures { result ≡ new_sink (W.written writer) (W.flushed writer) (W.tries writer) }
    {
        StdSink { writer, faults: 0 }
    }
}

impl<W: OutStream> Sink for StdSink<W> {
    ghost written = { λ sink. sink.written };

    ghost finished = { λ sink. sink.flushed };

    ghost count = { λ sink. sink.faults };

    fn put(&mut self, from: &[u8]) -> Result<(), Failed>
        ensures appended { OnOk result ((bytes : List ℕ) → self.old.written ≡ Some bytes
            → self.new.written ≡ Some (bytes ++ from.now)) }
        ensures failed { OnErr result ((bytes : List ℕ) → self.old.written ≡ Some bytes
            → AppendsPart bytes from.now self.new.written) }
        ensures finish_stays { self.new.flushed ≡ self.old.flushed }
        ensures counted { OnOk result (self.new.faults ≡ self.old.faults) }
        ensures cause { OnErr result (Rose self.old.faults self.new.faults) }

        // It fails where a call of the stream failed, and there alone.
        ensures none_failed { OnOk result (NoneFailed self.old.tries self.new.tries) }
        ensures shown { OnErr result (ShowsFault self.old.tries self.new.tries) }
    {
        let outcome = write_whole(&mut self.writer, from);
        count(outcome, &mut self.faults)
    }

    fn finish(&mut self) -> Result<(), Failed>
        ensures bytes_stay { (bytes : List ℕ) → self.old.written ≡ Some bytes
            → self.new.written ≡ Some bytes }
        ensures all_finished { OnOk result ((bytes : List ℕ) → self.old.written ≡ Some bytes
            → self.new.flushed ≡ length bytes) }
        ensures failed { OnErr result (self.new.flushed ≡ self.old.flushed) }
        ensures counted { OnOk result (self.new.faults ≡ self.old.faults) }
        ensures cause { OnErr result (Rose self.old.faults self.new.faults) }

        // It fails where a call of the stream failed, and there alone.
        ensures none_failed { OnOk result (NoneFailed self.old.tries self.new.tries) }
        ensures shown { OnErr result (ShowsFault self.old.tries self.new.tries) }
    {
        let outcome = flush_once(&mut self.writer);
        count(outcome, &mut self.faults)
    }

    fn faults(&self) -> u64 {
        self.faults
    }
}
