//! The buffer between replies and their sink.

ghost use Rattle.std.specs.Prelude.{◌≡◌, ◌≤◌, ◌<◌, ◌+◌, ◌++◌, [], length, take, IfOk};
ghost use Rattle.pm_types.specs.declared.limits.TheConstants.{CLIENTS};
ghost use Rattle.pm_types.specs.Replies.{IsShortReply};
ghost use Rattle.pm_model.specs.Text.{reply_line};
ghost use Rattle.pm_script.specs.declared.reply.TheConstants.{REPLY_BYTES};
ghost use Rattle.pm_serial.specs.declared.output.output.TheConstants.{BUFFER_BYTES};

use pm_io::{Failed, Sink};
use pm_script::{REPLY_BYTES, reply_into};
use pm_types::{Entry, NoMemory};
use std::alloc::Global;

/// How many bytes of replies are gathered before they go to the sink.
pub const BUFFER_BYTES: usize = 65_536;

/// A law of the buffer: it has room for 65,536 bytes.
pub fn the_buffer_has_its_size()
    ensures { BUFFER_BYTES ≡ 65536 }
{}

/// Reply lines that are gathered before they go to a sink. Its room is taken when it is made; no further call takes
/// memory.
#[derive(Drop)]
pub struct Output {
    /// `BUFFER_BYTES` bytes, the first `used` of which are gathered.
    bytes: Vec<u8>,
    used: usize,
    ghost full: { length bytes.items ≡ BUFFER_BYTES },
    ghost within: { used ≤ BUFFER_BYTES },
}

// Puts the reply line of an entry behind the first `used` bytes, and answers its length.
fn put_line(bytes: &mut [u8], used: usize, entry: &Entry) -> usize
    requires room { used + REPLY_BYTES ≤ length bytes.old }
    requires client { entry.now.client < CLIENTS }
    requires short { IsShortReply entry.now.reply }
    ensures text { take (used + result) bytes.new ≡ take used bytes.old ++ reply_line entry.now }
    ensures within { used + result ≤ length bytes.new }
    ensures len { length bytes.new ≡ length bytes.old }
{
    reply_into(entry, &mut bytes[used..])
}

// Puts a line behind the first `used` bytes.
fn put_bytes(bytes: &mut [u8], used: usize, line: &[u8])
    requires { used + length line.now ≤ length bytes.old }
    ensures text { take (used + length line.now) bytes.new ≡ take used bytes.old ++ line.now }
    ensures len { length bytes.new ≡ length bytes.old }
{
    bytes[used..used + line.len()].copy_from_slice(line);
}

impl Output {
    ghost use Rattle.std.specs.Prelude.{◌≡◌, ◌+◌, ◌≤◌, ◌<◌, ◌++◌, List, ℕ, [], length, OnOk, OnErr};
    ghost use Rattle.pm_types.specs.Counts.{Rose};
    ghost use Rattle.pm_types.specs.declared.limits.TheConstants.{CLIENTS};
    ghost use Rattle.pm_types.specs.Replies.{IsShortReply};
    ghost use Rattle.pm_model.specs.Text.{reply_line};
    ghost use Rattle.pm_script.specs.declared.reply.TheConstants.{REPLY_BYTES};
    ghost use Rattle.pm_serial.specs.Output.Gathered.{gathered};
    ghost use Rattle.pm_serial.specs.Output.Writing.{FinishesAll, GoesOn, PutsPart, PutsAll};

    /// A buffer of 65,536 bytes in which nothing is gathered.
    pub fn new(alloc: Global) -> Result<Output, NoMemory>
        ensures { IfOk result (λ output. gathered output ≡ []) }
    {
        let mut bytes = Vec::new(alloc);
        bytes.resize(BUFFER_BYTES, 0)?;
        Ok(Output { bytes, used: 0 })
    }

    /// Puts what is gathered, and gathers anew.
    ///
    /// # Errors
    ///
    /// The sink failed: it has a first part of what was gathered, which may be none or all.
    pub fn put<K: Sink>(&mut self, sink: &mut K) -> Result<(), Failed>
        ensures all { OnOk result (PutsAll (K.written sink.old) (K.written sink.new) (gathered self.old)) }
        ensures empty { OnOk result (gathered self.new ≡ []) }
        ensures part { OnErr result (PutsPart (K.written sink.old) (K.written sink.new) (gathered self.old)) }
        ensures finish_stays { K.finished sink.new ≡ K.finished sink.old }
        ensures counted { OnOk result (K.count sink.new ≡ K.count sink.old) }
        ensures cause { OnErr result (Rose (K.count sink.old) (K.count sink.new)) }
    {
        sink.put(&self.bytes[..self.used])?;
        self.used = 0;
        Ok(())
    }

    // Puts what is gathered where there is no room for one more reply line.
    fn make_room<K: Sink>(&mut self, sink: &mut K) -> Result<(), Failed>
        ensures room { OnOk result (length (gathered self.new) + REPLY_BYTES ≤ BUFFER_BYTES) }
        ensures adds { OnOk result (GoesOn [] (K.written sink.old) (K.written sink.new)
            (gathered self.old) (gathered self.new)) }
        ensures part { OnErr result (PutsPart (K.written sink.old) (K.written sink.new) (gathered self.old)) }
        ensures finish_stays { K.finished sink.new ≡ K.finished sink.old }
        ensures counted { OnOk result (K.count sink.new ≡ K.count sink.old) }
        ensures cause { OnErr result (Rose (K.count sink.old) (K.count sink.new)) }
    {
        if self.used > BUFFER_BYTES - REPLY_BYTES {
            return self.put(sink);
        }
        Ok(())
    }

    /// Gathers the reply line of an entry. What was gathered before goes to the sink first where there is no room for one
    /// more line. A reply shows 4,096 bytes at most, as an object has.
    ///
    /// # Errors
    ///
    /// The sink failed: it has a first part of what was gathered before.
    pub fn add_reply<K: Sink>(&mut self, sink: &mut K, entry: &Entry) -> Result<(), Failed>
        requires client { entry.now.client < CLIENTS }
        requires short { IsShortReply entry.now.reply }
        ensures adds { OnOk result (GoesOn (reply_line entry.now) (K.written sink.old) (K.written sink.new)
            (gathered self.old) (gathered self.new)) }
        ensures part { OnErr result (PutsPart (K.written sink.old) (K.written sink.new) (gathered self.old)) }
        ensures finish_stays { K.finished sink.new ≡ K.finished sink.old }
        ensures counted { OnOk result (K.count sink.new ≡ K.count sink.old) }
        ensures cause { OnErr result (Rose (K.count sink.old) (K.count sink.new)) }
    {
        self.make_room(sink)?;
        self.used += put_line(&mut self.bytes, self.used, entry);
        Ok(())
    }

    /// Gathers a line that has no more bytes than a reply line may have, which are 8,195. What was gathered before goes
    /// to the sink first where there is no room for one more reply line.
    ///
    /// # Errors
    ///
    /// The sink failed: it has a first part of what was gathered before.
    pub fn add_line<K: Sink>(&mut self, sink: &mut K, line: &[u8]) -> Result<(), Failed>
        requires short { length line.now ≤ REPLY_BYTES }
        ensures adds { OnOk result (GoesOn line.now (K.written sink.old) (K.written sink.new)
            (gathered self.old) (gathered self.new)) }
        ensures part { OnErr result (PutsPart (K.written sink.old) (K.written sink.new) (gathered self.old)) }
        ensures finish_stays { K.finished sink.new ≡ K.finished sink.old }
        ensures counted { OnOk result (K.count sink.new ≡ K.count sink.old) }
        ensures cause { OnErr result (Rose (K.count sink.old) (K.count sink.new)) }
    {
        self.make_room(sink)?;
        put_bytes(&mut self.bytes, self.used, line);
        self.used += line.len();
        Ok(())
    }

    /// Puts what is gathered, and finishes the sink.
    ///
    /// # Errors
    ///
    /// The sink failed: it has a first part of what was gathered, which may be none or all, and no more is finished than
    /// was.
    pub fn finish<K: Sink>(&mut self, sink: &mut K) -> Result<(), Failed>
        ensures all { OnOk result (PutsAll (K.written sink.old) (K.written sink.new) (gathered self.old)) }
        ensures empty { OnOk result (gathered self.new ≡ []) }
        ensures finished { OnOk result (FinishesAll (K.written sink.old) (K.finished sink.new) (gathered self.old)) }
        ensures part { OnErr result (PutsPart (K.written sink.old) (K.written sink.new) (gathered self.old)) }
        ensures kept { OnErr result (K.finished sink.new ≡ K.finished sink.old) }
        ensures counted { OnOk result (K.count sink.new ≡ K.count sink.old) }
        ensures cause { OnErr result (Rose (K.count sink.old) (K.count sink.new)) }
    {
        self.put(sink)?;
        sink.finish()
    }
}
