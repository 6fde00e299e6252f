ghost use Rattle.std.specs.Prelude.{◌≡◌, ℕ, ◌+◌, ◌-◌, ◌<◌, ◌≤◌, [], List, Some, length, take, drop, true, false, MatchOption, IfOk, OnOk, OnErr};
ghost use Rattle.pm_types.specs.Counts.{Rose};
ghost use Rattle.pm_script.specs.Lines.{is_silent};
ghost use Rattle.pm_peer.specs.declared.said.Said.{Said};
ghost use Rattle.pm_peer.specs.FirstLine.{has_newline, answer_to, lent, IsFirstNewline};
ghost use Rattle.pm_io.specs.Streams.{TakesFront};
ghost use Rattle.pm_peer.specs.Buffers.{HearsPiece};
ghost use Rattle.pm_peer.specs.Talk.{heard_more};

use crate::{Next, Peer};
use memchr::memchr;
use pm_io::Failed;
use pm_script::LINE_BYTES;
use pm_types::NoMemory;
use std::alloc::Global;
use std::marker::Model;

/// How many bytes the buffer of lines has.
pub(crate) const BUFFER_BYTES: usize = 65_536;

/// Bytes that were heard and are in no answer yet, one after the other in a buffer, and the line that is lent.
#[derive(Drop)]
pub(crate) struct Buffer {
    bytes: Vec<u8>,
    from: usize,
    to: usize,
    line_from: usize,
    line_to: usize,
}

impl Model for Buffer {
    ghost use Rattle.std.specs.Prelude.{◌≡◌, ◌≤◌, ◌-◌, length};
    ghost use Rattle.std.specs.List.{slice_range};
    ghost use Rattle.pm_peer.specs.Buffers.{BufferState};
    ghost use Rattle.pm_peer.specs.declared.buffer.TheConstants.{BUFFER_BYTES};

    ghost Value = { BufferState };

    ghost view = { λ b. record {
      kept = slice_range b.bytes.items b.from b.to;
      line = slice_range b.bytes.items b.line_from b.line_to;
      room = BUFFER_BYTES - b.to;
    } };

    ghost invariant = { λ b. (length b.bytes.items ≡ BUFFER_BYTES) × (b.from ≤ b.to) × (b.to ≤ BUFFER_BYTES)
        × (b.line_from ≤ b.line_to) × (b.line_to ≤ BUFFER_BYTES) };
}

// Whether a line says nothing.
fn is_silent(body: &[u8]) -> bool
    ensures { result ≡ is_silent body.now }
{
    match body {
        [] => true,
        [first, ..] => *first == b'#',
    }
}

/// What is answered to a line.
pub(crate) fn answer_to(body: &[u8]) -> Next
    ensures { result ≡ answer_to body.now }
{
    if is_silent(body) {
        Next::Silent
    } else if body.len() > LINE_BYTES {
        Next::TooLong
    } else {
        Next::Line
    }
}

// How many bytes of a line with this answer are lent.
fn lent_bytes(answer: Next, count: usize) -> usize
    ensures within { result ≤ count }
    ensures lends { (bytes : List ℕ) → take result bytes ≡ lent answer (take count bytes) }
{
    match answer {
        Next::Line => count,
        Next::Silent | Next::TooLong | Next::Cut | Next::End => 0,
    }
}

/// Where the first newline stands in a text of which so many bytes have none.
pub(crate) fn newline_behind(text: &[u8], searched: usize) -> Option<usize>
    requires within { searched ≤ length text.now }
    requires quiet { has_newline (take searched text.now) ≡ false }
    ensures { MatchOption result (has_newline text.now ≡ false) (IsFirstNewline text.now) }
{
    match memchr(b'\n', &text[searched..]) {
        Some(at) => Some(searched + at),
        None => None,
    }
}

// Hears one piece into the bytes from a place on.
fn hear_into<P: Peer>(bytes: &mut [u8], to: usize, peer: &mut P) -> Result<usize, Failed>
    requires { to ≤ length bytes.old }
    ensures front { take to bytes.new ≡ take to bytes.old }
    ensures fits { IfOk result (λ n. n ≤ length bytes.old - to) }
    ensures taken { IfOk result (λ n. (left : List ℕ) → P.left peer.old ≡ Some left
        → TakesFront left n (drop to bytes.new) (P.left peer.new)) }
    ensures end { IfOk result (λ n. (left : List ℕ) → P.left peer.old ≡ Some left
        → n ≡ 0 → 0 < length bytes.old - to → left ≡ []) }
    ensures heard { IfOk result (λ n. (said : List Said) → P.talk peer.old ≡ Some said
        → P.talk peer.new ≡ Some (heard_more said (take n (drop to bytes.new)))) }
    ensures left_stays { OnErr result ((left : List ℕ) → P.left peer.old ≡ Some left
        → P.left peer.new ≡ Some left) }
    ensures talk_stays { OnErr result ((said : List Said) → P.talk peer.old ≡ Some said
        → P.talk peer.new ≡ Some said) }
    ensures counted { OnOk result (P.count peer.new ≡ P.count peer.old) }
    ensures cause { OnErr result (Rose (P.count peer.old) (P.count peer.new)) }
{
    peer.hear(&mut bytes[to..])
}

impl Buffer {
    /// An empty buffer, for 65,536 bytes.
    pub(crate) fn new(alloc: Global) -> Result<Buffer, NoMemory>
        ensures { IfOk result (λ buffer. buffer ≡ record { kept = []; line = []; room = BUFFER_BYTES }) }
    {
        Ok(Buffer {
            bytes: vec![in alloc; 0u8; BUFFER_BYTES]?,
            from: 0,
            to: 0,
            line_from: 0,
            line_to: 0,
        })
    }

    /// The bytes that it keeps, lent.
    pub(crate) fn kept(&self) -> &[u8]
        ensures { result.now ≡ self.now.kept }
    {
        &self.bytes[self.from..self.to]
    }

    /// The line that it lends.
    pub(crate) fn line(&self) -> &[u8]
        ensures { result.now ≡ self.now.line }
    {
        &self.bytes[self.line_from..self.line_to]
    }

    /// How many bytes it keeps.
    pub(crate) fn len(&self) -> usize
        ensures { result ≡ length self.now.kept }
    {
        self.to - self.from
    }

    /// How many more bytes fit behind what it keeps.
    pub(crate) fn room(&self) -> usize
        ensures { result ≡ self.now.room }
    {
        BUFFER_BYTES - self.to
    }

    /// Forgets all.
    pub(crate) fn clear(&mut self)
        ensures { self.new ≡ record { kept = []; line = []; room = BUFFER_BYTES } }
    {
        self.from = 0;
        self.to = 0;
        self.line_from = 0;
        self.line_to = 0;
    }

    /// Moves what it keeps to its front, so that all other room is behind that. It lends no line then.
    pub(crate) fn move_to_front(&mut self)
        ensures kept { self.new.kept ≡ self.old.kept }
        ensures no_line { self.new.line ≡ [] }
        ensures room { self.new.room ≡ BUFFER_BYTES - length self.old.kept }
        ensures within { length self.old.kept ≤ BUFFER_BYTES }
    {
        let count = self.to - self.from;
        self.bytes.as_mut_slice().copy_within(self.from..self.to, 0);
        self.from = 0;
        self.to = count;
        self.line_from = 0;
        self.line_to = 0;
    }

    /// Hears one piece behind what it keeps, and answers how many bytes that has: 0, where there is room, only at the end.
    pub(crate) fn hear_piece<P: Peer>(&mut self, peer: &mut P) -> Result<usize, Failed>
        ensures heard { IfOk result (λ n. HearsPiece n self.old self.new (P.left peer.old) (P.left peer.new)
            (P.talk peer.old) (P.talk peer.new)) }
        ensures left_stays { OnErr result ((bytes : List ℕ) → P.left peer.old ≡ Some bytes
            → P.left peer.new ≡ Some bytes) }
        ensures talk_stays { OnErr result ((said : List Said) → P.talk peer.old ≡ Some said
            → P.talk peer.new ≡ Some said) }
        ensures counted { OnOk result (P.count peer.new ≡ P.count peer.old) }
        ensures cause { OnErr result (Rose (P.count peer.old) (P.count peer.new)) }
    {
        self.line_from = 0;
        self.line_to = 0;
        let n = hear_into(self.bytes.as_mut_slice(), self.to, peer)?;
        self.to += n;
        Ok(n)
    }

    /// Takes the line whose newline stands at a place of what is kept.
    pub(crate) fn take_line(&mut self, at: usize) -> Next
        requires within { at < length self.old.kept }
        ensures answer { result ≡ answer_to (take at self.old.kept) }
        ensures lends { self.new.line ≡ lent result (take at self.old.kept) }
        ensures kept { self.new.kept ≡ drop (at + 1) self.old.kept }
    {
        let answer = answer_to(&self.bytes[self.from..self.from + at]);
        let count = lent_bytes(answer, at);
        self.line_from = self.from;
        self.line_to = self.from + count;
        self.from += at + 1;
        answer
    }

    /// Lets go of what is kept up to a place, and the byte there. It lends no line then.
    pub(crate) fn pass(&mut self, at: usize)
        requires within { at < length self.old.kept }
        ensures no_line { self.new.line ≡ [] }
        ensures kept { self.new.kept ≡ drop (at + 1) self.old.kept }
    {
        self.line_from = 0;
        self.line_to = 0;
        self.from += at + 1;
    }
}
