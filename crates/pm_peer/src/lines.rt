ghost use Rattle.std.specs.Prelude.{◌≡◌, ℕ, ◌<◌, ◌≤◌, ◌-◌, List, Some, [], length, take, true, false, MatchOption, IfOk, OnOk, OnErr};
ghost use Rattle.pm_types.specs.Counts.{Rose, greatest_count};
ghost use Rattle.pm_peer.specs.FirstLine.{has_newline, IsFirstLine, IsAnswer};
ghost use Rattle.pm_peer.specs.Hearing.{new_lines, lines_in, HearsNext, HearsNone, HearsQuiet};

use crate::buffer::{BUFFER_BYTES, Buffer, answer_to, newline_behind};
use crate::{Next, Peer};
use pm_io::Failed;
use pm_script::LINE_BYTES;
use pm_types::NoMemory;
use std::alloc::Global;
use std::marker::Model;

/// The lines of a peer, one at a time. Seen are the bytes that were heard and are in no answer yet, and the line that is
/// lent.
#[derive(Drop)]
pub struct Lines {
    buffer: Buffer,
}

impl Model for Lines {
    ghost use Rattle.pm_peer.specs.Hearing.{LinesState, lines_in};

    ghost Value = { LinesState };

    ghost view = { λ lines. lines_in lines.buffer };
}

// Takes the first line of what is kept, of which so many bytes have no newline; nothing where the others have none
// either.
#[tactic(auto, using(crate::proofs::Answers::first_taken))]
fn take_first(buffer: &mut Buffer, searched: usize) -> Option<Next>
    requires within { searched ≤ length buffer.old.kept }
    requires quiet { has_newline (take searched buffer.old.kept) ≡ false }
    ensures { MatchOption result ((has_newline buffer.old.kept ≡ false) × (buffer.new ≡ buffer.old))
        (λ next. IsFirstLine next buffer.old.kept buffer.new.line buffer.new.kept) }
{
    let at = newline_behind(buffer.kept(), searched)?;
    Some(buffer.take_line(at))
}

// What is answered at the end to what is kept, which is spent.
fn take_end(buffer: &mut Buffer) -> Next
    requires quiet { has_newline buffer.old.kept ≡ false }
    ensures answer { IsAnswer result 0 buffer.old.kept buffer.new.line buffer.new.kept }
{
    let some = buffer.len() > 0;
    buffer.clear();
    if some { Next::Cut } else { Next::End }
}

// Passes over the rest of a line whose first bytes, more than a line may have, are kept.
fn pass_line<P: Peer>(buffer: &mut Buffer, peer: &mut P) -> Result<Next, Failed>
    requires quiet { has_newline buffer.old.kept ≡ false }
    requires long { LINE_BYTES < length buffer.old.kept }
    ensures next { IfOk result (λ next. HearsNext next (lines_in buffer.old) (lines_in buffer.new)
        (P.left peer.old) (P.left peer.new) (P.talk peer.old) (P.talk peer.new)) }
    ensures none { OnErr result (HearsQuiet buffer.old.kept (P.left peer.old) (P.left peer.new) (P.talk peer.old)
        (P.talk peer.new)) }
    ensures counted { OnOk result (P.count peer.new ≡ P.count peer.old) }
    ensures cause { OnErr result (Rose (P.count peer.old) (P.count peer.new)) }
{
    let answer = answer_to(buffer.kept());
    for _turn in 0..u64::MAX {
        buffer.clear();
        let n = buffer.hear_piece(peer)?;
        if n == 0 {
            return Ok(Next::Cut);
        }
        if let Some(at) = newline_behind(buffer.kept(), 0) {
            buffer.pass(at);
            return Ok(answer);
        }
    }
    buffer.clear();
    Ok(Next::End)
}

// Hears on until what is kept has a line. All room is behind what is kept.
fn hear_line<P: Peer>(buffer: &mut Buffer, peer: &mut P) -> Result<Next, Failed>
    requires quiet { has_newline buffer.old.kept ≡ false }
    requires room { buffer.old.room ≡ BUFFER_BYTES - length buffer.old.kept }
    requires within { length buffer.old.kept ≤ BUFFER_BYTES }
    ensures next { IfOk result (λ next. HearsNext next (lines_in buffer.old) (lines_in buffer.new)
        (P.left peer.old) (P.left peer.new) (P.talk peer.old) (P.talk peer.new)) }
    ensures none { OnErr result (HearsQuiet buffer.old.kept (P.left peer.old) (P.left peer.new) (P.talk peer.old)
        (P.talk peer.new)) }
    ensures counted { OnOk result (P.count peer.new ≡ P.count peer.old) }
    ensures cause { OnErr result (Rose (P.count peer.old) (P.count peer.new)) }
{
    while buffer.room() > 0 {
        let searched = buffer.len();
        let n = buffer.hear_piece(peer)?;
        if n == 0 {
            return Ok(take_end(buffer));
        }
        if let Some(next) = take_first(buffer, searched) {
            return Ok(next);
        }
    }
    pass_line(buffer, peer)
}

impl Lines {
    /// Lines of which nothing was heard. They take memory for 65,536 bytes, and no more later.
    pub fn new(alloc: Global) -> Result<Lines, NoMemory>
        ensures { IfOk result (λ lines. lines ≡ new_lines) }
    {
        Ok(Lines {
            buffer: Buffer::new(alloc)?,
        })
    }

    /// The line of the last answer `Next::Line`, without its newline, until the next one is asked for: 1 to 16,384 bytes.
    /// It has none behind any other answer.
    pub fn line(&self) -> &[u8]
        ensures { result.now ≡ self.now.line }
    {
        self.buffer.line()
    }

    /// The next line of the peer, or what came in its place. Where the buffer has a whole line, the peer is not asked; else
    /// it is heard up to the piece that ends a line, and no further. Of a long line one buffer after another is passed
    /// over. `Failed` where a call of the peer failed: what was kept and heard is lost, so that what comes next may begin
    /// within a line. The peer whose first 18,446,744,073,709,551,615 pieces have no newline is at its end.
    pub fn next<P: Peer>(&mut self, peer: &mut P) -> Result<Next, Failed>
        // What was heard, in order, and the answer that it has.
        ensures next { IfOk result (λ next. HearsNext next self.old self.new
            (P.left peer.old) (P.left peer.new) (P.talk peer.old) (P.talk peer.new)) }
        // Where a whole line is kept, the peer is not asked.
        ensures patient { has_newline self.old.kept ≡ true → peer.new ≡ peer.old }
        // The end that is answered is one, of a peer that tells its bytes.
        ensures ends { IfOk result (λ next. next ≡ Next.End → (bytes : List ℕ) → P.left peer.old ≡ Some bytes
            → length bytes < greatest_count → (self.old.kept ≡ []) × (bytes ≡ [])) }
        // A failure spends the lines.
        ensures none { OnErr result (HearsNone self.old self.new
            (P.left peer.old) (P.left peer.new) (P.talk peer.old) (P.talk peer.new)) }
        ensures counted { OnOk result (P.count peer.new ≡ P.count peer.old) }
        ensures cause { OnErr result (Rose (P.count peer.old) (P.count peer.new)) }
    {
        if let Some(next) = take_first(&mut self.buffer, 0) {
            return Ok(next);
        }
        self.buffer.move_to_front();
        match hear_line(&mut self.buffer, peer) {
            Ok(next) => Ok(next),
            Err(failed) => {
                self.buffer.clear();
                Err(failed)
            }
        }
    }
}
