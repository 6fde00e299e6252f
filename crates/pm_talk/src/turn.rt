//! One turn of a conversation: a line is heard, and its answer is told.

ghost use Rattle.std.specs.Prelude.{◌≡◌, ◌⊎◌, ◌≤◌, ℕ, [], ◌∷◌, length, None, Err, OnOk, OnErr};
ghost use Rattle.pm_types.specs.Counts.{Rose};
ghost use Rattle.pm_place.specs.Choosers.{IsChooser};
ghost use Rattle.pm_script.specs.declared.fault.Cause.TheVariants as cause;
ghost use Rattle.pm_script.specs.declared.reply.TheConstants.{REPLY_BYTES};
ghost use Rattle.pm_peer.specs.Questions.{asked_at};
ghost use Rattle.pm_engine.specs.Shown.{chooser, serving};
ghost use Rattle.pm_talk.specs.declared.events.TheConstants.{MOST_EVENTS};
ghost use Rattle.pm_talk.specs.Going.{TalkGoesOn};
ghost use Rattle.pm_talk.specs.Saying.{IsWithin, due_by, told_by};
ghost use Rattle.pm_talk.specs.Stepping.{AnswersTo, CountsTurn, FinishesTurn, TurnsTo, took, turn_stop};
ghost use Rattle.pm_talk.specs.Talks.{kept_in};
ghost use Rattle.pm_talk.specs.Texts.{disk_fault_line};
ghost use Rattle.pm_talk.specs.Wires.{TellsFirst, TellsLines, wire};

use crate::answer::{Saying, answer_body};
use crate::buffers::Buffers;
use crate::ending::Ending;
use crate::events::collect_behind;
use crate::texts::{disk_fault_line, fault_line};
use pm_disk::Disk;
use pm_engine::events::Engine;
use pm_io::Failed;
use pm_peer::{Next, Peer};
use pm_script::Cause;
use std::alloc::Global;

/// Tells a line, which has its newline.
pub(crate) fn tell_line<P: Peer>(line: &[u8], peer: &mut P) -> Result<(), Failed>
    ensures all { OnOk result (TellsLines (line.now ∷ []) (wire P.Peer peer.old) (wire P.Peer peer.new)) }
    ensures part { OnErr result (TellsFirst (line.now ∷ []) (wire P.Peer peer.old) (wire P.Peer peer.new)) }
    ensures counted { OnOk result (P.count peer.new ≡ P.count peer.old) }
    ensures cause { OnErr result (Rose (P.count peer.old) (P.count peer.new)) }
{
    peer.tell(line)
}

// Tells an answer.
fn tell_saying<P: Peer>(saying: &Saying, reply: &[u8], peer: &mut P) -> Result<(), Failed>
    requires { IsWithin reply.now saying.now }
    ensures all { OnOk result (TellsLines (told_by reply.now saying.now ∷ [])
        (wire P.Peer peer.old) (wire P.Peer peer.new)) }
    ensures part { OnErr result (TellsFirst (told_by reply.now saying.now ∷ [])
        (wire P.Peer peer.old) (wire P.Peer peer.new)) }
    ensures counted { OnOk result (P.count peer.new ≡ P.count peer.old) }
    ensures cause { OnErr result (Rose (P.count peer.old) (P.count peer.new)) }
{
    match saying {
        Saying::Reply { bytes, .. } => tell_line(&reply[..*bytes], peer),
        Saying::Short(line) => tell_line(line.as_slice(), peer),
        Saying::Text(line) => tell_line(line.as_slice(), peer),
    }
}

// How many events of the collector are due behind an answer.
fn due_of(saying: &Saying) -> u32
    ensures { result ≡ due_by saying.now }
{
    match saying {
        Saying::Reply { due, .. } => *due,
        _ => 0,
    }
}

// Tells an answer, makes the events of the collector that are due behind it, and lets the entries go.
fn finish_turn<D: Disk, F: Fn(&[u64]) -> usize + Drop, P: Peer>(
    alloc: Global,
    engine: &mut Engine<D, F>,
    saying: Saying,
    reply: &[u8],
    peer: &mut P,
) -> Result<(), Ending>
    requires within { IsWithin reply.now saying }
    requires running { (serving engine.old).stopped ≡ None }
    requires chooser { IsChooser F.Fn (chooser engine.old) }
    ensures turn { FinishesTurn (told_by reply.now saying) (due_by saying) (serving engine.old) (serving engine.new)
        (wire P.Peer peer.old) (wire P.Peer peer.new) result }
    ensures engine { TalkGoesOn engine.old engine.new None }
    ensures cause { CountsTurn result (P.count peer.old) (P.count peer.new) }
{
    engine.keep_their_images();
    match tell_saying(&saying, reply, peer) {
        Ok(()) => {}
        Err(_) => return Err(Ending::Telling),
    }
    collect_behind(alloc, engine, due_of(&saying));
    engine.keep_their_images();
    engine.forget_entries();
    Ok(())
}

// Tells that the disk failed. Where the peer fails too, the disk is why the conversation ends.
fn tell_failure<P: Peer>(peer: &mut P)
    ensures told { TellsLines (disk_fault_line ∷ []) (wire P.Peer peer.old) (wire P.Peer peer.new)
        ⊎ TellsFirst (disk_fault_line ∷ []) (wire P.Peer peer.old) (wire P.Peer peer.new) }
    ensures counted { (P.count peer.new ≡ P.count peer.old) ⊎ Rose (P.count peer.old) (P.count peer.new) }
{
    match tell_line(disk_fault_line().as_slice(), peer) {
        Ok(()) => {}
        Err(_) => {}
    }
}

// Answers a line of at most 16,384 bytes that says something, and tells the answer.
fn answer_turn<D: Disk, F: Fn(&[u64]) -> usize + Drop, P: Peer>(
    alloc: Global,
    engine: &mut Engine<D, F>,
    events: u32,
    body: &[u8],
    reply: &mut [u8],
    peer: &mut P,
) -> Result<(), Ending>
    requires few { events ≤ MOST_EVENTS }
    requires running { (serving engine.old).stopped ≡ None }
    requires chooser { IsChooser F.Fn (chooser engine.old) }
    requires room { length reply.old ≡ REPLY_BYTES }
    ensures answers { AnswersTo events (asked_at body.now) (serving engine.old) (serving engine.new)
        (wire P.Peer peer.old) (wire P.Peer peer.new) result }
    ensures engine { TalkGoesOn engine.old engine.new (turn_stop result) }
    ensures cause { CountsTurn result (P.count peer.old) (P.count peer.new) }
    ensures len { length reply.new ≡ length reply.old }
{
    match answer_body(alloc, engine, events, body, reply) {
        Some(saying) => finish_turn(alloc, engine, saying, reply, peer),
        None => {
            tell_failure(peer);
            Err(Ending::Device)
        }
    }
}

// Answers a line of more bytes, which was passed over.
fn answer_long<D: Disk, F: Fn(&[u64]) -> usize + Drop, P: Peer>(
    alloc: Global,
    engine: &mut Engine<D, F>,
    peer: &mut P,
) -> Result<(), Ending>
    requires running { (serving engine.old).stopped ≡ None }
    requires chooser { IsChooser F.Fn (chooser engine.old) }
    ensures answers { (events : ℕ) → AnswersTo events (Err cause.LineTooLong) (serving engine.old) (serving engine.new)
        (wire P.Peer peer.old) (wire P.Peer peer.new) result }
    ensures engine { TalkGoesOn engine.old engine.new (turn_stop result) }
    ensures cause { CountsTurn result (P.count peer.old) (P.count peer.new) }
{
    let saying = Saying::Short(fault_line(Cause::LineTooLong));
    finish_turn(alloc, engine, saying, &[], peer)
}

// What was heard, where its turn was taken.
fn took(next: Next, answered: Result<(), Ending>) -> Result<Next, Ending>
    ensures { result ≡ took next answered }
{
    match answered {
        Ok(()) => Ok(next),
        Err(ending) => Err(ending),
    }
}

/// Takes one turn, and answers what was heard: a line of any kind, whose turn is done, or the end, to which nothing was
/// told yet.
pub(crate) fn take_turn<D: Disk, F: Fn(&[u64]) -> usize + Drop, P: Peer>(
    alloc: Global,
    engine: &mut Engine<D, F>,
    events: u32,
    buffers: &mut Buffers,
    peer: &mut P,
) -> Result<Next, Ending>
    requires few { events ≤ MOST_EVENTS }
    requires running { (serving engine.old).stopped ≡ None }
    requires chooser { IsChooser F.Fn (chooser engine.old) }
    ensures turn { TurnsTo events result (kept_in buffers.old) (kept_in buffers.new) (serving engine.old)
        (serving engine.new) (wire P.Peer peer.old) (wire P.Peer peer.new) }
    ensures engine { TalkGoesOn engine.old engine.new (turn_stop result) }
    ensures cause { CountsTurn result (P.count peer.old) (P.count peer.new) }
{
    engine.keep_their_images();
    match buffers.lines.next(peer) {
        Ok(next) => match next {
            Next::Line => {
                let body = buffers.lines.line();
                let answered = answer_turn(alloc, engine, events, body, &mut buffers.reply, peer);
                took(Next::Line, answered)
            }
            Next::TooLong => took(Next::TooLong, answer_long(alloc, engine, peer)),
            Next::Silent => Ok(Next::Silent),
            Next::Cut => Ok(Next::Cut),
            Next::End => Ok(Next::End),
        },
        Err(_) => Err(Ending::Hearing),
    }
}
