//! A conversation: the greeting, the turns, and the last lines.

ghost use Rattle.std.specs.Prelude.{◌≡◌, ◌≤◌, [], ◌∷◌, map, None, OnOk, OnErr};
ghost use Rattle.pm_types.specs.Counts.{Rose};
ghost use Rattle.pm_place.specs.Choosers.{IsChooser};
ghost use Rattle.pm_model.specs.Text.{watch_line};
ghost use Rattle.pm_engine.specs.Events.Running.{IsFresh, RunsOnDisk};
ghost use Rattle.pm_engine.specs.Shown.{KeepsStart, chooser, serving, tally_in};
ghost use Rattle.pm_talk.specs.declared.events.TheConstants.{MOST_EVENTS};
ghost use Rattle.pm_talk.specs.Ends.{CountsPeer, disk_stop, lines_behind};
ghost use Rattle.pm_talk.specs.Going.{TalkGoesOn};
ghost use Rattle.pm_talk.specs.Stepping.{CountsTurn, TakesAll, TakesTurns, is_ending, turn_stop};
ghost use Rattle.pm_talk.specs.Talks.{Talks, kept_in};
ghost use Rattle.pm_talk.specs.Texts.{cut_line, end_of, last_lines};
ghost use Rattle.pm_talk.specs.Wires.{TellsFirst, TellsLines, wire};

use crate::buffers::Buffers;
use crate::ending::Ending;
use crate::texts::{cut_line, end_line, greeting, watch_line};
use crate::turn::{take_turn, tell_line};
use pm_disk::Disk;
use pm_engine::events::Engine;
use pm_io::Failed;
use pm_peer::{Next, Peer};
use pm_serial::output::line::Line;
use pm_types::WatchLine;
use std::alloc::Global;

// Whether the input was at its end.
fn is_ending(next: Next) -> bool
    ensures { result ≡ is_ending next }
{
    match next {
        Next::Cut | Next::End => true,
        Next::Line | Next::Silent | Next::TooLong => false,
    }
}

// Takes turns until the input is at its end, and answers whether half a line was cut.
fn take_turns<D: Disk, F: Fn(&[u64]) -> usize + Drop, P: Peer>(
    alloc: Global,
    engine: &mut Engine<D, F>,
    events: u32,
    buffers: &mut Buffers,
    peer: &mut P,
) -> Result<Next, Ending>
    requires few { events ≤ MOST_EVENTS }
    requires running { (serving engine.old).stopped ≡ None }
    requires chooser { IsChooser F.Fn (chooser engine.old) }
    ensures turns { TakesTurns events result (kept_in buffers.old) (serving engine.old) (serving engine.new)
        (wire P.Peer peer.old) (wire P.Peer peer.new) }
    ensures engine { TalkGoesOn engine.old engine.new (turn_stop result) }
    ensures cause { CountsTurn result (P.count peer.old) (P.count peer.new) }
{
    engine.keep_their_images();
    for _ in 0..u64::MAX {
        match take_turn(alloc, engine, events, buffers, peer) {
            Ok(next) => {
                let last = is_ending(next);
                if last {
                    return Ok(next);
                }
            }
            Err(ending) => return Err(ending),
        }
    }
    Ok(Next::End)
}

// Tells a line for each watch.
fn tell_watches<P: Peer>(lines: &[WatchLine], peer: &mut P) -> Result<(), Failed>
    ensures all { OnOk result (TellsLines (map watch_line lines.now) (wire P.Peer peer.old) (wire P.Peer peer.new)) }
    ensures part { OnErr result (TellsFirst (map watch_line lines.now) (wire P.Peer peer.old) (wire P.Peer peer.new)) }
    ensures counted { OnOk result (P.count peer.new ≡ P.count peer.old) }
    ensures cause { OnErr result (Rose (P.count peer.old) (P.count peer.new)) }
{
    for watch in lines {
        match tell_line(watch_line(watch).as_slice(), peer) {
            Ok(()) => {}
            Err(failed) => return Err(failed),
        }
    }
    Ok(())
}

// Tells a line for each watch that is set.
fn tell_each_watch<D: Disk, F: Drop, P: Peer>(
    engine: &Engine<D, F>,
    peer: &mut P,
) -> Result<(), Failed>
    ensures all { OnOk result (TellsLines (map watch_line (tally_in (serving engine.now)).lines)
        (wire P.Peer peer.old) (wire P.Peer peer.new)) }
    ensures part { OnErr result (TellsFirst (map watch_line (tally_in (serving engine.now)).lines)
        (wire P.Peer peer.old) (wire P.Peer peer.new)) }
    ensures counted { OnOk result (P.count peer.new ≡ P.count peer.old) }
    ensures cause { OnErr result (Rose (P.count peer.old) (P.count peer.new)) }
{
    let lines = engine.lines();
    tell_watches(lines.as_slice(), peer)
}

// The end line of what the engine came to.
fn end_text<D: Disk, F: Drop>(engine: &Engine<D, F>) -> Line
    ensures { result.items ≡ end_of (tally_in (serving engine.now)) }
{
    end_line(engine.steps(), engine.completed(), engine.standing())
}

// Tells the end line, and a line for each watch.
fn tell_last_lines<D: Disk, F: Drop, P: Peer>(
    engine: &Engine<D, F>,
    peer: &mut P,
) -> Result<(), Failed>
    ensures all { OnOk result (TellsLines (last_lines (tally_in (serving engine.now)))
        (wire P.Peer peer.old) (wire P.Peer peer.new)) }
    ensures part { OnErr result (TellsFirst (last_lines (tally_in (serving engine.now)))
        (wire P.Peer peer.old) (wire P.Peer peer.new)) }
    ensures counted { OnOk result (P.count peer.new ≡ P.count peer.old) }
    ensures cause { OnErr result (Rose (P.count peer.old) (P.count peer.new)) }
{
    match tell_line(end_text(engine).as_slice(), peer) {
        Ok(()) => tell_each_watch(engine, peer),
        Err(failed) => Err(failed),
    }
}

// Tells that half a line was cut, and then the last lines.
fn tell_cut<D: Disk, F: Drop, P: Peer>(engine: &Engine<D, F>, peer: &mut P) -> Result<(), Failed>
    ensures all { OnOk result (TellsLines (cut_line ∷ last_lines (tally_in (serving engine.now)))
        (wire P.Peer peer.old) (wire P.Peer peer.new)) }
    ensures part { OnErr result (TellsFirst (cut_line ∷ last_lines (tally_in (serving engine.now)))
        (wire P.Peer peer.old) (wire P.Peer peer.new)) }
    ensures counted { OnOk result (P.count peer.new ≡ P.count peer.old) }
    ensures cause { OnErr result (Rose (P.count peer.old) (P.count peer.new)) }
{
    match tell_line(cut_line().as_slice(), peer) {
        Ok(()) => tell_last_lines(engine, peer),
        Err(failed) => Err(failed),
    }
}

// Tells the lines at the end, behind half a line or none.
fn tell_end<D: Disk, F: Drop, P: Peer>(
    engine: &Engine<D, F>,
    next: Next,
    peer: &mut P,
) -> Result<(), Failed>
    ensures all { OnOk result (TellsLines (lines_behind next (serving engine.now))
        (wire P.Peer peer.old) (wire P.Peer peer.new)) }
    ensures part { OnErr result (TellsFirst (lines_behind next (serving engine.now))
        (wire P.Peer peer.old) (wire P.Peer peer.new)) }
    ensures counted { OnOk result (P.count peer.new ≡ P.count peer.old) }
    ensures cause { OnErr result (Rose (P.count peer.old) (P.count peer.new)) }
{
    match next {
        Next::Cut => tell_cut(engine, peer),
        _ => tell_last_lines(engine, peer),
    }
}

// Takes turns until the input is at its end, and tells the last lines.
fn take_all<D: Disk, F: Fn(&[u64]) -> usize + Drop, P: Peer>(
    alloc: Global,
    engine: &mut Engine<D, F>,
    events: u32,
    buffers: &mut Buffers,
    peer: &mut P,
) -> Result<(), Ending>
    requires few { events ≤ MOST_EVENTS }
    requires running { (serving engine.old).stopped ≡ None }
    requires chooser { IsChooser F.Fn (chooser engine.old) }
    ensures turns { TakesAll events result (kept_in buffers.old) (serving engine.old) (serving engine.new)
        (wire P.Peer peer.old) (wire P.Peer peer.new) }
    ensures engine { TalkGoesOn engine.old engine.new (disk_stop result) }
    ensures cause { CountsPeer result (P.count peer.old) (P.count peer.new) }
{
    match take_turns(alloc, engine, events, buffers, peer) {
        Ok(next) => match tell_end(engine, next, peer) {
            Ok(()) => Ok(()),
            Err(_) => Err(Ending::Telling),
        },
        Err(ending) => Err(ending),
    }
}

/// Converses over an engine that was just opened, from the greeting to the last lines. Each line that says something is
/// answered by one line, which is finished before more is heard. Behind each reply to a client's line so many events of
/// the collector are made, 0 to 1,000, and behind one to `close` 512 times as many. `number` is told in the greeting: it
/// is that of the copy that was opened. Want of memory ends nothing, and no entry is kept behind its turn.
///
/// # Errors
///
/// `Hearing` and `Telling`: the peer failed. `Device`: the disk failed, and the engine is stopped.
pub fn converse<D: Disk, F: Fn(&[u64]) -> usize + Drop, P: Peer>(
    alloc: Global,
    number: u32,
    engine: &mut Engine<D, F>,
    events: u32,
    buffers: &mut Buffers,
    peer: &mut P,
) -> Result<(), Ending>
    requires few { events ≤ MOST_EVENTS }
    requires fresh { IsFresh (serving engine.old) }
    requires unheard { kept_in buffers.old ≡ [] }
    requires chooser { IsChooser F.Fn (chooser engine.old) }
    ensures talks { Talks number events (serving engine.old) (serving engine.new)
        (wire P.Peer peer.old) (wire P.Peer peer.new) result }
    ensures disk { RunsOnDisk engine.old engine.new (disk_stop result) }
    ensures start { KeepsStart engine.old engine.new }
    ensures cause { CountsPeer result (P.count peer.old) (P.count peer.new) }
{
    engine.keep_their_images();
    match tell_line(greeting(number).as_slice(), peer) {
        Ok(()) => {
            let ended = take_all(alloc, engine, events, buffers, peer);
            engine.keep_their_images();
            ended
        }
        Err(_) => Err(Ending::Telling),
    }
}
