//! A reply on its way to the sink.

ghost use Rattle.std.specs.Prelude.{◌≡◌, ◌<◌, ◌≤◌, ◌++◌, length, true, false, OnOk, OnErr};
ghost use Rattle.pm_types.specs.Counts.{Rose};
ghost use Rattle.pm_types.specs.declared.limits.TheConstants.{CLIENTS};
ghost use Rattle.pm_types.specs.Replies.{IsShortReply};
ghost use Rattle.pm_model.specs.Journal.{says_saved};
ghost use Rattle.pm_model.specs.Text.{reply_line};
ghost use Rattle.pm_serial.specs.Output.Gathered.{gathered};
ghost use Rattle.pm_script.specs.declared.reply.TheConstants.{REPLY_BYTES};
ghost use Rattle.pm_serial.specs.Output.Numbers.{number_of};
ghost use Rattle.pm_serial.specs.Output.Writing.{GoesOn, IsNear, PutsPart};
ghost use Rattle.pm_serial.specs.Acknowledged.{TellsAll};

use crate::output::Output;
use pm_io::{Failed, Sink};
use pm_types::{Entry, Reply};

// The number that a reply shows, or 0.
fn number_of(reply: &Reply) -> u32
    ensures { result ≡ number_of reply.now }
{
    match reply {
        Reply::Ident(number) => *number,
        Reply::Begun(number) => *number,
        Reply::Saved(number) => *number,
        Reply::Watching(number) => *number,
        Reply::Busy(number) => *number,
        Reply::Dropped(number) => *number,
        Reply::Held(number) => *number,
        Reply::Done
        | Reply::Null
        | Reply::Shown(_)
        | Reply::TooLarge
        | Reply::IdsSpent
        | Reply::NoHandle
        | Reply::NoField
        | Reply::OutOfRange
        | Reply::TooManyRoots
        | Reply::NoRoot
        | Reply::SavesSpent
        | Reply::Idle
        | Reply::TooManyWatches => 0,
    }
}

// A law of replies: the line of one is no longer than a reply line may be, since its number has 32 bits.
fn reply_lines_are_short(entry: &Entry)
    requires client { entry.now.client < CLIENTS }
    requires short { IsShortReply entry.now.reply }
    ensures { length (reply_line entry.now) ≤ REPLY_BYTES }
{
    let _number = number_of(&entry.reply);
}

/// Gathers the reply line of an entry. Where it says that a copy settled, all that is gathered is put and finished, so
/// that whoever waits for it sees it before the next event.
///
/// # Errors
///
/// The sink failed: it has a first part of what was gathered and of this line.
pub fn tell_reply<K: Sink>(entry: &Entry, output: &mut Output, sink: &mut K) -> Result<(), Failed>
    requires client { entry.now.client < CLIENTS }
    requires short { IsShortReply entry.now.reply }
    ensures adds { OnOk result (GoesOn (reply_line entry.now) (K.written sink.old) (K.written sink.new)
        (gathered output.old) (gathered output.new)) }
    ensures part { OnErr result (PutsPart (K.written sink.old) (K.written sink.new)
        (gathered output.old ++ reply_line entry.now)) }
    ensures near { OnErr result (IsNear (K.written sink.old) (K.written sink.new)
        (gathered output.old ++ reply_line entry.now)) }
    ensures saved { says_saved entry.now.reply ≡ true
        → OnOk result (TellsAll K.Sink sink.old sink.new (gathered output.new)) }
    ensures other { says_saved entry.now.reply ≡ false → K.finished sink.new ≡ K.finished sink.old }
    ensures counted { OnOk result (K.count sink.new ≡ K.count sink.old) }
    ensures cause { OnErr result (Rose (K.count sink.old) (K.count sink.new)) }
{
    reply_lines_are_short(entry);
    output.add_reply(sink, entry)?;
    match entry.reply {
        Reply::Saved(_) => output.finish(sink),
        _ => Ok(()),
    }
}
