//! Lines of a script over an engine with a nursery.

ghost use Rattle.std.specs.Prelude.{◌≡◌, ◌<◌, false};
ghost use Rattle.pm_types.specs.declared.limits.TheConstants.{CLIENTS};
ghost use Rattle.pm_model.specs.Frames.{sets_watch};
ghost use Rattle.pm_place.specs.Choosers.{IsChooser};
ghost use Rattle.pm_young.specs.Seen.{chooser};

use crate::events::{push_fault, push_flush, push_steps, push_tally};
use crate::lines::{push_entered, push_sweep};
use pm_case_text::{Count, Fault, push_text, push_words, refuse, script_text, written_out};
use pm_disk::Disk;
use pm_place::Placement;
use pm_script::{Line, YoungLine, YoungScript, read_young, reply_text};
use pm_types::{CLIENTS, Cmd, Entry, OpenFault};
use pm_young::{YoungEngine, YoungTally};
use std::alloc::Global;
use std::fmt::Write;

/// The script for a run with a nursery whose lines ` / ` stands between. An `H` in it is 4,096 bytes 00.
pub(crate) fn young_script(alloc: Global, text: &str) -> Result<YoungScript, Fault> {
    let bytes = written_out(alloc, "{4096 00}", Count::None)?;
    let text = text.replace(alloc, "H", bytes.as_str())?;
    let lines = script_text(alloc, text.as_str())?;
    read_young(alloc, lines.as_slice())
        .ok()
        .ok_or(refuse("no script"))
}

// Adds the reply's line of an entry.
fn push_entry(alloc: Global, entry: &Entry, out: &mut String) -> Result<(), Fault> {
    let mut line = reply_text(alloc, entry)?;
    line.pop();
    push_text(line.as_slice(), out)
}

/// Adds the reply's line of the journal's last entry.
pub(crate) fn push_last_entry(
    alloc: Global,
    journal: &[Entry],
    out: &mut String,
) -> Result<(), Fault> {
    match journal.last() {
        Some(entry) => push_entry(alloc, entry, out),
        None => Err(refuse("no entry")),
    }
}

// Gives a client's command, and adds the reply's line of the journal's last entry, or why it was not answered.
fn push_answer<D: Disk, F: Drop>(
    alloc: Global,
    engine: &mut YoungEngine<D, F>,
    client: u32,
    cmd: &Cmd,
    out: &mut String,
) -> Result<(), Fault>
    requires client { client < CLIENTS }
    requires no_watch { sets_watch cmd.now ≡ false }
    ensures { chooser engine.new ≡ chooser engine.old }
{
    match engine.client(alloc, client, cmd) {
        Ok(_) => push_last_entry(alloc, engine.journal(), out),
        Err(fault) => push_fault(fault, out),
    }
}

/// Whether a command sets a watch.
pub(crate) fn is_watch(cmd: &Cmd) -> bool
    ensures { result ≡ sets_watch cmd.now }
{
    match cmd {
        Cmd::Watch => true,
        _ => false,
    }
}

// The same, unless it is no client or the command sets a watch.
fn push_asked<D: Disk, F: Drop>(
    alloc: Global,
    engine: &mut YoungEngine<D, F>,
    client: u32,
    cmd: &Cmd,
    out: &mut String,
) -> Result<(), Fault>
    ensures { chooser engine.new ≡ chooser engine.old }
{
    if client >= CLIENTS || is_watch(cmd) {
        return Err(refuse("no line of a run with a nursery"));
    }
    push_answer(alloc, engine, client, cmd, out)
}

// Makes so many flush events, and adds what each answered, with `, ` between.
fn push_flushes<D: Disk, F: Drop>(
    alloc: Global,
    engine: &mut YoungEngine<D, F>,
    count: u32,
    out: &mut String,
) -> Result<(), Fault>
    ensures { chooser engine.new ≡ chooser engine.old }
{
    for place in 0..count {
        if place > 0 {
            push_words(", ", out)?;
        }
        push_flush(alloc, engine, out)?;
    }
    Ok(())
}

// Runs a line, and adds what it gave.
fn push_line<D: Disk, F: Fn(&[u64]) -> usize + Drop>(
    alloc: Global,
    engine: &mut YoungEngine<D, F>,
    line: &YoungLine,
    out: &mut String,
) -> Result<(), Fault>
    requires { IsChooser F.Fn (chooser engine.old) }
    ensures { chooser engine.new ≡ chooser engine.old }
{
    match line {
        YoungLine::Base(Line::Client { client, cmd }) => {
            push_asked(alloc, engine, *client, cmd, out)
        }
        YoungLine::Base(Line::Gc(count)) => push_steps(alloc, engine, *count as u64, out),
        YoungLine::Base(Line::Flush(count)) => push_flushes(alloc, engine, *count, out),
        YoungLine::Young => push_sweep(alloc, engine, out),
    }
}

/// Runs the lines, and adds what each gave, with ` / ` behind it. It goes on behind a line that was not answered.
pub(crate) fn push_lines<D: Disk, F: Fn(&[u64]) -> usize + Drop>(
    alloc: Global,
    engine: &mut YoungEngine<D, F>,
    lines: &[YoungLine],
    out: &mut String,
) -> Result<(), Fault>
    requires { IsChooser F.Fn (chooser engine.old) }
{
    for line in lines {
        push_line(alloc, engine, line, out)?;
        push_words(" / ", out)?;
    }
    Ok(())
}

// Lets an engine go: its disk, and what it came to.
fn parted<D: Disk + Drop, F: Drop>(engine: YoungEngine<D, F>) -> (D, YoungTally) {
    let (disk, _journal, tally, _heap) = engine.into_parts();
    (disk, tally)
}

// Runs the lines, and adds what each gave and the identities that entered.
fn push_whole<D: Disk, F: Fn(&[u64]) -> usize + Drop>(
    alloc: Global,
    engine: &mut YoungEngine<D, F>,
    lines: &[YoungLine],
    out: &mut String,
) -> Result<(), Fault>
    requires { IsChooser F.Fn (chooser engine.old) }
{
    push_lines(alloc, engine, lines, out)?;
    push_entered(engine, out)
}

// Adds, where all was said, what the engine came to.
fn push_ended(said: Result<(), Fault>, tally: &YoungTally, out: &mut String) -> Result<(), Fault> {
    said?;
    push_words(" / ", out)?;
    push_tally(tally, out)
}

// A disk that is handed back, where all was said.
fn kept<D: Disk + Drop>(disk: D, said: Result<(), Fault>) -> Result<D, Fault> {
    match said {
        Ok(()) => Ok(disk),
        Err(fault) => Err(fault),
    }
}

// Runs the lines over an engine that was opened, takes it apart, and adds what it came to.
fn push_served<D: Disk + Drop, F: Fn(&[u64]) -> usize + Drop>(
    alloc: Global,
    mut engine: YoungEngine<D, F>,
    lines: &[YoungLine],
    out: &mut String,
) -> Result<D, Fault>
    requires { IsChooser F.Fn (chooser engine) }
{
    let said = push_whole(alloc, &mut engine, lines, out);
    let (disk, tally) = parted(engine);
    kept(disk, push_ended(said, &tally, out))
}

// Adds why there is no store on a disk, and hands it back.
fn push_unopened<D: Disk + Drop>(disk: D, fault: OpenFault, out: &mut String) -> Result<D, Fault> {
    write!(out, "{fault}")?;
    Ok(disk)
}

/// Opens the store of a disk with a nursery, and runs the lines over it. It adds what each gave, the identities that
/// entered and what the engine came to, with ` / ` between them, or why there is no store. A line that is not answered
/// ends nothing. The disk is handed back.
pub(crate) fn push_script<D: Disk + Drop>(
    alloc: Global,
    disk: D,
    lines: &[YoungLine],
    out: &mut String,
) -> Result<D, Fault> {
    match YoungEngine::open_young(alloc, disk, Placement::new(|_: &[u64]| 0)) {
        Ok(engine) => push_served(alloc, engine, lines, out),
        Err((disk, fault)) => push_unopened(disk, fault, out),
    }
}
