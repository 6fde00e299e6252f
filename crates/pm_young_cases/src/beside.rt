//! An engine with a nursery beside the plain slow program.

ghost use Rattle.pm_place.specs.Choosers.{IsChooser};
ghost use Rattle.pm_young.specs.Seen.{chooser};

use crate::cars::ids_in;
use crate::commands::{push_lines, young_script};
use crate::drawn::push_drawn;
use crate::store::store_of;
use pm_case_text::{Fault, numbered, push_filled, push_words, refuse};
use pm_disk::{Disk, MemDisk};
use pm_model::Oracle;
use pm_nursery::YOUNG;
use pm_place::Placement;
use pm_script::{Line, YoungLine, YoungScript};
use pm_types::{CLIENTS, Cmd, Entry, Id, Reply};
use pm_young::YoungEngine;
use std::alloc::Global;
use std::collections::BTreeSet;

// What lines left.
#[derive(Drop)]
struct Left {
    // What was asked and answered.
    journal: Vec<Entry>,
    // The identities that entered.
    entered: Vec<Id>,
    // Those of the objects in cars.
    in_cars: Vec<Id>,
    // How many are young.
    young: u64,
}

// What stands beside the engine.
#[derive(Drop)]
struct Beside {
    oracle: Oracle,
    // The identities of the objects that were in cars at the opening.
    opened: Vec<Id>,
}

// Runs the lines over an engine that was opened, and takes it apart: what they left.
fn left_by<D: Disk + Drop, F: Fn(&[u64]) -> usize + Drop>(
    alloc: Global,
    mut engine: YoungEngine<D, F>,
    lines: &[YoungLine],
) -> Result<Left, Fault>
    requires { IsChooser F.Fn (chooser engine) }
{
    let mut unseen = String::new(alloc);
    let said = push_lines(alloc, &mut engine, lines, &mut unseen);
    let entered = engine.entered().to_vec(alloc);
    let (_disk, journal, tally, heap) = engine.into_parts();
    said?;
    Ok(Left {
        journal,
        entered: entered?,
        in_cars: ids_in(alloc, &heap)?,
        young: tally.young(),
    })
}

// What the lines leave on a disk with these bytes.
fn left_on(alloc: Global, bytes: &[u8], lines: &[YoungLine]) -> Result<Left, Fault> {
    let disk = MemDisk::new(bytes.to_vec(alloc)?, Vec::new(alloc));
    match YoungEngine::open_young(alloc, disk, Placement::new(|_: &[u64]| 0)) {
        Ok(engine) => left_by(alloc, engine, lines),
        Err(_) => Err(refuse("no store")),
    }
}

// The plain program's reply to a command.
fn reply_of(alloc: Global, oracle: &mut Oracle, client: u32, cmd: &Cmd) -> Result<Reply, Fault> {
    if client >= CLIENTS {
        return Err(refuse("no such client"));
    }
    Ok(oracle.answer(alloc, client, cmd)?)
}

// Whether the last entry has the plain program's reply, where a line asked a command; where it did not, there is no entry
// for it.
fn is_alike(
    alloc: Global,
    oracle: &mut Oracle,
    before: &Left,
    after: &Left,
    line: &YoungLine,
) -> Result<bool, Fault> {
    let asked = matches!(line, YoungLine::Base(Line::Client { .. }));
    let made = after.journal.len().wrapping_sub(before.journal.len());
    match after.journal.last() {
        Some(entry) if asked => {
            let reply = reply_of(alloc, oracle, entry.client, &entry.cmd)?;
            Ok(made == 1 && reply == entry.reply)
        }
        _ => Ok(made == asked as usize),
    }
}

// Whether a line is a birth that was not refused.
fn is_birth(line: &YoungLine, after: &Left) -> bool {
    match (line, after.journal.last()) {
        (
            YoungLine::Base(
                Line::Client {
                    cmd: Cmd::New { .. },
                    ..
                },
            ),
            Some(entry),
        ) => matches!(entry.reply, Reply::Ident(_)),
        _ => false,
    }
}

// How many are young behind a line: what enters is young no more, and nothing is behind a sweep.
fn young_behind(line: &YoungLine, before: &Left, after: &Left) -> u64 {
    let came = after.entered.len().wrapping_sub(before.entered.len());
    let born = is_birth(line, after);
    match line {
        YoungLine::Young => 0,
        _ if born && before.young == YOUNG as u64 => 1,
        _ => before
            .young
            .wrapping_add(born as u64)
            .wrapping_sub(came as u64),
    }
}

// Takes note of identities; whether each of them was new.
fn note_all(known: &mut BTreeSet<Id>, ids: &[Id]) -> Result<bool, Fault> {
    let mut is_new = true;
    for id in ids {
        is_new = known.insert(*id)? && is_new;
    }
    Ok(is_new)
}

// Whether each of these identities was noted, and stands there once.
fn are_noted(known: &mut BTreeSet<Id>, ids: &[Id]) -> bool {
    let mut is_noted = true;
    for id in ids {
        is_noted = known.remove(id) && is_noted;
    }
    is_noted
}

// Whether each object in a car was in one at the opening or entered, and none entered twice.
fn has_entered(alloc: Global, opened: &[Id], after: &Left) -> Result<bool, Fault> {
    let mut known = BTreeSet::new(alloc);
    let is_new = note_all(&mut known, opened)? && note_all(&mut known, after.entered.as_slice())?;
    Ok(is_new && are_noted(&mut known, after.in_cars.as_slice()))
}

// What is not as it should be behind a line, in a few words.
fn difference(
    alloc: Global,
    beside: &mut Beside,
    before: &Left,
    after: &Left,
    line: &YoungLine,
) -> Result<Option<&'static str>, Fault> {
    if !is_alike(alloc, &mut beside.oracle, before, after, line)? {
        return Ok(Some("another reply"));
    }
    if !after.entered.starts_with(&before.entered) {
        return Ok(Some("what had entered is another"));
    }
    if !has_entered(alloc, beside.opened.as_slice(), after)? {
        return Ok(Some("what is in a car did not enter once"));
    }
    if after.young != young_behind(line, before, after) {
        return Ok(Some("as many are not young"));
    }
    Ok(None)
}

// Adds what all lines came to, where nothing is otherwise than it should be.
fn push_agreed(left: &Left, out: &mut String) -> Result<(), Fault> {
    let numbers = [
        left.journal.len() as u64,
        left.entered.len() as u64,
        left.young,
    ];
    push_filled("alike, % entries, % entered, % young", &numbers, out)
}

// Runs the first line, the first two, and so on, each time over the same bytes, until something is not as it should be
// behind the last one. Adds what that is, or what all of them came to.
fn push_each(
    alloc: Global,
    bytes: &[u8],
    beside: &mut Beside,
    mut before: Left,
    lines: &[YoungLine],
    out: &mut String,
) -> Result<(), Fault> {
    for (place, line) in lines.iter().enumerate() {
        let number = place.saturating_add(1);
        let after = left_on(alloc, bytes, lines.get(..number).unwrap_or(lines))?;
        if let Some(found) = difference(alloc, beside, &before, &after, line)? {
            push_filled("line %: ", &[number as u64], out)?;
            return Ok(out.push_str(found)?);
        }
        before = after;
    }
    push_agreed(&before, out)
}

// The plain program is told the commands of these lines.
fn tell_all(alloc: Global, oracle: &mut Oracle, lines: &[YoungLine]) -> Result<(), Fault> {
    for line in lines {
        if let YoungLine::Base(Line::Client { client, cmd }) = line {
            reply_of(alloc, oracle, *client, cmd)?;
        }
    }
    Ok(())
}

// The registers of all clients are empty.
fn close_all(alloc: Global, oracle: &mut Oracle) -> Result<(), Fault> {
    for client in 0..CLIENTS {
        oracle.answer(alloc, client, &Cmd::Close)?;
    }
    Ok(())
}

// The plain program that has the names and objects of a store that these lines have made.
fn oracle_of(alloc: Global, made: &str) -> Result<Oracle, Fault> {
    let lines = young_script(alloc, made)?;
    let mut oracle = Oracle::new(alloc);
    tell_all(alloc, &mut oracle, lines.as_slice())?;
    close_all(alloc, &mut oracle)?;
    Ok(oracle)
}

// So many lines that are drawn from a seed.
fn drawn(alloc: Global, count: u64, seed: u64) -> Result<YoungScript, Fault> {
    let mut script = String::new(alloc);
    push_drawn(count, seed, &mut script)?;
    young_script(alloc, script.as_str())
}

// Runs drawn lines over a store that these lines have made, beside the plain program.
fn push_beside(
    alloc: Global,
    drawn: &YoungScript,
    made: &str,
    out: &mut String,
) -> Result<(), Fault> {
    let bytes = store_of(alloc, made)?;
    let before = left_on(alloc, bytes.as_slice(), &[])?;
    let mut beside = Beside {
        oracle: oracle_of(alloc, made)?,
        opened: before.in_cars.as_slice().to_vec(alloc)?,
    };
    push_each(
        alloc,
        bytes.as_slice(),
        &mut beside,
        before,
        drawn.as_slice(),
        out,
    )?;
    push_words("\n", out)
}

/// `N SEED LINES`: N lines that are drawn, over a store that an engine without a nursery has made by LINES, which end with a
/// copy of all that is named, and beside the plain slow program. Each time the first line, the first two, and so on are run, and the
/// engine is taken apart then. It adds `alike` and what all of them came to, where behind each line the reply is the plain
/// program's, what is in a car was in one at the opening or entered, each once, and what is young is what was born since
/// the last sweep and did not enter; else the first line behind which something is otherwise.
pub(crate) fn push_drawn_beside(alloc: Global, text: &str, out: &mut String) -> Result<(), Fault> {
    let (count, rest) = numbered(text)?;
    let (seed, made) = numbered(rest)?;
    let lines = drawn(alloc, count, seed)?;
    push_beside(alloc, &lines, made, out)
}
