//! New stores on a disk in memory, and books over them.

ghost use Rattle.std.specs.Prelude.{◌≡◌, IfOk};
ghost use Rattle.pm_place.specs.Choosers.{IsChooser};
ghost use Rattle.pm_engine.specs.Shown.{chooser, serving};
ghost use Rattle.pm_engine.specs.Events.Running.{IsFresh};
ghost use Rattle.pm_lock.specs.Shown.{engine_in};

use crate::spelling::script;
use crate::turned::{push_counts, push_turns};
use pm_case_text::{Fault, refuse};
use pm_disk::{Disk, MemDisk};
use pm_engine::Engine;
use pm_lock::crew::Book;
use pm_place::Placement;
use pm_script::Script;
use pm_shadow::init;
use std::alloc::Global;

// The bytes of a new store.
fn new_store(alloc: Global) -> Result<Vec<u8>, Fault> {
    let mut disk = MemDisk::new(Vec::new(alloc), Vec::new(alloc));
    match init(alloc, &mut disk) {
        Ok(()) => Ok(disk.contents().to_vec(alloc)?),
        Err(_) => Err(refuse("no memory")),
    }
}

/// A disk in memory with a new store, which fails the call of this number; no call has the number 0.
pub(crate) fn new_disk(alloc: Global, call: u64) -> Result<MemDisk, Fault> {
    let fails = vec![in alloc; call]?;
    Ok(MemDisk::new(new_store(alloc)?, fails))
}

/// Opens the store of a disk.
pub(crate) fn open<D: Disk + Drop, F: Fn(&[u64]) -> usize + Drop>(
    alloc: Global,
    disk: D,
    place: Placement<F>,
) -> Result<Engine<D, F>, Fault>
    ensures fresh { IfOk result (λ engine. IsFresh (serving engine)) }
    ensures chooser { IfOk result (λ engine. chooser engine ≡ place) }
{
    match Engine::open_store(alloc, disk, place) {
        Ok(engine) => Ok(engine),
        Err(_) => Err(refuse("no store")),
    }
}

/// Lets an engine go, and hands its disk back.
pub(crate) fn disk_of<D: Disk + Drop, F: Drop>(engine: Engine<D, F>) -> D {
    let (disk, _journal, _tally, _heap) = engine.into_parts();
    disk
}

// Makes the turns of these workers, and adds what came of them and what the book has come to.
fn push_told<D: Disk, F: Fn(&[u64]) -> usize + Drop>(
    alloc: Global,
    book: &mut Book<D, F>,
    workers: &[u32],
    out: &mut String,
) -> Result<(), Fault>
    requires { IsChooser F.Fn (chooser (engine_in book.old)) }
{
    push_turns(alloc, book, workers, out)?;
    push_counts(book, out)
}

// How many calls were made of a disk, where all was said.
fn calls_of(disk: &MemDisk, said: Result<(), Fault>) -> Result<u64, Fault> {
    said?;
    Ok(disk.calls().len() as u64)
}

// Makes the turns of these workers at a book, lets it go, and answers how many calls of the disk were made.
fn push_booked<F: Fn(&[u64]) -> usize + Drop>(
    alloc: Global,
    mut book: Book<MemDisk, F>,
    workers: &[u32],
    out: &mut String,
) -> Result<u64, Fault>
    requires { IsChooser F.Fn (chooser (engine_in book)) }
{
    let said = push_told(alloc, &mut book, workers, out);
    calls_of(&disk_of(book.into_engine()), said)
}

// Makes the turns of these workers at a book of this engine, adds what came of them, and answers how many calls of the disk
// were made.
fn push_served<F: Fn(&[u64]) -> usize + Drop>(
    alloc: Global,
    engine: Engine<MemDisk, F>,
    script: Script,
    workers: &[u32],
    out: &mut String,
) -> Result<u64, Fault>
    requires fresh { IsFresh (serving engine) }
    requires chooser { IsChooser F.Fn (chooser engine) }
{
    match Book::new(alloc, engine, script) {
        Ok(book) => push_booked(alloc, book, workers, out),
        Err((engine, _)) => {
            drop(disk_of(engine));
            Err(refuse("no memory"))
        }
    }
}

// The same over a disk.
fn push_on(
    alloc: Global,
    disk: MemDisk,
    script: Script,
    workers: &[u32],
    out: &mut String,
) -> Result<u64, Fault> {
    let engine = open(alloc, disk, Placement::new(|_: &[u64]| 0))?;
    push_served(alloc, engine, script, workers, out)
}

/// Opens a new store whose disk fails the call of this number, makes the turns of these workers at the book of this script,
/// and adds what came of them, a line. It answers how many calls of the disk were made.
pub(crate) fn push_opened(
    alloc: Global,
    call: u64,
    lines: &str,
    workers: &[u32],
    out: &mut String,
) -> Result<u64, Fault> {
    let script = script(alloc, lines)?;
    push_on(alloc, new_disk(alloc, call)?, script, workers, out)
}
