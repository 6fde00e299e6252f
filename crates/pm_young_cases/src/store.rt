//! Stores that an engine without a nursery has made.

use pm_case_text::{Fault, numbered, part, place, placed, put, refuse, script_text};
use pm_disk::{Disk, MemDisk};
use pm_engine::Engine;
use pm_layout::digest;
use pm_place::Placement;
use pm_script::{Line, read_script};
use pm_shadow::init;
use pm_types::CLIENTS;
use std::alloc::Global;

// Runs a line of a client.
fn run_line<D: Disk, F: Drop>(
    alloc: Global,
    engine: &mut Engine<D, F>,
    line: &Line,
) -> Result<(), Fault> {
    match line {
        Line::Client { client, cmd } if *client < CLIENTS => {
            match engine.client(alloc, *client, cmd) {
                Ok(_) => Ok(()),
                Err(_) => Err(refuse("no answer")),
            }
        }
        _ => Err(refuse("no line of a client")),
    }
}

// Runs lines of clients.
fn run_lines<D: Disk, F: Drop>(
    alloc: Global,
    engine: &mut Engine<D, F>,
    lines: &[Line],
) -> Result<(), Fault> {
    for line in lines {
        run_line(alloc, engine, line)?;
    }
    Ok(())
}

// The bytes of a disk, where all was done.
fn kept(alloc: Global, disk: &MemDisk, done: Result<(), Fault>) -> Result<Vec<u8>, Fault> {
    match done {
        Ok(()) => Ok(disk.contents().to_vec(alloc)?),
        Err(fault) => Err(fault),
    }
}

// Runs lines of clients over an engine that was opened, and takes it apart: the bytes of its disk.
fn served<F: Drop>(
    alloc: Global,
    mut engine: Engine<MemDisk, F>,
    lines: &[Line],
) -> Result<Vec<u8>, Fault> {
    let done = run_lines(alloc, &mut engine, lines);
    let (disk, _journal, _tally, _heap) = engine.into_parts();
    kept(alloc, &disk, done)
}

// The bytes of the disk, once lines of clients were run over a store on it.
fn run_over(alloc: Global, disk: MemDisk, lines: &[Line]) -> Result<Vec<u8>, Fault> {
    match Engine::open_store(alloc, disk, Placement::new(|_: &[u64]| 0)) {
        Ok(engine) => served(alloc, engine, lines),
        Err(_) => Err(refuse("no store")),
    }
}

/// The bytes of a store that was just made, once the lines of clients were run over it that ` / ` stands between.
pub(crate) fn store_of(alloc: Global, text: &str) -> Result<Vec<u8>, Fault> {
    let lines = script_text(alloc, text)?;
    let Ok(script) = read_script(alloc, lines.as_slice()) else {
        return Err(refuse("no script"));
    };
    let mut disk = MemDisk::new(Vec::new(alloc), Vec::new(alloc));
    match init(alloc, &mut disk) {
        Ok(()) => run_over(alloc, disk, script.as_slice()),
        Err(_) => Err(refuse("no memory")),
    }
}

// The digest of so many bytes from a place on stands where a text says that is.
fn put_digest_from(bytes: &mut [u8], from: usize, text: &str) -> Result<(), Fault> {
    let (count, at) = numbered(text)?;
    let made = digest(part(bytes, from, count as usize)?);
    put(bytes, place(at)?, &made)
}

/// `FROM COUNT PLACE`: the digest of that many bytes from there on stands at that place.
pub(crate) fn put_digest(bytes: &mut [u8], text: &str) -> Result<(), Fault> {
    let (from, rest) = placed(text)?;
    put_digest_from(bytes, from, rest)
}
