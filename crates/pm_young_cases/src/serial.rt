//! Replies of a run without a nursery.

ghost use Rattle.pm_place.specs.Choosers.{IsChooser};
ghost use Rattle.pm_script.specs.Script.{AreLines};
ghost use Rattle.pm_engine.specs.Shown.{chooser, serving};
ghost use Rattle.pm_engine.specs.Events.Running.{IsFresh};

use pm_case_text::{Fault, refuse, script_text};
use pm_disk::MemDisk;
use pm_engine::Engine;
use pm_io::MemSink;
use pm_place::Placement;
use pm_script::{Line, Script, read_script};
use pm_serial::{Stop, answer_lines};
use std::alloc::Global;

// What was written, where the run came to its end.
fn written(alloc: Global, ran: Result<(), Stop>, sink: &MemSink) -> Result<Vec<u8>, Fault> {
    match ran {
        Ok(()) => Ok(sink.written().to_vec(alloc)?),
        Err(_) => Err(refuse("the run stopped")),
    }
}

// The replies of these lines over an engine that was opened.
fn replies_of<F: Fn(&[u64]) -> usize + Drop>(
    alloc: Global,
    mut engine: Engine<MemDisk, F>,
    lines: Vec<Line>,
) -> Result<Vec<u8>, Fault>
    requires clients { AreLines lines.items }
    requires fresh { IsFresh (serving engine) }
    requires chooser { IsChooser F.Fn (chooser engine) }
{
    let mut sink = MemSink::new(alloc, Vec::new(alloc));
    let ran = answer_lines(alloc, lines, &mut engine, &mut sink);
    let (_disk, _journal, _tally, _heap) = engine.into_parts();
    written(alloc, ran, &sink)
}

// The replies of a script over the store of these bytes.
fn replies_on(alloc: Global, bytes: &[u8], script: Script) -> Result<Vec<u8>, Fault> {
    let disk = MemDisk::new(bytes.to_vec(alloc)?, Vec::new(alloc));
    match Engine::open_store(alloc, disk, Placement::new(|_: &[u64]| 0)) {
        Ok(engine) => replies_of(alloc, engine, script.into_lines()),
        Err(_) => Err(refuse("no store")),
    }
}

/// What a serial run of the lines that ` / ` stands between replies over the store of these bytes, without a nursery.
pub(crate) fn serial_replies(alloc: Global, bytes: &[u8], text: &str) -> Result<Vec<u8>, Fault> {
    let lines = script_text(alloc, text)?;
    match read_script(alloc, lines.as_slice()) {
        Ok(script) => replies_on(alloc, bytes, script),
        Err(_) => Err(refuse("no script")),
    }
}
