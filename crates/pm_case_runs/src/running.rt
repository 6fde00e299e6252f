//! The program over two disks, a source and a sink in memory.

ghost use Rattle.std.specs.Prelude.{◌<◌, length};

use pm_case_text::Fault;
use pm_case_text::told::Setting;
use pm_disk::MemDisk;
use pm_disk::fuse::FuseDisk;
use pm_engine::Tally;
use pm_io::{MemSink, MemSource};
use pm_place::{Placement, first_of, last_of, middle_of};
use pm_top::{Detail, Ended, pmos};
use pm_turns::OpenGate;
use pm_types::Entry;
use pm_words::{Chosen, read_place};
use pm_young::YoungTally;
use std::alloc::Global;
use std::mem;
use std::sync::Wait;
use std::thread::Threads;

/// What a run of the program left.
#[derive(Drop)]
pub struct RunEnd {
    /// The status with which it ended.
    pub(crate) status: u8,
    /// How it ended.
    pub(crate) detail: Detail,
    /// The sink.
    pub(crate) sink: MemSink,
    /// One entry for each command that was answered.
    pub(crate) journal: Vec<Entry>,
    /// What the engine came to, and the same of one with a nursery.
    pub(crate) tally: Option<Tally>,
    pub(crate) young: Option<YoungTally>,
    /// The disk, and the other one.
    pub(crate) disk: MemDisk,
    pub(crate) other: MemDisk,
}

impl RunEnd {
    /// The bytes of the disk.
    pub fn disk(&self) -> &[u8] {
        self.disk.contents()
    }

    /// The bytes of the other disk.
    pub fn other(&self) -> &[u8] {
        self.other.contents()
    }

    /// One entry for each command that was answered.
    pub fn journal(&self) -> &[Entry] {
        self.journal.as_slice()
    }

    /// What was written to the sink.
    pub(crate) fn written(&self) -> &[u8] {
        self.sink.written()
    }

    /// The two disks change places.
    pub fn swap_disks(&mut self) {
        mem::swap(&mut self.disk, &mut self.other);
    }
}

// What a word of a text stands for: two quotes for a word without a letter.
fn meant(word: &str) -> &str {
    if word == "''" { "" } else { word }
}

// Adds the words of a text.
fn push_words<'a>(words: &mut Vec<&'a str>, text: &'a str) -> Result<(), Fault> {
    for word in text.split(' ') {
        words.push(meant(word))?;
    }
    Ok(())
}

// The words of a text.
fn words_of(alloc: Global, text: &str) -> Result<Vec<&str>, Fault> {
    let mut words = Vec::new(alloc);
    if !text.is_empty() {
        push_words(&mut words, text)?;
    }
    Ok(words)
}

// How the program ended over disks with a fuse each.
type Fused = Ended<FuseDisk<MemDisk>, FuseDisk<MemDisk>, MemSource, MemSink>;

// What an end leaves, with each disk in memory in place of the one with a fuse.
fn left(ended: Fused) -> RunEnd {
    RunEnd {
        status: ended.status,
        detail: ended.detail,
        sink: ended.sink,
        journal: ended.journal,
        tally: ended.tally,
        young: ended.young,
        disk: ended.disk.into_inner(),
        other: ended.other.into_inner(),
    }
}

// The place in a list of trains of the one that is chosen.
fn place_of(chosen: Chosen, trains: &[u64]) -> usize
    requires { 0 < length trains.now }
    ensures { result < length trains.now }
{
    match chosen {
        Chosen::First => first_of(trains),
        Chosen::Last => last_of(trains),
        Chosen::Middle => middle_of(trains),
    }
}

// What the program runs over.
#[derive(Drop)]
struct Parts {
    disk: FuseDisk<MemDisk>,
    other: FuseDisk<MemDisk>,
    source: MemSource,
    sink: MemSink,
}

// The words of a run over a disk with these bytes, and its parts.
fn parts_of(alloc: Global, disk: Vec<u8>, setting: Setting) -> (String, Parts) {
    let disk = MemDisk::new(disk, setting.disk_fails);
    let other = MemDisk::new(setting.other, Vec::new(alloc));
    let parts = Parts {
        disk: FuseDisk::new(disk, setting.passes),
        other: FuseDisk::new(other, setting.other_passes),
        source: MemSource::new(setting.script, setting.piece.max(1), setting.source_fails),
        sink: MemSink::new(alloc, setting.sink_fails),
    };
    (setting.words, parts)
}

// Runs the program with these words. As `main` does, it takes from them which train an object moves to.
fn ended<R: AllocGlobal + Threads + Wait + Sync>(rt: &R, words: &[&str], parts: Parts) -> Fused {
    let chosen = read_place(words);
    let place = Placement::new(move |trains: &[u64]| place_of(chosen, trains));
    let Parts {
        disk,
        other,
        source,
        sink,
    } = parts;
    pmos(rt, words, disk, other, source, sink, place, &OpenGate)
}

// Runs the program with these words, and tells what that leaves.
fn run_parts<R: AllocGlobal + Threads + Wait + Sync>(
    rt: &R,
    words: &[&str],
    parts: Parts,
) -> RunEnd {
    left(ended(rt, words, parts))
}

// Runs the program with the words of a text.
fn run_words<R: AllocGlobal + Threads + Wait + Sync>(
    rt: &R,
    text: &str,
    parts: Parts,
) -> Result<RunEnd, Fault> {
    let words = words_of(rt.alloc(), text)?;
    Ok(run_parts(rt, words.as_slice(), parts))
}

/// Runs the program over a disk that holds these bytes.
pub(crate) fn run<R: AllocGlobal + Threads + Wait + Sync>(
    rt: &R,
    disk: &[u8],
    setting: Setting,
) -> Result<RunEnd, Fault> {
    let alloc = rt.alloc();
    let (text, parts) = parts_of(alloc, disk.to_vec(alloc)?, setting);
    run_words(rt, text.as_str(), parts)
}

/// Runs the program with these words and this script over a disk that holds these bytes. Nothing fails.
pub(crate) fn run_script<R: AllocGlobal + Threads + Wait + Sync>(
    rt: &R,
    disk: &[u8],
    words: &str,
    script: &[u8],
) -> Result<RunEnd, Fault> {
    let setting = Setting::with_script(rt.alloc(), words, script)?;
    run(rt, disk, setting)
}

/// Runs the program over disks that hold these bytes, with what was said of the next run so far and these lines.
pub fn run_next<R: AllocGlobal + Threads + Wait + Sync>(
    rt: &R,
    disk: &[u8],
    other: &[u8],
    said: &mut Setting,
    lines: &str,
) -> Result<RunEnd, Fault> {
    let setting = said.take(rt.alloc(), lines, other)?;
    run(rt, disk, setting)
}
