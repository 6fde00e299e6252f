//! The program, run by workers through the meeting.

use crate::meeting_cases::meeting::Meeting;
use pm_disk::MemDisk;
use pm_io::{MemSink, MemSource};
use pm_place::Placement;
use pm_top::{Ended, pmos};
use pm_turns::{Gate, OpenGate};
use std::sync::Wait;
use std::thread::Threads;

/// How the program ended over two disks, a source and a sink in memory.
pub(crate) type Run = Ended<MemDisk, MemDisk, MemSource, MemSink>;

// Three commands of each of two clients, three steps of the collector and three flush events.
const SCRIPT: &[u8] =
    b"0 new 1 0 -\n0 new 1 0 -\n0 new 1 0 -\n1 new 1 0 -\n1 new 1 0 -\n1 new 1 0 -\n! gc 3\n! flush 3\n";

// Runs the program with these words and this script. The other disk is empty.
fn run_words<R: AllocGlobal + Threads + Wait + Sync, G: Gate + Sync>(
    rt: &R,
    words: &[&str],
    disk: MemDisk,
    script: Vec<u8>,
    gate: &G,
) -> Run {
    let alloc = rt.alloc();
    let other = MemDisk::new(Vec::new(alloc), Vec::new(alloc));
    let source = MemSource::new(script, 4096, Vec::new(alloc));
    let sink = MemSink::new(alloc, Vec::new(alloc));
    pmos(
        rt,
        words,
        disk,
        other,
        source,
        sink,
        Placement::new(|_: &[u64]| 0),
        gate,
    )
}

// A disk with a new store.
fn new_store<R: AllocGlobal + Threads + Wait + Sync>(rt: &R) -> MemDisk {
    let alloc = rt.alloc();
    let empty = MemDisk::new(Vec::new(alloc), Vec::new(alloc));
    let words = &["init", "store.pmos"];
    run_words(rt, words, empty, Vec::new(alloc), &OpenGate).disk
}

/// Makes a store, and runs the script on it in this mode.
pub(crate) fn run<R: AllocGlobal + Threads + Wait + Sync>(
    rt: &R,
    mode: &str,
    gate: &Meeting,
) -> Run {
    let alloc = rt.alloc();
    let disk = new_store(rt);
    let script = SCRIPT.to_vec(alloc).unwrap_or(Vec::new(alloc));
    run_words(rt, &["run", "store.pmos", mode], disk, script, gate)
}
