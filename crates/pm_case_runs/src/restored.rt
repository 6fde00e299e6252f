//! A store that is dumped, restored from that dump, and dumped again.

use crate::running::{RunEnd, run, run_script};
use pm_case_text::told::{DUMP, RESTORE, Setting};
use pm_case_text::{Fault, push_filled};
use std::sync::Wait;
use std::thread::Threads;

// How many bytes the source of a dump gives in one call.
const PIECE_BYTES: usize = 32_768;

// Makes a store of this dump on an empty disk.
fn restored<R: AllocGlobal + Threads + Wait + Sync>(rt: &R, dump: &[u8]) -> Result<RunEnd, Fault> {
    let mut setting = Setting::with_script(rt.alloc(), RESTORE, dump)?;
    setting.piece = PIECE_BYTES;
    run(rt, &[], setting)
}

// Adds with which status a dump was restored, and whether the second dump is the same.
fn push_how(status: u8, same: bool, out: &mut String) -> Result<(), Fault> {
    let text = if same {
        "restored with %, again the same\n"
    } else {
        "restored with %, again another\n"
    };
    push_filled(text, &[status as u64], out)
}

// Dumps a restored store, and adds how it was restored, and whether that dump is the same as the first.
fn push_again<R: AllocGlobal + Threads + Wait + Sync>(
    rt: &R,
    store: &RunEnd,
    dump: &[u8],
    out: &mut String,
) -> Result<(), Fault> {
    let again = run_script(rt, store.disk(), DUMP, &[])?;
    push_how(store.status, again.written() == dump, out)
}

// Restores a dump, and adds the same of that.
fn push_restored<R: AllocGlobal + Threads + Wait + Sync>(
    rt: &R,
    dump: &[u8],
    out: &mut String,
) -> Result<(), Fault> {
    let store = restored(rt, dump)?;
    push_again(rt, &store, dump, out)
}

/// Dumps the store on a disk, restores the dump on an empty one, and dumps that: adds with which status it was restored,
/// and whether both dumps are the same.
pub fn push_round<R: AllocGlobal + Threads + Wait + Sync>(
    rt: &R,
    disk: &[u8],
    out: &mut String,
) -> Result<(), Fault> {
    let first = run_script(rt, disk, DUMP, &[])?;
    push_restored(rt, first.written(), out)
}
