//! Calls of a disk with a fuse, over a disk in memory.

use crate::disks::{is_sent, push_call, push_told};
use crate::spelling::Calls;
use pm_case_text::{CallsOf, Fault, first_word, numbered, push_calls, push_number};
use pm_disk::MemDisk;
use pm_disk::fuse::FuseDisk;
use std::alloc::Global;

// Adds what the disk below tells.
fn push_below(alloc: Global, disk: &MemDisk, text: &str, out: &mut String) -> Result<(), Fault> {
    let (told, rest) = first_word(text);
    push_told(alloc, disk, told, rest, out)
}

// A call of a disk with a fuse: one of any disk, `left`, and `below` with what the disk below tells.
impl CallsOf<FuseDisk<MemDisk>> for Calls {
    fn call(
        alloc: Global,
        called: &mut FuseDisk<MemDisk>,
        text: &str,
        out: &mut String,
    ) -> Result<(), Fault> {
        let (call, rest) = first_word(text);
        match call {
            "left" => push_number(called.left(), out),
            "below" => push_below(alloc, called.inner(), rest, out),
            _ => push_call(alloc, called, call, rest, out),
        }
    }
}

// A disk that passes so many calls on. It may be sent to another thread.
fn fused(inner: MemDisk, passes: u64) -> FuseDisk<MemDisk> {
    let disk = FuseDisk::new(inner, passes);
    is_sent(&disk);
    disk
}

/// `PASSES CALLS`: the calls, between ` / `, of a disk that passes so many of them on to this disk in memory.
pub(crate) fn push_fuse(
    alloc: Global,
    inner: MemDisk,
    text: &str,
    out: &mut String,
) -> Result<(), Fault> {
    match numbered(text) {
        Ok((passes, calls)) => {
            let mut disk = fused(inner, passes);
            push_calls::<Calls, _>(alloc, &mut disk, calls, out)
        }
        Err(fault) => Err(fault),
    }
}
