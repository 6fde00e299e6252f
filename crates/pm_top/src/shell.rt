//! The program, down to its status and to standard error.
ghost use Rattle.std.specs.Prelude.{map};
ghost use Rattle.pm_place.specs.Choosers.{IsChooser};
ghost use Rattle.pm_runs.specs.Ends.Ends.{detail_line};
ghost use Rattle.pm_top.specs.Program.{Tells, Performs};

use crate::pmos;
use pm_disk::Disk;
use pm_io::{Sink, Source};
use pm_place::Placement;
use pm_runs::{Detail, Ended, line_of};
use pm_turns::Gate;
use std::sync::Wait;
use std::thread::Threads;

/// Writes the line of an end to the sink for errors, as far as that takes it. Where all is fine there is none, and the
/// sink is not called. It takes no memory.
pub fn tell<E: Sink>(errors: &mut E, detail: &Detail)
    ensures { Tells E.Sink errors.old errors.new (detail_line detail.now) }
{
    match detail {
        Detail::Fine => {}
        _ => match errors.put(line_of(detail).as_slice()) {
            Ok(()) => {}
            Err(_) => {}
        },
    }
}

/// Does what the program does, over any disks, streams and sink for errors, and hands back what it was lent, with the
/// status with which it ends: 0 to 7. The replies go to `sink` alone, and to `errors` the line of the end, where the
/// status is not 0. As `pmos` it waits for threads where a script is run in them, and else for nobody, and leaves the
/// memory of its heap to the process.
pub fn program<
    R: AllocGlobal + Threads + Wait + Sync,
    D: Disk + Drop + Send,
    E: Disk + Drop + Send,
    S: Source,
    K: Sink,
    F: Fn(&[u64]) -> usize + Drop + Send,
    W: Sink,
    G: Gate + Sync,
>(
    rt: &R,
    words: &[&str],
    disk: D,
    other: E,
    source: S,
    sink: K,
    errors: &mut W,
    place: Placement<F>,
    gate: &G,
) -> Ended<D, E, S, K>
    requires chooser { IsChooser F.Fn place }
    ensures told { Tells W.Sink errors.old errors.new (detail_line result.detail) }
    ensures performs { Performs D.Disk E.Disk S.Source K.Sink place
        (map (λ word. word.now) words.now) disk other source sink result }
{
    let ended = pmos(rt, words, disk, other, source, sink, place, gate);
    tell(errors, &ended.detail);
    ended
}
