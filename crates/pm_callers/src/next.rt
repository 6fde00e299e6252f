//! The next event of a task: one call of `Shared`.

ghost use Rattle.std.specs.Prelude.{◌<◌};
ghost use Rattle.pm_types.specs.declared.limits.TheConstants.{CLIENTS};
ghost use Rattle.pm_place.specs.Choosers.{IsChooser};
ghost use Rattle.pm_engine.specs.Shown.{chooser, disk_in};
ghost use Rattle.pm_engine.specs.contracts.Engine as engines;
ghost use Rattle.pm_seats.specs.Sharing.{first_engine};
ghost use Rattle.pm_callers.specs.declared.task.Task.TheVariants.{Client, Collector, Flusher};
ghost use Rattle.pm_callers.specs.Tasks.{IsTask};
ghost use Rattle.pm_callers.specs.Works.{IsWorkers, TakesNext};

use crate::Task;
use pm_disk::Disk;
use pm_passes::Pass;
use pm_seats::{SeatFault, Shared};
use pm_types::{Cmd, Entry};
use std::alloc::Global;
use std::collections::VecDeque;
use std::sync::Wait;

// The next command of a client is called, and is let go once it is answered.
fn call_next<D: Disk + Drop, F: Drop, R: Wait>(
    rt: &R,
    alloc: Global,
    shared: &Shared<D, F>,
    pass: &mut Pass<Entry>,
    client: u32,
    commands: &mut VecDeque<Cmd>,
) -> Option<Result<(), SeatFault>>
    requires client { client < CLIENTS }
    requires pass { IsWorkers (engines.the_row D.row F.row D.Disk).coded shared.now pass.old }
    ensures pass { IsWorkers (engines.the_row D.row F.row D.Disk).coded shared.now pass.new }
    ensures next { TakesNext (D.count (disk_in (first_engine shared.now)))
        (Client client commands.old) (Client client commands.new) pass.old pass.new result }
{
    let Some(cmd) = commands.front() else {
        return None;
    };
    match shared.call(rt, alloc, pass, client, cmd) {
        Ok(seen) => {
            drop(seen);
            drop(commands.pop_front());
            Some(Ok(()))
        }
        Err(fault) => Some(Err(fault)),
    }
}

// The next event of the collector is made.
fn collect_next<D: Disk + Drop, F: Fn(&[u64]) -> usize + Drop, R: Wait>(
    rt: &R,
    alloc: Global,
    shared: &Shared<D, F>,
    pass: &mut Pass<Entry>,
    left: &mut u64,
) -> Option<Result<(), SeatFault>>
    requires chooser { IsChooser F.Fn (chooser (first_engine shared.now)) }
    requires pass { IsWorkers (engines.the_row D.row F.row D.Disk).coded shared.now pass.old }
    ensures pass { IsWorkers (engines.the_row D.row F.row D.Disk).coded shared.now pass.new }
    ensures next { TakesNext (D.count (disk_in (first_engine shared.now)))
        (Collector left.old) (Collector left.new) pass.old pass.new result }
{
    if *left == 0 {
        return None;
    }
    match shared.collect(rt, alloc, pass) {
        Ok(_made) => {
            *left -= 1;
            Some(Ok(()))
        }
        Err(fault) => Some(Err(fault)),
    }
}

// The next flush event is made.
fn flush_next<D: Disk + Drop, F: Drop, R: Wait>(
    rt: &R,
    alloc: Global,
    shared: &Shared<D, F>,
    pass: &mut Pass<Entry>,
    left: &mut u64,
) -> Option<Result<(), SeatFault>>
    requires pass { IsWorkers (engines.the_row D.row F.row D.Disk).coded shared.now pass.old }
    ensures pass { IsWorkers (engines.the_row D.row F.row D.Disk).coded shared.now pass.new }
    ensures next { TakesNext (D.count (disk_in (first_engine shared.now)))
        (Flusher left.old) (Flusher left.new) pass.old pass.new result }
{
    if *left == 0 {
        return None;
    }
    match shared.flush(rt, alloc, pass) {
        Ok(_made) => {
            *left -= 1;
            Some(Ok(()))
        }
        Err(fault) => Some(Err(fault)),
    }
}

/// Makes the next event of a task by one call, if one is left, and it is left no more. Where a fault is answered all is
/// left that was.
pub(crate) fn next_event<D: Disk + Drop, F: Fn(&[u64]) -> usize + Drop, R: Wait>(
    rt: &R,
    alloc: Global,
    shared: &Shared<D, F>,
    pass: &mut Pass<Entry>,
    task: &mut Task,
) -> Option<Result<(), SeatFault>>
    requires task { IsTask task.old }
    requires chooser { IsChooser F.Fn (chooser (first_engine shared.now)) }
    requires pass { IsWorkers (engines.the_row D.row F.row D.Disk).coded shared.now pass.old }
    ensures pass { IsWorkers (engines.the_row D.row F.row D.Disk).coded shared.now pass.new }
    ensures next { TakesNext (D.count (disk_in (first_engine shared.now))) task.old task.new pass.old pass.new result }
{
    match task {
        Task::Client(client, commands) => call_next(rt, alloc, shared, pass, *client, commands),
        Task::Collector(left) => collect_next(rt, alloc, shared, pass, left),
        Task::Flusher(left) => flush_next(rt, alloc, shared, pass, left),
    }
}
