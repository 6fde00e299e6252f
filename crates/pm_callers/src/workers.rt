//! Workers: one by itself, and several, each in a thread of its own.

ghost use Rattle.std.specs.Prelude.{◌≡◌, ◌≤◌, ◌<◌, ◌^◌, length, IfSome};
ghost use Rattle.std.specs.List.{AllByRecursion};
ghost use Rattle.std.specs.Thread.{IsSend, IsSync};
ghost use Rattle.pm_types.specs.declared.fault.EngineFault.TheVariants.{Memory as OfMemory};
ghost use Rattle.pm_seats.specs.declared.fault.SeatFault.TheVariants.{Engine as Answered};
ghost use Rattle.pm_place.specs.Choosers.{IsChooser};
ghost use Rattle.pm_engine.specs.Shown.{chooser, disk_in};
ghost use Rattle.pm_engine.specs.contracts.Engine as engines;
ghost use Rattle.pm_passes.specs.Passes.{view_of};
ghost use Rattle.pm_seats.specs.Sharing.{first_engine};
ghost use Rattle.pm_callers.specs.declared.task.Task.TheVariants.{Client, Collector, Flusher};
ghost use Rattle.pm_callers.specs.Tasks.{IsTask};
ghost use Rattle.pm_callers.specs.Works.{Ends, IsWorkers, WorkTogether, Works};

use crate::next::next_event;
use crate::{Task, worse};
use pm_disk::Disk;
use pm_passes::Pass;
use pm_seats::{SeatFault, Shared};
use pm_turns::Gate;
use pm_types::{Cmd, EngineFault, Entry, NoMemory};
use std::alloc::Global;
use std::collections::VecDeque;
use std::sync::Wait;
use std::thread::{Threads, join_mut};

/// Makes the events of a task, each by one call with the gate round it and no lock held, until none is left or a call
/// answers a fault. Its turns are counted from 0, and the gate is called for the last one too, which finds nothing left.
pub fn work<D: Disk + Drop, F: Fn(&[u64]) -> usize + Drop, G: Gate, R: Wait>(
    rt: &R,
    alloc: Global,
    shared: &Shared<D, F>,
    gate: &G,
    pass: &mut Pass<Entry>,
    task: &mut Task,
) -> Option<SeatFault>
    requires task { IsTask task.old }
    requires chooser { IsChooser F.Fn (chooser (first_engine shared.now)) }
    requires pass { IsWorkers (engines.the_row D.row F.row D.Disk).coded shared.now pass.old }
    ensures pass { IsWorkers (engines.the_row D.row F.row D.Disk).coded shared.now pass.new }
    ensures works { Works (D.count (disk_in (first_engine shared.now)))
        task.old task.new (view_of pass.old) (view_of pass.new) result }
{
    let who = task.who();
    let mut index = 0u64;
    loop {
        gate.before(who, index);
        let next = next_event(rt, alloc, shared, pass, task);
        gate.after(who, index);
        match next {
            Some(Ok(())) => index = index.saturating_add(1),
            Some(Err(fault)) => return Some(fault),
            None => return None,
        }
    }
}

// Want of memory, where a command is left for a client's worker that gets no pass.
fn calls_without_pass(client: u32, commands: &VecDeque<Cmd>, none: NoMemory) -> Option<SeatFault>
    ensures ends { Ends (Client client commands.now) result }
    ensures memory { IfSome result (λ fault. fault ≡ Answered (OfMemory none)) }
{
    match commands.front() {
        Some(_first) => Some(SeatFault::Engine(EngineFault::Memory(none))),
        None => None,
    }
}

// Want of memory, where this count of events is left.
fn events_without_pass(left: u64, none: NoMemory) -> Option<SeatFault>
    ensures collector { Ends (Collector left) result }
    ensures flusher { Ends (Flusher left) result }
    ensures memory { IfSome result (λ fault. fault ≡ Answered (OfMemory none)) }
{
    if left == 0 {
        return None;
    }
    Some(SeatFault::Engine(EngineFault::Memory(none)))
}

// The fault of a worker that gets no pass: want of memory, unless nothing is left for it.
fn without_pass(task: &Task, none: NoMemory) -> Option<SeatFault>
    ensures ends { Ends task.now result }
    ensures memory { IfSome result (λ fault. fault ≡ Answered (OfMemory none)) }
{
    match task {
        Task::Client(client, commands) => calls_without_pass(*client, commands, none),
        Task::Collector(left) => events_without_pass(*left, none),
        Task::Flusher(left) => events_without_pass(*left, none),
    }
}

// The workers of these tasks with one pass, beside the worker of this task with another one. It answers the worst fault of
// those, and that of this one.
#[cycle(workers)]
fn beside<
    D: Disk + Drop + Send,
    F: Fn(&[u64]) -> usize + Drop + Send,
    G: Gate + Sync,
    R: Threads + Wait + Sync,
>(
    rt: &R,
    alloc: Global,
    shared: &Shared<D, F>,
    gate: &G,
    pass: &mut Pass<Entry>,
    tasks: &mut [Task],
    other: &mut Pass<Entry>,
    task: &mut Task,
) -> (Option<SeatFault>, Option<SeatFault>)
    requires crosses { IsSync R.row × IsSync G.row × IsSend D.row × IsSend F.row }
    requires some { 0 < length tasks.old }
    requires tasks { AllByRecursion IsTask tasks.old }
    requires task { IsTask task.old }
    requires shares { 2 ^ length tasks.old ≤ (view_of pass.old).shares }
    requires chooser { IsChooser F.Fn (chooser (first_engine shared.now)) }
    requires pass { IsWorkers (engines.the_row D.row F.row D.Disk).coded shared.now pass.old }
    requires other { IsWorkers (engines.the_row D.row F.row D.Disk).coded shared.now other.old }
    ensures pass { IsWorkers (engines.the_row D.row F.row D.Disk).coded shared.now pass.new }
    ensures other { IsWorkers (engines.the_row D.row F.row D.Disk).coded shared.now other.new }
    ensures together { WorkTogether (D.count (disk_in (first_engine shared.now)))
        tasks.old tasks.new (view_of pass.old) (view_of pass.new) result.0 }
    ensures works { Works (D.count (disk_in (first_engine shared.now)))
        task.old task.new (view_of other.old) (view_of other.new) result.1 }
{
    let mut first = || -> Option<SeatFault>
        requires crosses { IsSync R.row × IsSync G.row × IsSend D.row × IsSend F.row }
        requires some { 0 < length tasks.now }
        requires tasks { AllByRecursion IsTask tasks.now }
        requires shares { 2 ^ length tasks.now ≤ (view_of pass.now).shares }
        requires chooser { IsChooser F.Fn (chooser (first_engine shared.now)) }
        requires pass { IsWorkers (engines.the_row D.row F.row D.Disk).coded shared.now pass.now }
        ensures pass { IsWorkers (engines.the_row D.row F.row D.Disk).coded shared.entry.now pass.exit.now }
        ensures works { WorkTogether (D.count (disk_in (first_engine shared.entry.now)))
            tasks.entry.now tasks.exit.now (view_of pass.entry.now) (view_of pass.exit.now) result }
    { spread(rt, alloc, shared, gate, pass, tasks) };
    let mut second = || -> Option<SeatFault>
        requires task { IsTask task.now }
        requires chooser { IsChooser F.Fn (chooser (first_engine shared.now)) }
        requires pass { IsWorkers (engines.the_row D.row F.row D.Disk).coded shared.now other.now }
        ensures pass { IsWorkers (engines.the_row D.row F.row D.Disk).coded shared.entry.now other.exit.now }
        ensures works { Works (D.count (disk_in (first_engine shared.entry.now)))
            task.entry.now task.exit.now (view_of other.entry.now) (view_of other.exit.now) result }
    { work(rt, alloc, shared, gate, other, task) };
    join_mut(rt, &mut first, &mut second)
}

/// The workers of these tasks, each in a thread of its own and each with a pass of its own, which is split from this one
/// and is met again. The first worker has this pass. It answers the worst fault that one of them met (`worse`); the others
/// go on.
///
/// `n` tasks take `2 ^ n` shares. Waits for the threads; where one can't be made its workers go after the others. A worker
/// for which `split` answers want of memory makes nothing, and that is its fault, unless nothing is left for it.
#[cycle(workers)]
pub fn spread<
    D: Disk + Drop + Send,
    F: Fn(&[u64]) -> usize + Drop + Send,
    G: Gate + Sync,
    R: Threads + Wait + Sync,
>(
    rt: &R,
    alloc: Global,
    shared: &Shared<D, F>,
    gate: &G,
    pass: &mut Pass<Entry>,
    tasks: &mut [Task],
) -> Option<SeatFault>
    requires some { 0 < length tasks.old }
    requires tasks { AllByRecursion IsTask tasks.old }
    requires shares { 2 ^ length tasks.old ≤ (view_of pass.old).shares }
    requires chooser { IsChooser F.Fn (chooser (first_engine shared.now)) }
    requires pass { IsWorkers (engines.the_row D.row F.row D.Disk).coded shared.now pass.old }
    ensures pass { IsWorkers (engines.the_row D.row F.row D.Disk).coded shared.now pass.new }
    ensures works { WorkTogether (D.count (disk_in (first_engine shared.now)))
        tasks.old tasks.new (view_of pass.old) (view_of pass.new) result }
{
    let Some((task, others)) = tasks.split_last_mut() else {
        unreachable!()
    };
    if others.is_empty() {
        return work(rt, alloc, shared, gate, pass, task);
    }
    match shared.split(rt, pass) {
        Ok(mut other) => {
            let (met, last) = beside(rt, alloc, shared, gate, pass, others, &mut other, task);
            shared.meet(rt, pass, other);
            worse(met, last)
        }
        Err(none) => {
            let met = spread(rt, alloc, shared, gate, pass, others);
            worse(met, without_pass(task, none))
        }
    }
}
