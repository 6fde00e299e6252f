//! What a worker has to do.

ghost use Rattle.std.specs.Prelude.{◌≡◌, ◌++◌, ◌∷◌, [], length, IfOk};
ghost use Rattle.pm_types.specs.declared.limits.TheConstants.{CLIENTS};
ghost use Rattle.pm_callers.specs.declared.task.Task.TheVariants.{Collector, Flusher};
ghost use Rattle.pm_callers.specs.Tasks.{client_tasks, who_of};

use pm_lock::{COLLECTOR, FLUSHER};
use pm_types::{Cmd, NoMemory};
use std::alloc::Global;
use std::collections::VecDeque;

/// What is left for a worker.
#[derive(Drop)]
pub enum Task {
    /// The commands of a client, 0 to 7, in order.
    Client(u32, VecDeque<Cmd>),
    /// So many events of the collector.
    Collector(u64),
    /// So many flush events.
    Flusher(u64),
}

impl Task {
    /// The number of its worker: 0 to 7 a client, 8 the collector, 9 the flusher.
    pub fn who(&self) -> u32
        ensures { result ≡ who_of self.now }
    {
        match self {
            Task::Client(client, _) => *client,
            Task::Collector(_) => COLLECTOR,
            Task::Flusher(_) => FLUSHER,
        }
    }
}

/// The tasks of ten workers: the clients, client 0 first, each with its list, the collector and the flusher.
///
/// # Errors
///
/// Memory ran out. Nothing is kept.
pub fn tasks_of(
    alloc: Global,
    lists: Vec<VecDeque<Cmd>>,
    collects: u64,
    flushes: u64,
) -> Result<Vec<Task>, NoMemory>
    requires { length lists.items ≡ CLIENTS }
    ensures { IfOk result (λ tasks. tasks.items
        ≡ client_tasks 0 lists.items ++ Collector collects ∷ Flusher flushes ∷ []) }
{
    let mut tasks = Vec::with_capacity(alloc, lists.len() + 2)?;
    let mut client = 0;
    let mut rest = VecDeque::from(lists);
    while let Some(commands) = rest.pop_front() {
        tasks.push(Task::Client(client, commands))?;
        client += 1;
    }
    tasks.push(Task::Collector(collects))?;
    tasks.push(Task::Flusher(flushes))?;
    Ok(tasks)
}
