//! How the lines of a script are parted by who asks.

ghost use Rattle.std.specs.Prelude.{◌≡◌, ◌<◌, ◌+◌, ℕ, [], ◌++◌, length, map, slice_index, IfOk, OnOk};
ghost use Rattle.std.specs.VecDeque.{deque_capacity, deque_items};
ghost use Rattle.pm_types.specs.declared.limits.TheConstants.{CLIENTS};
ghost use Rattle.pm_model.specs.Journal.{commands_of};
ghost use Rattle.pm_script.specs.Script.{AreLines, first_of};
ghost use Rattle.pm_script.specs.Words.{IsFirst};
ghost use Rattle.pm_script.specs.Parted.Asked.{request_of, requests_asked};
ghost use Rattle.pm_script.specs.Parted.Lists.{count_left, list_of};

use crate::Line;
use crate::parted::queues::put;
use pm_types::{CLIENTS, Cmd, NoMemory};
use std::alloc::Global;
use std::collections::VecDeque;

/// How many commands each client asks.
pub(crate) fn count_commands(lines: &[Line]) -> [u32; CLIENTS as usize]
    requires { AreLines lines.now }
    ensures { (client : ℕ) → client < CLIENTS
        → slice_index result client ≡ length (commands_of client (requests_asked lines.now)) }
{
    let mut counts = [0; CLIENTS as usize];
    for line in lines {
        match line {
            Line::Client { client, .. } => counts[*client as usize] += 1,
            Line::Gc(_) => {}
            Line::Flush(_) => {}
        }
    }
    counts
}

/// A queue for each client, with room for so many commands and no more.
pub(crate) fn take_queues(alloc: Global, counts: &[u32]) -> Result<Vec<VecDeque<Cmd>>, NoMemory>
    ensures empty { IfOk result (λ queues. map deque_items queues.items ≡ map (λ _. []) counts.now) }
    ensures room { IfOk result (λ queues. map deque_capacity queues.items ≡ counts.now) }
{
    let mut queues = Vec::new(alloc);
    for count in counts {
        queues.push(VecDeque::with_capacity(alloc, *count as usize)?)?;
    }
    Ok(queues)
}

// Moves the command out of a line, if it has one, behind the others of its client.
fn place(queues: &mut [VecDeque<Cmd>], line: Line) -> Result<(), NoMemory>
    requires line { IsFirst (first_of line) }
    requires eight { length queues.old ≡ CLIENTS }
    ensures each { OnOk result ((client : ℕ) → list_of (map deque_items queues.new) client
        ≡ list_of (map deque_items queues.old) client ++ commands_of client (request_of line)) }
    ensures all { OnOk result (count_left (map deque_items queues.new)
        ≡ count_left (map deque_items queues.old) + length (request_of line)) }
{
    match line {
        Line::Client { client, cmd } => put(queues, client, cmd),
        Line::Gc(_) => Ok(()),
        Line::Flush(_) => Ok(()),
    }
}

/// Moves each command out of its line, behind the others of its client.
pub(crate) fn fill(queues: &mut [VecDeque<Cmd>], lines: Vec<Line>) -> Result<(), NoMemory>
    requires lines { AreLines lines.items }
    requires eight { length queues.old ≡ CLIENTS }
    requires empty { (client : ℕ) → list_of (map deque_items queues.old) client ≡ [] }
    requires none { count_left (map deque_items queues.old) ≡ 0 }
    ensures each { OnOk result ((client : ℕ)
        → list_of (map deque_items queues.new) client ≡ commands_of client (requests_asked lines.items)) }
    ensures all { OnOk result (count_left (map deque_items queues.new) ≡ length (requests_asked lines.items)) }
{
    let mut rest = VecDeque::from(lines);
    while let Some(line) = rest.pop_front() {
        place(queues, line)?;
    }
    Ok(())
}
