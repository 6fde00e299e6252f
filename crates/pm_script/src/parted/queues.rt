//! The queues of the clients, one beside another.

ghost use Rattle.std.specs.Prelude.{◌≡◌, ◌≢◌, ◌<◌, ◌+◌, ℕ, List, [], ◌∷◌, ◌++◌, length, map};
ghost use Rattle.std.specs.Prelude.{IfNone, IfSome, OnOk, OnSome};
ghost use Rattle.std.specs.VecDeque.{deque_items};
ghost use Rattle.pm_types.specs.declared.command.Cmd.{Cmd as Command};
ghost use Rattle.pm_script.specs.Parted.Lists.{count_left, list_of};

use pm_types::{Cmd, NoMemory};
use std::collections::VecDeque;

/// Puts a command behind the others of a client.
pub(crate) fn put(queues: &mut [VecDeque<Cmd>], client: u32, cmd: Cmd) -> Result<(), NoMemory>
    requires { client < length queues.old }
    ensures last { OnOk result (list_of (map deque_items queues.new) client
        ≡ list_of (map deque_items queues.old) client ++ cmd ∷ []) }
    ensures others { (other : ℕ) → other ≢ client
        → list_of (map deque_items queues.new) other ≡ list_of (map deque_items queues.old) other }
    ensures more { OnOk result (count_left (map deque_items queues.new) ≡ count_left (map deque_items queues.old) + 1) }
{
    queues[client as usize].push_back(cmd)?;
    Ok(())
}

/// The next command of a client.
pub(crate) fn next_of(queues: &[VecDeque<Cmd>], client: u32) -> Option<&Cmd>
    requires { client < length queues.now }
    ensures none { IfNone result (list_of (map deque_items queues.now) client ≡ []) }
    ensures some { IfSome result (λ cmd. (rest : List Command)
        × (list_of (map deque_items queues.now) client ≡ cmd.now ∷ rest)) }
{
    queues[client as usize].front()
}

/// Takes the next command of a client.
pub(crate) fn take_next(queues: &mut [VecDeque<Cmd>], client: u32) -> Option<Cmd>
    requires { client < length queues.old }
    ensures none { IfNone result (list_of (map deque_items queues.old) client ≡ []) }
    ensures still { IfNone result (map deque_items queues.new ≡ map deque_items queues.old) }
    ensures some { IfSome result (λ cmd. list_of (map deque_items queues.old) client
        ≡ cmd ∷ list_of (map deque_items queues.new) client) }
    ensures others { (other : ℕ) → other ≢ client
        → list_of (map deque_items queues.new) other ≡ list_of (map deque_items queues.old) other }
    ensures fewer { OnSome result (count_left (map deque_items queues.new) + 1
        ≡ count_left (map deque_items queues.old)) }
{
    queues[client as usize].pop_front()
}
