//! Each client's commands that are still to be asked.

ghost use Rattle.std.specs.Prelude.{◌≡◌, length, map};
ghost use Rattle.std.specs.VecDeque.{deque_items};
ghost use Rattle.pm_types.specs.declared.limits.TheConstants.{CLIENTS};
ghost use Rattle.pm_script.specs.Parted.Lists.{count_left};

use crate::Script;
use crate::parted::asked::commands_asked;
use crate::parted::queues::{next_of, take_next};
use crate::parted::split::{count_commands, fill, take_queues};
use pm_types::{Cmd, NoMemory};
use std::alloc::Global;
use std::collections::VecDeque;

/// Each client's commands that are still to be asked, in order. Contracts see eight lists.
#[derive(Drop)]
pub struct Parts {
    queues: Vec<VecDeque<Cmd>>,
    left: u64,
    ghost eight: { length queues.items ≡ CLIENTS },
    ghost counted: { left ≡ count_left (map deque_items queues.items) },
}

impl Parts {
    ghost use Rattle.std.specs.Prelude.{◌≡◌, ◌≢◌, ◌<◌, ◌≤◌, ◌+◌, ℕ, List, [], ◌∷◌, length, map};
    ghost use Rattle.std.specs.Prelude.{IfNone, IfOk, IfSome, OnSome};
    ghost use Rattle.std.specs.VecDeque.{deque_items};
    ghost use Rattle.pm_types.specs.declared.command.Cmd.{Cmd as Command};
    ghost use Rattle.pm_types.specs.declared.limits.TheConstants.{CLIENTS, SCRIPT_LINES};
    ghost use Rattle.pm_model.specs.Journal.{commands_of};
    ghost use Rattle.pm_script.specs.Parted.Asked.{requests_asked};
    ghost use Rattle.pm_script.specs.Parted.Lists.{count_left, list_of};
    ghost use Rattle.pm_script.specs.Parted.Left.{lists_in};

    /// Each client's commands of a script. The lines are counted in one pass, and each client's queue takes its room at
    /// once; then each command moves out of its line.
    ///
    /// # Errors
    ///
    /// Memory ran out. Nothing is kept.
    pub fn split(alloc: Global, script: Script) -> Result<Parts, NoMemory>
        ensures each { IfOk result (λ parts. (client : ℕ)
            → list_of (lists_in parts) client ≡ commands_of client (requests_asked script)) }
        ensures all { IfOk result (λ parts. count_left (lists_in parts) ≡ length (requests_asked script)) }
        ensures few { IfOk result (λ parts. count_left (lists_in parts) ≤ SCRIPT_LINES) }
    {
        let left = commands_asked(script.as_slice());
        let counts = count_commands(script.as_slice());
        let mut queues = take_queues(alloc, &counts)?;
        fill(queues.as_mut_slice(), script.into_lines())?;
        Ok(Parts { queues, left })
    }

    /// The next command of a client, 0 to 7.
    pub fn front(&self, client: u32) -> Option<&Cmd>
        requires { client < CLIENTS }
        ensures none { IfNone result (list_of (lists_in self.now) client ≡ []) }
        ensures some { IfSome result (λ cmd. (rest : List Command)
            × (list_of (lists_in self.now) client ≡ cmd.now ∷ rest)) }
    {
        next_of(self.queues.as_slice(), client)
    }

    /// Takes the next command of a client, 0 to 7. The queue keeps its buffer.
    pub fn pop(&mut self, client: u32) -> Option<Cmd>
        requires { client < CLIENTS }
        ensures none { IfNone result (list_of (lists_in self.old) client ≡ []) }
        ensures still { IfNone result (lists_in self.new ≡ lists_in self.old) }
        ensures some { IfSome result (λ cmd. list_of (lists_in self.old) client
            ≡ cmd ∷ list_of (lists_in self.new) client) }
        ensures others { (other : ℕ) → other ≢ client
            → list_of (lists_in self.new) other ≡ list_of (lists_in self.old) other }
        ensures fewer { OnSome result (count_left (lists_in self.new) + 1 ≡ count_left (lists_in self.old)) }
    {
        let cmd = take_next(self.queues.as_mut_slice(), client)?;
        self.left -= 1;
        Some(cmd)
    }

    /// The lists of all clients, client 0 first. Nothing is copied.
    pub fn into_lists(self) -> Vec<VecDeque<Cmd>>
        ensures lists { map deque_items result.items ≡ lists_in self }
        ensures eight { length result.items ≡ CLIENTS }
    {
        self.queues
    }

    /// How many commands are left.
    pub fn left(&self) -> u64
        ensures { result ≡ count_left (lists_in self.now) }
    {
        self.left
    }
}
