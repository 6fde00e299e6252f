//! Lines of a script, parted by who asks.

ghost use Rattle.std.specs.Prelude.{◌<◌};
ghost use Rattle.pm_types.specs.declared.limits.TheConstants.{CLIENTS};

use crate::scripts::{in_turn, spelled};
use pm_case_text::{Fault, push_filled, push_number, push_words, refuse, small};
use pm_script::Script;
use pm_script::parted::{Parts, collects_asked, commands_asked, flushes_asked};
use pm_types::{CLIENTS, Cmd};
use std::alloc::Global;

// The number of a command: cases ask to load a field, and its index is that number.
fn number_of(cmd: &Cmd) -> Option<u32> {
    match cmd {
        Cmd::Load { index, .. } => Some(*index),
        _ => None,
    }
}

// The number of the command that a client sees as its next one.
fn seen(parts: &Parts, client: u32) -> Option<u32>
    requires { client < CLIENTS }
{
    match parts.front(client) {
        Some(cmd) => number_of(cmd),
        None => None,
    }
}

// Takes the next command of a client; its number.
fn taken(parts: &mut Parts, client: u32) -> Option<u32>
    requires { client < CLIENTS }
{
    match parts.pop(client) {
        Some(cmd) => number_of(&cmd),
        None => None,
    }
}

// Adds the number of a command, or that there is none.
fn push_number_of(number: Option<u32>, out: &mut String) -> Result<(), Fault> {
    match number {
        Some(number) => push_number(number as u64, out),
        None => push_words("none", out),
    }
}

// Adds how many commands, events of the collector and flush events a script asks for.
fn push_asked(script: &Script, out: &mut String) -> Result<(), Fault> {
    let commands = commands_asked(script.as_slice());
    let steps = collects_asked(script);
    let flushes = flushes_asked(script);
    let numbers = [commands, steps, flushes];
    push_filled("% commands, % steps, % flushes", &numbers, out)
}

// Takes the next command of a client where there is one, and adds its number.
fn push_next(parts: &mut Parts, client: u32, out: &mut String) -> Result<(), Fault>
    requires { client < CLIENTS }
{
    if parts.front(client).is_none() {
        return Ok(());
    }
    push_words(" ", out)?;
    push_number_of(taken(parts, client), out)
}

// Takes all commands of a client, and adds the number of each, where it has some.
fn push_all_of(parts: &mut Parts, client: u32, out: &mut String) -> Result<(), Fault>
    requires { client < CLIENTS }
{
    if parts.front(client).is_none() {
        return Ok(());
    }
    push_filled(" / %:", &[client as u64], out)?;
    for _ in 0..parts.left() {
        push_next(parts, client, out)?;
    }
    Ok(())
}

// Takes all commands of a client, and answers how many came in the order of their numbers, from 0 on.
fn count_in_order(parts: &mut Parts, client: u32) -> u32
    requires { client < CLIENTS }
{
    let mut count = 0u32;
    for _ in 0..parts.left() {
        if taken(parts, client) != Some(count) {
            return count;
        }
        count = count.saturating_add(1);
    }
    count
}

// Takes all commands of a client, and adds the number of each, or how many came in their order.
fn push_client(parts: &mut Parts, client: u32, long: bool, out: &mut String) -> Result<(), Fault>
    requires { client < CLIENTS }
{
    if long {
        let count = count_in_order(parts, client);
        return push_filled(" / %: %", &[client as u64, count as u64], out);
    }
    push_all_of(parts, client, out)
}

// Adds how many commands are left.
fn push_left(parts: &Parts, out: &mut String) -> Result<(), Fault> {
    push_filled(" / % left\n", &[parts.left()], out)
}

// Takes all commands of each client.
fn push_clients(parts: &mut Parts, long: bool, out: &mut String) -> Result<(), Fault> {
    for client in 0..CLIENTS {
        push_client(parts, client, long, out)?;
    }
    push_left(parts, out)
}

// Adds what a script asks for, and what each client takes of it.
fn push_parted(alloc: Global, script: Script, long: bool, out: &mut String) -> Result<(), Fault> {
    push_asked(&script, out)?;
    let mut parts = Parts::split(alloc, script)?;
    push_clients(&mut parts, long, out)
}

/// `SCRIPT`: what it asks for, and the commands of each client.
pub(crate) fn push_parts(alloc: Global, text: &str, out: &mut String) -> Result<(), Fault> {
    push_parted(alloc, spelled(alloc, text)?, false, out)
}

/// `N`: of a script of so many lines, how many commands of each client come in their order.
pub(crate) fn push_long(alloc: Global, text: &str, out: &mut String) -> Result<(), Fault> {
    push_parted(alloc, in_turn(alloc, text)?, true, out)
}

/// `N`: what a script of so many lines asks for.
pub(crate) fn push_asked_of_long(alloc: Global, text: &str, out: &mut String) -> Result<(), Fault> {
    push_asked(&in_turn(alloc, text)?, out)?;
    push_words("\n", out)
}

// Adds what a client sees as its next command, and what it takes.
fn push_taken(parts: &mut Parts, client: u32, out: &mut String) -> Result<(), Fault>
    requires { client < CLIENTS }
{
    push_filled(" / % sees ", &[client as u64], out)?;
    push_number_of(seen(parts, client), out)?;
    push_words(", takes ", out)?;
    push_number_of(taken(parts, client), out)
}

// The same of the client that a word spells.
fn push_taken_by(parts: &mut Parts, word: &str, out: &mut String) -> Result<(), Fault> {
    match small(word) {
        Ok(client) if client < CLIENTS => push_taken(parts, client, out),
        _ => Err(refuse("no client")),
    }
}

// Adds what these clients take, one after another.
fn push_all_taken(parts: &mut Parts, clients: &str, out: &mut String) -> Result<(), Fault> {
    push_filled("% commands", &[parts.left()], out)?;
    for client in clients.split(' ') {
        push_taken_by(parts, client, out)?;
    }
    push_left(parts, out)
}

/// `CLIENTS : SCRIPT`: these clients take their next commands, one after another.
pub(crate) fn push_takes(alloc: Global, text: &str, out: &mut String) -> Result<(), Fault> {
    let (clients, lines) = text.split_once(':').unwrap_or((text, ""));
    let script = spelled(alloc, lines.trim_start())?;
    match Parts::split(alloc, script) {
        Ok(mut parts) => push_all_taken(&mut parts, clients.trim_end(), out),
        Err(_) => Err(refuse("no memory")),
    }
}
