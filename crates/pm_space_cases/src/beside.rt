//! A space and the plain slow program beside it.

ghost use Rattle.std.specs.Prelude.{◌≡◌, ◌<◌, true};
ghost use Rattle.pm_types.specs.declared.limits.TheConstants.{CLIENTS};
ghost use Rattle.pm_place.specs.Choosers.{IsChooser};
ghost use Rattle.pm_view.specs.Commands.{is_act};

use crate::drawn::{command, next_draw};
use crate::scripted::is_refused;
use pm_case_text::{Fault, number, push_filled};
use pm_model::Oracle;
use pm_mutate::act;
use pm_space::Space;
use pm_types::{Cmd, Id, Reply};
use std::alloc::Global;

/// The plain slow program, and what was counted so far: how many replies of the space were others than its own, how many
/// commands were refused or met a null field, how many objects were looked at, how many events did something, and how
/// many objects moved. Beside them stands the identity that the space told last, 0 where its last reply told none.
#[derive(Drop)]
pub(crate) struct Beside {
    pub(crate) alloc: Global,
    pub(crate) oracle: Oracle,
    pub(crate) other: u64,
    pub(crate) refused: u64,
    pub(crate) seen: u64,
    pub(crate) events: u64,
    pub(crate) moved: u64,
    pub(crate) id: Id,
}

/// The plain slow program where nothing was ever made.
pub(crate) fn new_beside(alloc: Global) -> Beside {
    Beside {
        alloc,
        oracle: Oracle::new(alloc),
        other: 0,
        refused: 0,
        seen: 0,
        events: 0,
        moved: 0,
        id: 0,
    }
}

// The identity that a reply tells, or 0.
fn identity(reply: &Reply) -> Id {
    match reply {
        Reply::Ident(id) => *id,
        _ => 0,
    }
}

// Takes note of what two replies to a command tell.
fn note(beside: &mut Beside, reply: &Reply, other: &Reply) {
    beside.id = identity(reply);
    if *reply != *other {
        beside.other = beside.other.saturating_add(1);
    }
    if is_refused(reply) {
        beside.refused = beside.refused.saturating_add(1);
    }
}

// The reply of the plain slow program, which is compared with that of the space.
fn compare(beside: &mut Beside, client: u32, cmd: &Cmd, reply: &Reply) -> Result<(), Fault>
    requires client { client < CLIENTS }
{
    let other = beside.oracle.answer(beside.alloc, client, cmd)?;
    note(beside, reply, &other);
    Ok(())
}

/// Gives a command that is lent to both.
pub(crate) fn ask<F: Fn(&[u64]) -> usize + Drop>(
    space: &mut Space<F>,
    beside: &mut Beside,
    client: u32,
    cmd: &Cmd,
) -> Result<(), Fault>
    requires client { client < CLIENTS }
    requires act { is_act cmd.now ≡ true }
    requires chooser { IsChooser F.Fn space.old.parts.place }
    ensures { IsChooser F.Fn space.new.parts.place }
{
    let reply = act(space, beside.alloc, client, cmd)?;
    compare(beside, client, cmd, &reply)
}

/// Gives a command to both.
pub(crate) fn tell<F: Fn(&[u64]) -> usize + Drop>(
    space: &mut Space<F>,
    beside: &mut Beside,
    client: u32,
    cmd: Cmd,
) -> Result<(), Fault>
    requires client { client < CLIENTS }
    requires act { is_act cmd ≡ true }
    requires chooser { IsChooser F.Fn space.old.parts.place }
    ensures { IsChooser F.Fn space.new.parts.place }
{
    ask(space, beside, client, &cmd)
}

/// Gives the command of a draw to both.
pub(crate) fn tell_drawn<F: Fn(&[u64]) -> usize + Drop>(
    space: &mut Space<F>,
    beside: &mut Beside,
    draw: u32,
    size: u32,
) -> Result<(), Fault>
    requires chooser { IsChooser F.Fn space.old.parts.place }
    ensures { IsChooser F.Fn space.new.parts.place }
{
    match command(beside.alloc, draw, size) {
        Ok(cmd) => tell(space, beside, (draw >> 27) % 2, cmd),
        Err(fault) => Err(fault),
    }
}

// Gives so many commands that are drawn to both.
fn tell_all<F: Fn(&[u64]) -> usize + Drop>(
    space: &mut Space<F>,
    beside: &mut Beside,
    commands: u64,
) -> Result<(), Fault>
    requires chooser { IsChooser F.Fn space.old.parts.place }
{
    let mut draw = 1;
    for _ in 0..commands {
        draw = next_draw(draw);
        tell_drawn(space, beside, draw, 1)?;
    }
    Ok(())
}

/// `N`: N commands that are drawn, over a new space and beside the plain slow program: how many are answered alike, how
/// many are refused or meet a null field, and how many objects stand then.
pub(crate) fn push_drawn<F: Fn(&[u64]) -> usize + Drop>(
    space: &mut Space<F>,
    beside: &mut Beside,
    text: &str,
    out: &mut String,
) -> Result<(), Fault>
    requires chooser { IsChooser F.Fn space.old.parts.place }
{
    let commands = number(text)?;
    tell_all(space, beside, commands)?;
    push_filled(
        "alike % of %, refused %, standing %\n",
        &[
            commands.saturating_sub(beside.other),
            commands,
            beside.refused,
            space.standing(),
        ],
        out,
    )
}
