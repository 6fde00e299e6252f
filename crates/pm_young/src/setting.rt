//! The registers that a command sets, and how the nursery and the space let go of them.

ghost use Rattle.std.specs.Prelude.{◌≡◌, ◌<◌, ◌≢◌, OnOk};
ghost use Rattle.pm_types.specs.declared.limits.TheConstants.{CLIENTS};
ghost use Rattle.pm_view.specs.Objects.{KeepsObjects};
ghost use Rattle.pm_space.specs.Shown.{view, KeepsRest};
ghost use Rattle.pm_young.specs.Setting.{LeavesUnset, LeavesWithout, nursery_unset, nursery_without, refuses, sets_of};

use pm_mutate::act;
use pm_nursery::Nursery;
use pm_space::Space;
use pm_types::{Cmd, NoMemory, Reg, Reply};
use std::alloc::Global;

/// The registers of its client that a command sets or empties.
#[derive(Clone, Copy, Debug, PartialEq, Eq)]
pub(crate) enum Sets {
    Nothing,
    One(Reg),
    All,
}

// Those of a command.
fn set_by(cmd: &Cmd) -> Sets
    ensures { result ≡ sets_of cmd.now }
{
    match cmd {
        Cmd::New { reg, .. } | Cmd::Forget { reg } => Sets::One(*reg),
        Cmd::Load { to, .. } | Cmd::Copy { to, .. } | Cmd::Find { to, .. } => Sets::One(*to),
        Cmd::Close => Sets::All,
        _ => Sets::Nothing,
    }
}

// Whether a reply refuses every command but `swap`. `Null` answers `load`.
fn refuses(reply: &Reply) -> bool
    ensures { result ≡ refuses reply.now }
{
    match reply {
        Reply::Done
        | Reply::Ident(_)
        | Reply::Null
        | Reply::Shown(_)
        | Reply::Begun(_)
        | Reply::Saved(_)
        | Reply::Watching(_)
        | Reply::Dropped(_) => false,
        _ => true,
    }
}

// These registers of the client hold no young object any more.
fn forget_all(nursery: &mut Nursery, client: u32, sets: Sets)
    ensures { nursery.new ≡ nursery_without nursery.old sets client }
{
    match sets {
        Sets::Nothing => {}
        Sets::One(reg) => nursery.forget(client, reg.number()),
        Sets::All => nursery.close(client),
    }
}

/// These registers of the client are empty in the space, if they were not. After want of memory all is as it was.
pub(crate) fn leave_all<F: Drop>(
    space: &mut Space<F>,
    alloc: Global,
    client: u32,
    sets: Sets,
) -> Result<(), NoMemory>
    requires client { client < CLIENTS }
    ensures worlds { OnOk result (LeavesWithout (view space.old.parts) sets client (view space.new.parts)) }
    ensures objects { KeepsObjects (view space.old.parts) (view space.new.parts) }
    ensures next { (view space.new.parts).next ≡ (view space.old.parts).next }
    ensures rest { KeepsRest space.old.parts space.new.parts }
{
    match sets {
        Sets::Nothing => {}
        Sets::One(reg) => {
            act(space, alloc, client, &Cmd::Forget { reg })?;
        }
        Sets::All => {
            act(space, alloc, client, &Cmd::Close)?;
        }
    }
    Ok(())
}

/// The registers that a command sets hold no young object any more, unless the reply refuses it.
pub(crate) fn forget_set(nursery: &mut Nursery, client: u32, cmd: &Cmd, reply: &Reply)
    ensures { nursery.new ≡ nursery_unset nursery.old client cmd.now reply.now }
{
    if refuses(reply) {
        return;
    }
    forget_all(nursery, client, set_by(cmd));
}

/// The registers that a command sets are empty in the space, unless the reply refuses it.
pub(crate) fn leave_set<F: Drop>(
    space: &mut Space<F>,
    alloc: Global,
    client: u32,
    cmd: &Cmd,
    reply: &Reply,
) -> Result<(), NoMemory>
    requires client { client < CLIENTS }
    ensures worlds { OnOk result
        (LeavesUnset (view space.old.parts) client cmd.now reply.now (view space.new.parts)) }
    ensures objects { KeepsObjects (view space.old.parts) (view space.new.parts) }
    ensures next { (view space.new.parts).next ≡ (view space.old.parts).next }
    ensures rest { KeepsRest space.old.parts space.new.parts }
{
    if refuses(reply) {
        return Ok(());
    }
    leave_all(space, alloc, client, set_by(cmd))
}
