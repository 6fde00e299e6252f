//! Commands on the space or the nursery: which part answers each.

ghost use Rattle.std.specs.Prelude.{◌≡◌, ◌<◌, true, false, IfOk, OnErr};
ghost use Rattle.pm_types.specs.declared.command.Cmd.TheVariants.{Store, Swap};
ghost use Rattle.pm_types.specs.declared.limits.TheConstants.{CLIENTS};
ghost use Rattle.pm_view.specs.Commands.{is_act};
ghost use Rattle.pm_space.specs.Shown.{view, KeepsRest};
ghost use Rattle.pm_engine.specs.Works.Working.{view_in};
ghost use Rattle.pm_young.specs.Bringing.{MayYoungComeIn};
ghost use Rattle.pm_young.specs.Parts.{AnswersParts, AnswersSpace, KeepsStored, LosesParts, LosesSpace};
ghost use Rattle.pm_young.specs.Parts.{StandsForSome};
ghost use Rattle.pm_young.specs.Sides.{side_of};
ghost use Rattle.pm_young.specs.Setting.{ReadsYoung};
ghost use Rattle.pm_young.specs.declared.sides.Side.TheVariants.{Both, Young};
ghost use Rattle.pm_model.specs.Frames.{makes_object};

use crate::across::{object_escapes, refusal_of_store, refusal_of_swap};
use crate::birth::bear;
use crate::naming::bind_young;
use crate::sides::{Side, side_of};
use crate::within::{answer_after_escape, answer_within};
use crate::young::answer_young;
use pm_disk::Disk;
use pm_engine::works::Works;
use pm_nursery::Nursery;
use pm_space::Space;
use pm_types::{Cmd, Id, NoMemory, Reg, Reply};
use std::alloc::Global;

// `store` whose registers lie on both sides.
fn store_across<F: Drop>(
    space: &mut Space<F>,
    nursery: &mut Nursery,
    alloc: Global,
    entered: &mut Vec<Id>,
    client: u32,
    cmd: &Cmd,
    reg: Reg,
    index: u32,
    value: Reg,
) -> Result<Reply, NoMemory>
    requires client { client < CLIENTS }
    requires store { cmd.now ≡ Store reg index value }
    requires both { side_of nursery.old client (Store reg index value) ≡ Both }
    requires may { MayYoungComeIn (view space.old.parts) nursery.old }
    requires stands { ∥ StandsForSome (view space.old.parts) nursery.old ∥₁ }
    ensures ok { IfOk result (AnswersSpace client cmd.now (view space.old.parts) (view space.new.parts) nursery.old
        nursery.new entered.old.items entered.new.items) }
    ensures err { OnErr result (LosesSpace client cmd.now (view space.old.parts) (view space.new.parts) nursery.old
        entered.old.items entered.new.items) }
    ensures rest { KeepsRest space.old.parts space.new.parts }
{
    nursery.sound();
    match refusal_of_store(space, nursery, client, reg, index, value) {
        Some(reply) => Ok(reply),
        None => match nursery.held(client, value.number()) {
            Some(id) => answer_after_escape(space, nursery, alloc, entered, client, cmd, id),
            None => object_escapes(
                space, nursery, alloc, entered, client, cmd, reg, index, value,
            ),
        },
    }
}

// `swap` whose registers lie on both sides.
fn swap_across<F: Drop>(
    space: &mut Space<F>,
    nursery: &mut Nursery,
    alloc: Global,
    entered: &mut Vec<Id>,
    client: u32,
    cmd: &Cmd,
    reg: Reg,
    index: u32,
    old: Reg,
    value: Reg,
) -> Result<Reply, NoMemory>
    requires client { client < CLIENTS }
    requires swap { cmd.now ≡ Swap reg index old value }
    requires both { side_of nursery.old client (Swap reg index old value) ≡ Both }
    requires may { MayYoungComeIn (view space.old.parts) nursery.old }
    requires stands { ∥ StandsForSome (view space.old.parts) nursery.old ∥₁ }
    ensures ok { IfOk result (AnswersSpace client cmd.now (view space.old.parts) (view space.new.parts) nursery.old
        nursery.new entered.old.items entered.new.items) }
    ensures err { OnErr result (LosesSpace client cmd.now (view space.old.parts) (view space.new.parts) nursery.old
        entered.old.items entered.new.items) }
    ensures rest { KeepsRest space.old.parts space.new.parts }
{
    nursery.sound();
    match refusal_of_swap(space, nursery, client, reg, index, old, value) {
        Some(reply) => Ok(reply),
        None => match nursery.held(client, value.number()) {
            Some(id) => answer_after_escape(space, nursery, alloc, entered, client, cmd, id),
            None => object_escapes(
                space, nursery, alloc, entered, client, cmd, reg, index, value,
            ),
        },
    }
}

// A command whose registers lie on both sides.
fn answer_across<F: Drop>(
    space: &mut Space<F>,
    nursery: &mut Nursery,
    alloc: Global,
    entered: &mut Vec<Id>,
    client: u32,
    cmd: &Cmd,
) -> Result<Reply, NoMemory>
    requires client { client < CLIENTS }
    requires both { side_of nursery.old client cmd.now ≡ Both }
    requires may { MayYoungComeIn (view space.old.parts) nursery.old }
    requires stands { ∥ StandsForSome (view space.old.parts) nursery.old ∥₁ }
    ensures ok { IfOk result (AnswersSpace client cmd.now (view space.old.parts) (view space.new.parts) nursery.old
        nursery.new entered.old.items entered.new.items) }
    ensures err { OnErr result (LosesSpace client cmd.now (view space.old.parts) (view space.new.parts) nursery.old
        entered.old.items entered.new.items) }
    ensures rest { KeepsRest space.old.parts space.new.parts }
{
    match cmd {
        Cmd::Store { reg, index, value } => store_across(
            space, nursery, alloc, entered, client, cmd, *reg, *index, *value,
        ),
        Cmd::Swap {
            reg,
            index,
            old,
            value,
        } => swap_across(
            space, nursery, alloc, entered, client, cmd, *reg, *index, *old, *value,
        ),
        _ => unreachable!(),
    }
}

// A command whose registers all hold young objects.
fn answer_of_young<F: Drop>(
    space: &mut Space<F>,
    nursery: &mut Nursery,
    alloc: Global,
    entered: &mut Vec<Id>,
    client: u32,
    cmd: &Cmd,
) -> Result<Reply, NoMemory>
    requires client { client < CLIENTS }
    requires young { side_of nursery.old client cmd.now ≡ Young }
    requires reads { ReadsYoung nursery.old client cmd.now }
    requires may { MayYoungComeIn (view space.old.parts) nursery.old }
    requires stands { ∥ StandsForSome (view space.old.parts) nursery.old ∥₁ }
    ensures ok { IfOk result (AnswersSpace client cmd.now (view space.old.parts) (view space.new.parts) nursery.old
        nursery.new entered.old.items entered.new.items) }
    ensures err { OnErr result (LosesSpace client cmd.now (view space.old.parts) (view space.new.parts) nursery.old
        entered.old.items entered.new.items) }
    ensures rest { KeepsRest space.old.parts space.new.parts }
{
    match cmd {
        Cmd::Bind { name, reg } => {
            bind_young(space, nursery, alloc, entered, client, cmd, name, *reg)
        }
        _ => answer_young(space, nursery, alloc, client, cmd),
    }
}

// A command that makes no object: the part that answers it is the one on which its registers lie.
fn answer_by_side<F: Drop>(
    space: &mut Space<F>,
    nursery: &mut Nursery,
    alloc: Global,
    entered: &mut Vec<Id>,
    client: u32,
    cmd: &Cmd,
) -> Result<Reply, NoMemory>
    requires client { client < CLIENTS }
    requires act { is_act cmd.now ≡ true }
    requires no_birth { makes_object cmd.now ≡ false }
    requires may { MayYoungComeIn (view space.old.parts) nursery.old }
    requires stands { ∥ StandsForSome (view space.old.parts) nursery.old ∥₁ }
    ensures ok { IfOk result (AnswersSpace client cmd.now (view space.old.parts) (view space.new.parts) nursery.old
        nursery.new entered.old.items entered.new.items) }
    ensures err { OnErr result (LosesSpace client cmd.now (view space.old.parts) (view space.new.parts) nursery.old
        entered.old.items entered.new.items) }
    ensures rest { KeepsRest space.old.parts space.new.parts }
{
    match side_of(nursery, client, cmd) {
        Side::Within => answer_within(space, nursery, alloc, client, cmd),
        Side::Young => answer_of_young(space, nursery, alloc, entered, client, cmd),
        Side::Both => answer_across(space, nursery, alloc, entered, client, cmd),
    }
}

// A command on the space or the nursery.
fn serve<F: Drop>(
    space: &mut Space<F>,
    nursery: &mut Nursery,
    alloc: Global,
    entered: &mut Vec<Id>,
    client: u32,
    cmd: &Cmd,
) -> Result<Reply, NoMemory>
    requires client { client < CLIENTS }
    requires act { is_act cmd.now ≡ true }
    requires may { MayYoungComeIn (view space.old.parts) nursery.old }
    requires stands { ∥ StandsForSome (view space.old.parts) nursery.old ∥₁ }
    ensures ok { IfOk result (AnswersSpace client cmd.now (view space.old.parts) (view space.new.parts) nursery.old
        nursery.new entered.old.items entered.new.items) }
    ensures err { OnErr result (LosesSpace client cmd.now (view space.old.parts) (view space.new.parts) nursery.old
        entered.old.items entered.new.items) }
    ensures rest { KeepsRest space.old.parts space.new.parts }
{
    match cmd {
        Cmd::New { reg, count, bytes } => {
            bear(space, nursery, alloc, entered, client, *reg, *count, bytes)
        }
        _ => answer_by_side(space, nursery, alloc, entered, client, cmd),
    }
}

/// A command on the space or the nursery, and its entry, for which room is taken first. After want of memory no entry is
/// added.
pub(crate) fn answer<D: Disk, F: Drop>(
    works: &mut Works<D, F>,
    nursery: &mut Nursery,
    alloc: Global,
    entered: &mut Vec<Id>,
    client: u32,
    cmd: Cmd,
) -> Result<Reply, NoMemory>
    requires client { client < CLIENTS }
    requires act { is_act cmd ≡ true }
    requires may { MayYoungComeIn (view_in works.old) nursery.old }
    requires stands { ∥ StandsForSome (view_in works.old) nursery.old ∥₁ }
    ensures ok { IfOk result (AnswersParts client cmd works.old works.new nursery.old nursery.new entered.old.items
        entered.new.items) }
    ensures err { OnErr result (LosesParts client cmd works.old works.new nursery.old entered.old.items
        entered.new.items) }
    ensures kept { KeepsStored works.old works.new }
{
    works.journal.reserve(1)?;
    let reply = serve(&mut works.space, nursery, alloc, entered, client, &cmd)?;
    let told = reply.copy(alloc)?;
    works.append(client, cmd, told);
    Ok(reply)
}
