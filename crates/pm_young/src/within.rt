//! Commands that the space answers: each register that they read is empty in the nursery.

ghost use Rattle.std.specs.Prelude.{◌≡◌, ◌<◌, true, false, IfOk, OnErr, IsSome};
ghost use Rattle.std.specs.FinMap.{get};
ghost use Rattle.pm_types.specs.declared.limits.TheConstants.{CLIENTS};
ghost use Rattle.pm_model.specs.Frames.{makes_object};
ghost use Rattle.pm_view.specs.Commands.{is_act};
ghost use Rattle.pm_space.specs.Shown.{view, KeepsRest};
ghost use Rattle.pm_young.specs.Bringing.{MayYoungComeIn, StandsApart};
ghost use Rattle.pm_young.specs.Parts.{AnswersSpace, AnswersStill, LetsJoinedEscape, LosesSpace, LosesStill, ReadsNoneBut};
ghost use Rattle.pm_young.specs.Setting.{ReadsNone};

use crate::escape::carry_joined;
use crate::setting::forget_set;
use pm_mutate::act;
use pm_nursery::Nursery;
use pm_space::Space;
use pm_types::{Cmd, Id, NoMemory, Reply};
use std::alloc::Global;

/// A command that the space answers. The registers that it sets are not the nursery's any more, unless it was refused.
pub(crate) fn answer_within<F: Drop>(
    space: &mut Space<F>,
    nursery: &mut Nursery,
    alloc: Global,
    client: u32,
    cmd: &Cmd,
) -> Result<Reply, NoMemory>
    requires client { client < CLIENTS }
    requires act { is_act cmd.now ≡ true }
    requires no_birth { makes_object cmd.now ≡ false }
    requires reads { ReadsNone nursery.old client cmd.now }
    ensures ok { IfOk result (AnswersStill client cmd.now (view space.old.parts) (view space.new.parts) nursery.old
        nursery.new) }
    ensures err { OnErr result (LosesStill client cmd.now (view space.old.parts) (view space.new.parts) nursery.old) }
    ensures rest { KeepsRest space.old.parts space.new.parts }
{
    let reply = act(space, alloc, client, cmd)?;
    forget_set(nursery, client, cmd, &reply);
    Ok(reply)
}

/// What is joined to a young object escapes; then each register that the command reads is empty in the nursery, and the
/// space answers it.
pub(crate) fn answer_after_escape<F: Drop>(
    space: &mut Space<F>,
    nursery: &mut Nursery,
    alloc: Global,
    entered: &mut Vec<Id>,
    client: u32,
    cmd: &Cmd,
    id: Id,
) -> Result<Reply, NoMemory>
    requires client { client < CLIENTS }
    requires act { is_act cmd.now ≡ true }
    requires no_birth { makes_object cmd.now ≡ false }
    requires young { IsSome (get nursery.old.objects id) }
    requires reads { ReadsNoneBut nursery.old client cmd.now id }
    requires lets { LetsJoinedEscape (view space.old.parts) nursery.old client cmd.now id }
    requires may { MayYoungComeIn (view space.old.parts) nursery.old }
    requires stands { ∥ StandsApart (view space.old.parts) nursery.old ∥₁ }
    ensures ok { IfOk result (AnswersSpace client cmd.now (view space.old.parts) (view space.new.parts) nursery.old
        nursery.new entered.old.items entered.new.items) }
    ensures err { OnErr result (LosesSpace client cmd.now (view space.old.parts) (view space.new.parts) nursery.old
        entered.old.items entered.new.items) }
    ensures rest { KeepsRest space.old.parts space.new.parts }
{
    nursery.sound();
    carry_joined(space, alloc, nursery, id, entered)?;
    answer_within(space, nursery, alloc, client, cmd)
}
