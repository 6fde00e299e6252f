//! Commands that the young objects answer: each register that they read is the nursery's.

ghost use Rattle.std.specs.Prelude.{◌≡◌, ◌<◌, true, IfOk, OnErr};
ghost use Rattle.pm_types.specs.declared.limits.TheConstants.{CLIENTS};
ghost use Rattle.pm_space.specs.Shown.{view, KeepsRest};
ghost use Rattle.pm_young.specs.Alone.{is_of_registers};
ghost use Rattle.pm_young.specs.Parts.{AnswersStill, LosesStill};
ghost use Rattle.pm_young.specs.Setting.{ReadsYoung};

use crate::alone::answer_alone;
use crate::setting::leave_set;
use pm_nursery::Nursery;
use pm_space::Space;
use pm_types::{Cmd, NoMemory, Reply};
use std::alloc::Global;

/// A command of registers and objects that the young ones answer. The registers that it sets are empty in the space,
/// unless it was refused.
pub(crate) fn answer_young<F: Drop>(
    space: &mut Space<F>,
    nursery: &mut Nursery,
    alloc: Global,
    client: u32,
    cmd: &Cmd,
) -> Result<Reply, NoMemory>
    requires client { client < CLIENTS }
    requires registers { is_of_registers cmd.now ≡ true }
    requires reads { ReadsYoung nursery.old client cmd.now }
    ensures ok { IfOk result (AnswersStill client cmd.now (view space.old.parts) (view space.new.parts) nursery.old
        nursery.new) }
    ensures err { OnErr result (LosesStill client cmd.now (view space.old.parts) (view space.new.parts) nursery.old) }
    ensures rest { KeepsRest space.old.parts space.new.parts }
{
    nursery.sound();
    let reply = answer_alone(nursery, alloc, client, cmd)?;
    leave_set(space, alloc, client, cmd, &reply)?;
    Ok(reply)
}
