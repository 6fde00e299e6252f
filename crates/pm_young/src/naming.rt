//! Names that are bound to young objects.

ghost use Rattle.std.specs.Prelude.{◌≡◌, ◌<◌, not, ◌&&◌, nat_le, is_some, IfOk, OnErr, IsSome};
ghost use Rattle.std.specs.FinMap.{get, len};
ghost use Rattle.pm_types.specs.declared.command.Cmd.TheVariants.{Bind};
ghost use Rattle.pm_types.specs.declared.limits.TheConstants.{CLIENTS, ROOTS};
ghost use Rattle.pm_space.specs.Shown.{view, KeepsRest};
ghost use Rattle.pm_young.specs.Bringing.{MayYoungComeIn, StandsApart};
ghost use Rattle.pm_young.specs.Parts.{AnswersSpace, LosesSpace};

use crate::within::answer_after_escape;
use pm_nursery::Nursery;
use pm_space::Space;
use pm_types::{Cmd, Id, Name, NoMemory, ROOTS, Reg, Reply};
use std::alloc::Global;

// Whether a name is not bound, and as many are as can be.
fn has_no_room<F: Drop>(space: &Space<F>, name: &Name) -> bool
    ensures { result ≡ (not (is_some (get (view space.now.parts).roots name.now))
        && nat_le ROOTS (len (view space.now.parts).roots)) }
{
    space.parts.roots.find(name).is_none() && space.parts.roots.len() >= ROOTS as u64
}

/// `root` of a young object: unless it is refused, what is joined to the object escapes, and the name is bound to it.
pub(crate) fn bind_young<F: Drop>(
    space: &mut Space<F>,
    nursery: &mut Nursery,
    alloc: Global,
    entered: &mut Vec<Id>,
    client: u32,
    cmd: &Cmd,
    name: &Name,
    reg: Reg,
) -> Result<Reply, NoMemory>
    requires client { client < CLIENTS }
    requires bind { cmd.now ≡ Bind name.now reg }
    requires young { IsSome (get nursery.old.registers (client, reg)) }
    requires may { MayYoungComeIn (view space.old.parts) nursery.old }
    requires stands { ∥ StandsApart (view space.old.parts) nursery.old ∥₁ }
    ensures ok { IfOk result (AnswersSpace client cmd.now (view space.old.parts) (view space.new.parts) nursery.old
        nursery.new entered.old.items entered.new.items) }
    ensures err { OnErr result (LosesSpace client cmd.now (view space.old.parts) (view space.new.parts) nursery.old
        entered.old.items entered.new.items) }
    ensures rest { KeepsRest space.old.parts space.new.parts }
{
    nursery.sound();
    if has_no_room(space, name) {
        return Ok(Reply::TooManyRoots);
    }
    let Some(id) = nursery.held(client, reg.number()) else {
        unreachable!()
    };
    answer_after_escape(space, nursery, alloc, entered, client, cmd, id)
}
