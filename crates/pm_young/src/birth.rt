//! Births: an object is young at first.

ghost use Rattle.std.specs.Prelude.{◌≡◌, ◌<◌, ◌≤◌, length, IfOk, OnOk, OnErr};
ghost use Rattle.std.specs.FinMap.{len};
ghost use Rattle.pm_types.specs.declared.command.Cmd.TheVariants.{New};
ghost use Rattle.pm_types.specs.declared.limits.TheConstants.{CLIENTS, END_ID, FIELDS, OBJECT_BYTES};
ghost use Rattle.pm_model.specs.Answer.{fresh};
ghost use Rattle.pm_nursery.specs.declared.limits.TheConstants.{YOUNG};
ghost use Rattle.pm_nursery.specs.Young.{no_nursery};
ghost use Rattle.pm_space.specs.Shown.{view, KeepsRest};
ghost use Rattle.pm_young.specs.Bringing.{MayYoungComeIn, StandsApart, SweepsIfFull, SweepsPart};
ghost use Rattle.pm_young.specs.Parts.{AnswersSpace, IsBornYoung, KeepsCars, LosesSpace};

use crate::escape::carry_reached;
use crate::setting::{Sets, leave_all};
use pm_mutate::spend;
use pm_nursery::{Nursery, Young};
use pm_space::Space;
use pm_types::{Bytes, END_ID, FIELDS, Id, NoMemory, OBJECT_BYTES, Reg, Reply};
use std::alloc::Global;

// An object is born young, under the next identity, and a register holds it.
fn give_birth<F: Drop>(
    space: &mut Space<F>,
    nursery: &mut Nursery,
    alloc: Global,
    client: u32,
    reg: Reg,
    count: u32,
    bytes: &[u8],
) -> Result<Id, NoMemory>
    requires client { client < CLIENTS }
    requires few { len nursery.old.objects < YOUNG }
    requires fields { count ≤ FIELDS }
    requires bytes { length bytes.now ≤ OBJECT_BYTES }
    requires left { (view space.old.parts).next < END_ID }
    requires may { MayYoungComeIn (view space.old.parts) nursery.old }
    ensures id { IfOk result (λ id. id ≡ (view space.old.parts).next) }
    ensures born { OnOk result (IsBornYoung client reg (fresh count bytes.now) (view space.old.parts)
        (view space.new.parts) nursery.old nursery.new) }
    ensures err { OnErr result (KeepsCars (view space.old.parts) (view space.new.parts)) }
    ensures rest { KeepsRest space.old.parts space.new.parts }
{
    let young = Young::new(alloc, count, bytes)?;
    let Some(id) = spend(space) else {
        unreachable!()
    };
    nursery.add(id, young)?;
    nursery.hold(client, reg.number(), id)?;
    leave_all(space, alloc, client, Sets::One(reg))?;
    Ok(id)
}

// Where there are as many young objects as can be, those that registers reach come into cars, and nothing is young.
fn sweep_if_full<F: Drop>(
    space: &mut Space<F>,
    nursery: &mut Nursery,
    alloc: Global,
    entered: &mut Vec<Id>,
) -> Result<(), NoMemory>
    requires may { MayYoungComeIn (view space.old.parts) nursery.old }
    requires stands { ∥ StandsApart (view space.old.parts) nursery.old ∥₁ }
    ensures ok { OnOk result (SweepsIfFull (view space.old.parts) nursery.old entered.old.items
        (view space.new.parts) nursery.new entered.new.items) }
    ensures part { OnErr result (SweepsPart (view space.old.parts) nursery.old entered.old.items
        (view space.new.parts) entered.new.items) }
    ensures rest { KeepsRest space.old.parts space.new.parts }
{
    if nursery.is_full() {
        carry_reached(space, alloc, nursery, entered)?;
        nursery.drop_all();
    }
    Ok(())
}

/// `new`: an object is born young, and the register holds it. Where there are 256 young objects already they are swept
/// first, unless it is refused.
pub(crate) fn bear<F: Drop>(
    space: &mut Space<F>,
    nursery: &mut Nursery,
    alloc: Global,
    entered: &mut Vec<Id>,
    client: u32,
    reg: Reg,
    count: u32,
    bytes: &Bytes,
) -> Result<Reply, NoMemory>
    requires client { client < CLIENTS }
    requires may { MayYoungComeIn (view space.old.parts) nursery.old }
    requires stands { ∥ StandsApart (view space.old.parts) nursery.old ∥₁ }
    ensures ok { IfOk result (AnswersSpace client (New reg count bytes.now) (view space.old.parts)
        (view space.new.parts) nursery.old nursery.new entered.old.items entered.new.items) }
    ensures err { OnErr result (LosesSpace client (New reg count bytes.now) (view space.old.parts)
        (view space.new.parts) nursery.old entered.old.items entered.new.items) }
    ensures rest { KeepsRest space.old.parts space.new.parts }
{
    nursery.sound();
    if count > FIELDS {
        return Ok(Reply::TooLarge);
    }
    if bytes.as_slice().len() > OBJECT_BYTES {
        return Ok(Reply::TooLarge);
    }
    if space.parts.next >= END_ID {
        return Ok(Reply::IdsSpent);
    }
    sweep_if_full(space, nursery, alloc, entered)?;
    let id = give_birth(space, nursery, alloc, client, reg, count, bytes.as_slice())?;
    Ok(Reply::Ident(id))
}
