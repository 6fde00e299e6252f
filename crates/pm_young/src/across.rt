//! `store` and `swap` whose registers lie on both sides.

ghost use Rattle.std.specs.Prelude.{◌≡◌, ◌<◌, IfOk, OnOk, OnErr, IsSome, None};
ghost use Rattle.std.specs.FinMap.{get};
ghost use Rattle.pm_types.specs.declared.command.Cmd.TheVariants.{Store, Swap};
ghost use Rattle.pm_types.specs.declared.limits.TheConstants.{CLIENTS};
ghost use Rattle.pm_view.specs.Objects.{KeepsObjects};
ghost use Rattle.pm_nursery.specs.Escaping.{SetsField};
ghost use Rattle.pm_space.specs.Shown.{view, KeepsRest};
ghost use Rattle.pm_young.specs.Bringing.{MayYoungComeIn, StandsApart};
ghost use Rattle.pm_young.specs.Parts.{AnswersSpace, IsAcceptedIn, IsJudgedIn, LosesSpace, StandsForSome, StoresToo};

use crate::escape::carry_joined;
use crate::reading::{field_here, held_here};
use pm_mutate::act;
use pm_nursery::Nursery;
use pm_space::Space;
use pm_types::{Cmd, Id, NoMemory, Reg, Reply};
use std::alloc::Global;

/// Why `store` is refused; `None` where it is not.
pub(crate) fn refusal_of_store<F: Drop>(
    space: &Space<F>,
    nursery: &Nursery,
    client: u32,
    reg: Reg,
    index: u32,
    value: Reg,
) -> Option<Reply>
    requires { client < CLIENTS }
    ensures { IsJudgedIn (view space.now.parts) nursery.now client (Store reg index value) reg index value result }
{
    nursery.sound();
    let Some(id) = held_here(space, nursery, client, reg) else {
        return Some(Reply::NoHandle);
    };
    let Some(_) = held_here(space, nursery, client, value) else {
        return Some(Reply::NoHandle);
    };
    match field_here(space, nursery, client, reg, id, index) {
        Some(_) => None,
        None => Some(Reply::NoField),
    }
}

/// Why `swap` is refused; `None` where it is not. Objects are compared by their identities, young or not.
pub(crate) fn refusal_of_swap<F: Drop>(
    space: &Space<F>,
    nursery: &Nursery,
    client: u32,
    reg: Reg,
    index: u32,
    old: Reg,
    value: Reg,
) -> Option<Reply>
    requires { client < CLIENTS }
    ensures { IsJudgedIn (view space.now.parts) nursery.now client (Swap reg index old value) reg index value result }
{
    nursery.sound();
    let Some(id) = held_here(space, nursery, client, reg) else {
        return Some(Reply::NoHandle);
    };
    let Some(wanted) = held_here(space, nursery, client, old) else {
        return Some(Reply::NoHandle);
    };
    let Some(_) = held_here(space, nursery, client, value) else {
        return Some(Reply::NoHandle);
    };
    match field_here(space, nursery, client, reg, id, index) {
        None => Some(Reply::NoField),
        Some(None) => Some(Reply::Null),
        Some(Some(found)) if found == wanted => None,
        Some(Some(found)) => Some(Reply::Held(found)),
    }
}

// A field within is set to an object within.
fn store_within<F: Drop>(
    space: &mut Space<F>,
    alloc: Global,
    client: u32,
    reg: Reg,
    index: u32,
    value: Reg,
) -> Result<(), NoMemory>
    requires client { client < CLIENTS }
    ensures worlds { OnOk result (StoresToo (view space.old.parts) client reg index value (view space.new.parts)) }
    ensures objects { KeepsObjects (view space.old.parts) (view space.new.parts) }
    ensures next { (view space.new.parts).next ≡ (view space.old.parts).next }
    ensures rest { KeepsRest space.old.parts space.new.parts }
{
    act(space, alloc, client, &Cmd::Store { reg, index, value })?;
    Ok(())
}

/// A field of a young object is set to an object within: the field is made null, what is joined to its object escapes,
/// and the field is set within. What the field held before does not count.
pub(crate) fn object_escapes<F: Drop>(
    space: &mut Space<F>,
    nursery: &mut Nursery,
    alloc: Global,
    entered: &mut Vec<Id>,
    client: u32,
    cmd: &Cmd,
    reg: Reg,
    index: u32,
    value: Reg,
) -> Result<Reply, NoMemory>
    requires client { client < CLIENTS }
    requires sets { SetsField cmd.now reg index value }
    requires accepted { IsAcceptedIn (view space.old.parts) nursery.old client cmd.now reg index value }
    requires young { IsSome (get nursery.old.registers (client, reg)) }
    requires old { get nursery.old.registers (client, value) ≡ None }
    requires may { MayYoungComeIn (view space.old.parts) nursery.old }
    requires stands { ∥ StandsForSome (view space.old.parts) nursery.old ∥₁ }
    ensures ok { IfOk result (AnswersSpace client cmd.now (view space.old.parts) (view space.new.parts) nursery.old
        nursery.new entered.old.items entered.new.items) }
    ensures err { OnErr result (LosesSpace client cmd.now (view space.old.parts) (view space.new.parts) nursery.old
        entered.old.items entered.new.items) }
    ensures rest { KeepsRest space.old.parts space.new.parts }
{
    nursery.sound();
    let Some(id) = nursery.held(client, reg.number()) else {
        unreachable!()
    };
    nursery.set_field(id, index as usize, None);
    carry_joined(space, alloc, nursery, id, entered)?;
    store_within(space, alloc, client, reg, index, value)?;
    Ok(Reply::Done)
}
