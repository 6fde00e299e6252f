ghost use Rattle.std.specs.Prelude.{◌≡◌, ◌++◌, IfOk, OnOk};
ghost use Rattle.std.specs.List.{flat_map};
ghost use Rattle.pm_model.specs.Copying.{field_id};
ghost use Rattle.pm_nursery.specs.Escaping.{IsAscending};
ghost use Rattle.pm_nursery.specs.Walking.{AreMet, Meets, PushesHolders};

use crate::objects::Objects;
use pm_types::{Id, NoMemory};
use std::alloc::Global;
use std::collections::BTreeSet;

/// The young objects that are met on the way from those that are pending, ascending, each once: from an object the way
/// goes to each that it holds, and to each that stands beside it in the list of holders. Each is looked at once.
pub(crate) fn walk(
    alloc: Global,
    objects: &Objects,
    holders: &BTreeSet<(Id, Id)>,
    mut pending: Vec<Id>,
) -> Result<Vec<Id>, NoMemory>
    ensures ascending { IfOk result (λ ids. IsAscending ids.items) }
    ensures met { IfOk result (λ ids. AreMet objects.now holders.now pending.items ids.items) }
{
    let mut met = BTreeSet::new(alloc);
    while let Some(id) = pending.pop() {
        meet(objects, holders, id, &mut met, &mut pending)?;
    }
    let ids = met.into_iter().collect(alloc)?;
    Ok(ids)
}

// Looks at an identity: an object that is there and was not met is met, and what it holds and what holds it is pending.
fn meet(
    objects: &Objects,
    holders: &BTreeSet<(Id, Id)>,
    id: Id,
    met: &mut BTreeSet<Id>,
    pending: &mut Vec<Id>,
) -> Result<(), NoMemory>
    ensures { OnOk result (Meets objects.now holders.now id met.old pending.old.items met.new pending.new.items) }
{
    let Some(young) = objects.get(id) else {
        return Ok(());
    };
    if !met.insert(id)? {
        return Ok(());
    }
    push_held(young.fields(), pending)?;
    push_holders(holders, id, pending)
}

// Puts the identities that the fields name behind those of the list. After want of memory some may have been put there.
fn push_held(fields: &[Option<Id>], pending: &mut Vec<Id>) -> Result<(), NoMemory>
    ensures { OnOk result (pending.new.items ≡ pending.old.items ++ flat_map field_id fields.now) }
{
    for field in fields {
        if let Some(id) = field {
            pending.push(*id)?;
        }
    }
    Ok(())
}

// Puts the holders that stand beside the identity behind those of the list. After want of memory some may have been put
// there.
fn push_holders(holders: &BTreeSet<(Id, Id)>, id: Id, pending: &mut Vec<Id>) -> Result<(), NoMemory>
    ensures { OnOk result (PushesHolders holders.now id pending.old.items pending.new.items) }
{
    for (held, holder) in holders.range((id, 0)..) {
        if *held != id {
            return Ok(());
        }
        pending.push(*holder)?;
    }
    Ok(())
}
