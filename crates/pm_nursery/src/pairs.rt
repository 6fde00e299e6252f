ghost use Rattle.std.specs.Prelude.{◌≡◌, ◌++◌, IfOk, OnOk};
ghost use Rattle.pm_nursery.specs.Walking.{AreHeldBy, held_by};

use crate::objects::Objects;
use pm_types::{Id, NoMemory};
use std::alloc::Global;
use std::collections::BTreeSet;

/// Each identity that a young field names, beside each young object that holds it: listed by one pass over the fields,
/// and sorted.
pub(crate) fn held_beside_holder(
    alloc: Global,
    objects: &Objects,
) -> Result<BTreeSet<(Id, Id)>, NoMemory>
    ensures { IfOk result (λ pairs. AreHeldBy objects.now pairs) }
{
    let young = objects.as_slice();
    let mut pairs = Vec::new(alloc);
    for (id, object) in young {
        push_pairs(*id, object.fields(), &mut pairs)?;
    }
    let sorted = pairs.into_iter().collect(alloc)?;
    Ok(sorted)
}

// Puts each identity that these fields of the object name, beside the object, behind the pairs of the list. After want
// of memory some of them may have been put there.
fn push_pairs(id: Id, fields: &[Option<Id>], pairs: &mut Vec<(Id, Id)>) -> Result<(), NoMemory>
    ensures { OnOk result (pairs.new.items ≡ pairs.old.items ++ held_by id fields.now) }
{
    for field in fields {
        if let Some(to) = field {
            pairs.push((*to, id))?;
        }
    }
    Ok(())
}
