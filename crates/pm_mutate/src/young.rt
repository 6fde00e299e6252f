//! Calls on a space for objects that come in late: `spend` gives an identity away, `admit` puts its object into a car
//! later, and `link` and `hold` let a field or a register store an address. No condition speaks of a world: what the
//! heap of a world has is a premise of what is said of it, since nobody knows every world that a space stands for.

ghost use Rattle.std.specs.Prelude.{◌≡◌, ◌<◌, Some, IfOk, OnOk, OnErr};
ghost use Rattle.pm_types.specs.declared.limits.TheConstants.{CLIENTS, REGISTERS};
ghost use Rattle.pm_types.specs.declared.source.RefSource.TheVariants.{Handle, Field};
ghost use Rattle.pm_view.specs.Law.{HeapLaw};
ghost use Rattle.pm_view.specs.Objects.{AddsObject, KeepsObjects};
ghost use Rattle.pm_view.specs.Reading.{SourceStands};
ghost use Rattle.pm_view.specs.Rows.{spread};
ghost use Rattle.pm_view.specs.Seen.{seen, IsLive};
ghost use Rattle.pm_space.specs.Shown.{view, KeepsRest};
ghost use Rattle.pm_mutate.specs.Commands.Births.{IsBornAt};
ghost use Rattle.pm_mutate.specs.Young.{row_spend, SpendsToo, MayBeAdmitted, admitted, AdmitsToo, LinksToo, HoldsToo};

use crate::births::{be_born, fresh};
use crate::commands::birth::hold_in_room;
use pm_law_collect::work::a_source_or_a_birth_leaves_the_slot_that_moved;
use pm_law_commands::row::a_source_is_set;
use pm_space::{Parts, Space, make_room, spread};
use pm_types::{Addr, END_ID, Id, NoMemory, RefSource};
use std::alloc::Global;

/// Gives the next identity away, for an object that may come in later. `None` exactly where none is left. It takes no
/// memory.
pub fn spend<F: Drop>(space: &mut Space<F>) -> Option<Id>
    ensures row { (result, view space.new.parts) ≡ row_spend (view space.old.parts) }
    ensures worlds { SpendsToo (view space.old.parts) result (view space.new.parts) }
    ensures objects { KeepsObjects (view space.old.parts) (view space.new.parts) }
    ensures rest { KeepsRest space.old.parts space.new.parts }
{
    a_source_or_a_birth_leaves_the_slot_that_moved();
    let next = space.parts.next;
    if next >= END_ID {
        return None;
    }
    space.quiet = 0;
    space.parts.next = next + 1;
    Some(next as Id)
}

/// An object comes in: it has this identity, which was given and which no place has, so many null fields, 255 at most,
/// and these bytes, 4,096 at most. It is born in the open train, in a new one where 1,024 objects were born in it. The
/// answer is its address. After want of memory all is as it was; it is answered too where the open train's number has
/// reached its bound, 2^62.
pub fn admit<F: Drop>(
    space: &mut Space<F>,
    alloc: Global,
    id: Id,
    count: u32,
    bytes: &[u8],
) -> Result<Addr, NoMemory>
    requires may { MayBeAdmitted (view space.old.parts) id count bytes.now }
    ensures row { IfOk result (λ place. IsBornAt (view space.old.parts) (admitted id count bytes.now)
        (place, view space.new.parts)) }
    ensures worlds { OnOk result (AdmitsToo (view space.old.parts) id count bytes.now (view space.new.parts)) }
    ensures objects { IfOk result (λ place. AddsObject (view space.old.parts) (view space.new.parts) id place) }
    ensures err { OnErr result (view space.new.parts ≡ view space.old.parts) }
    ensures rest { KeepsRest space.old.parts space.new.parts }
{
    a_source_or_a_birth_leaves_the_slot_that_moved();
    let object = fresh(alloc, id, count, bytes)?;
    space.quiet = 0;
    be_born(&mut space.parts, alloc, object)
}

/// A field of the object at an address stores the address of another one, or of the same; cars that hear of it have one
/// more change waiting. Both stand, and the field is there. After want of memory all is as it was.
pub fn link<F: Drop>(space: &mut Space<F>, at: Addr, index: u32, to: Addr) -> Result<(), NoMemory>
    requires stands { SourceStands (view space.old.parts) (Field at index) }
    requires live { IsLive (seen (view space.old.parts)) to }
    ensures row { OnOk result
        (view space.new.parts ≡ spread (view space.old.parts) (Field at index) (Some to)) }
    ensures worlds { OnOk result (LinksToo (view space.old.parts) at index to (view space.new.parts)) }
    ensures objects { KeepsObjects (view space.old.parts) (view space.new.parts) }
    ensures err { OnErr result (view space.new.parts ≡ view space.old.parts) }
    ensures rest { KeepsRest space.old.parts space.new.parts }
{
    a_source_is_set();
    a_source_or_a_birth_leaves_the_slot_that_moved();
    space.quiet = 0;
    spread(&mut space.parts, RefSource::Field { at, index }, Some(to))
}

// A register stores an address, once there is room for what the cars hear.
fn hold_with_room<F>(
    parts: &mut Parts<F>,
    client: u32,
    register: u32,
    at: Addr,
) -> Result<(), NoMemory>
    requires client { client < CLIENTS }
    requires register { register < REGISTERS }
    requires law { HeapLaw (view parts.old) }
    ensures ok { OnOk result (view parts.new ≡ spread (view parts.old) (Handle client register) (Some at)) }
    ensures err { OnErr result (view parts.new ≡ view parts.old) }
    ensures rest { KeepsRest parts.old parts.new }
{
    let old = parts.handles.get(client, register);
    make_room(&mut parts.links, old, Some(at))?;
    hold_in_room(parts, client, register, at);
    Ok(())
}

/// A register stores the address of an object that stands; cars that hear of it have one more change waiting. After
/// want of memory all is as it was.
pub fn hold<F: Drop>(
    space: &mut Space<F>,
    client: u32,
    register: u32,
    at: Addr,
) -> Result<(), NoMemory>
    requires client { client < CLIENTS }
    requires register { register < REGISTERS }
    requires live { IsLive (seen (view space.old.parts)) at }
    ensures row { OnOk result
        (view space.new.parts ≡ spread (view space.old.parts) (Handle client register) (Some at)) }
    ensures worlds { OnOk result (HoldsToo (view space.old.parts) client register at (view space.new.parts)) }
    ensures objects { KeepsObjects (view space.old.parts) (view space.new.parts) }
    ensures err { OnErr result (view space.new.parts ≡ view space.old.parts) }
    ensures rest { KeepsRest space.old.parts space.new.parts }
{
    a_source_is_set();
    a_source_or_a_birth_leaves_the_slot_that_moved();
    space.quiet = 0;
    hold_with_room(&mut space.parts, client, register, at)
}
