ghost use Rattle.std.specs.Prelude.{◌≡◌, ◌≤◌, ◌<◌, true, replicate, length, None, IfOk};
ghost use Rattle.std.specs.FinMap.{get};
ghost use Rattle.pm_types.specs.declared.limits.TheConstants.{FIELDS, OBJECT_BYTES};
ghost use Rattle.pm_trains.specs.declared.trains.TheConstants.{BIRTHS};
ghost use Rattle.pm_cars.specs.Cars.{object_room};
ghost use Rattle.pm_snap.specs.Snapped.{is_ready};
ghost use Rattle.pm_view.specs.Law.{HeapLaw};
ghost use Rattle.pm_view.specs.Rows.{next_of};
ghost use Rattle.pm_space.specs.Linked.{sets_of, AreHoused, HasRoom, KeepsRoom};
ghost use Rattle.pm_space.specs.Places.{FitsIn};
ghost use Rattle.pm_space.specs.Shown.{view, HasBirthRoom, KeepsRest, MakesRow};
ghost use Rattle.pm_mutate.specs.Commands.Births.{with_one_born, IsBornAt};

use crate::births::placing::place_for;
use pm_space::{Parts, put_into, room_of};
use pm_types::{Addr, Bytes, Fields, Id, NoMemory, Object};
use std::alloc::Global;

/// An object of so many null fields and these bytes, which are copied.
pub fn fresh(alloc: Global, id: Id, count: u32, bytes: &[u8]) -> Result<Object, NoMemory>
    ensures { IfOk result (λ object. object ≡ record { id = id; fields = replicate count None; bytes = bytes.now }) }
{
    let fields = vec![in alloc; None; count as usize]?;
    let bytes = bytes.to_vec(alloc)?;
    Ok(Object {
        id,
        fields: Fields::from_vec(fields),
        bytes: Bytes::from_vec(bytes),
    })
}

// An object is born in a car that is prepared for it, and is counted. It answers where.
fn bear<F>(parts: &mut Parts<F>, car: u64, object: Object) -> Addr
    requires ready { is_ready parts.old.cars car ≡ true }
    requires birth { HasBirthRoom parts.old.cars car }
    requires fits { FitsIn (view parts.old).cars car (object_room object) }
    requires births { parts.old.trains.births < BIRTHS }
    ensures view { view parts.new ≡ with_one_born (view parts.old) car object }
    ensures place { result ≡ record { car = car; slot = next_of (get (view parts.old).cars car) } }
    ensures links { parts.new.links ≡ parts.old.links }
    ensures rest { KeepsRest parts.old parts.new }
{
    let slot = put_into(&mut parts.cars, car, object);
    parts.trains.born();
    Addr { car, slot }
}

/// An object is born in the open train, in a new one where 1,024 objects were born in it, and is counted. It answers
/// where. The queue of its car has room for a change then. After want of memory all is as it was; it is answered too
/// where the open train's number has reached its bound, 2^62.
pub fn be_born<F>(parts: &mut Parts<F>, alloc: Global, object: Object) -> Result<Addr, NoMemory>
    requires law { HeapLaw (view parts.old) }
    requires fields { length object.fields ≤ FIELDS }
    requires bytes { length object.bytes ≤ OBJECT_BYTES }
    ensures row { MakesRow parts.old parts.new result
        (λ place. IsBornAt (view parts.old) object (place, view parts.new)) }
    ensures room { IfOk result (λ place. HasRoom parts.new.links place.car 1) }
    ensures kept { KeepsRoom parts.old.links parts.new.links }
    ensures housed { AreHoused (sets_of parts.new.links) parts.new.trains.trains }
{
    let room = room_of(&object);
    let car = place_for(parts, alloc, room)?;
    Ok(bear(parts, car, object))
}
