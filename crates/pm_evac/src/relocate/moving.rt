ghost use Rattle.std.specs.Prelude.{◌≡◌, ℕ, ◌==◌, true, false, ◌+◌, Some, IsSome, IfOk, OnOk, OnErr, option_map};
ghost use Rattle.pm_types.specs.declared.object.Object.{Object};
ghost use Rattle.pm_snap.specs.Snapped.{is_ready};
ghost use Rattle.pm_trains.specs.Trains.{cars_at, tail};
ghost use Rattle.pm_view.specs.declared.phase.Phase.TheVariants.{Moving};
ghost use Rattle.pm_view.specs.Law.{HeapLaw};
ghost use Rattle.pm_view.specs.Reading.{object_at};
ghost use Rattle.pm_view.specs.Sources.{same_address};
ghost use Rattle.pm_space.specs.Linked.{sets_of, queues_of, AreHoused, HasRoom};
ghost use Rattle.pm_space.specs.Shown.{view, cars_of, HasBirthRoom, KeepsRest};
ghost use Rattle.pm_evac.specs.Relocate.Changed.{identity};
ghost use Rattle.pm_evac.specs.Relocate.Named.{named_by, naming};
ghost use Rattle.pm_evac.specs.Relocate.Moves.{led, led_fields, MayGo, IsCarried, IsMovedTo};
ghost use Rattle.pm_evac.specs.Relocate.Planned.{IsPlan};

use crate::relocate::placing::{place_in, prepare_place, take_away};
use crate::relocate::rooms::make_room_for_named;
use crate::relocate::telling::tell_moved;
use pm_snap::Table;
use pm_space::{
    Held, LinkTable, Parts, make_ready, object_at, put_into, resolve, room_of, tail_for,
};
use pm_types::{Addr, Fields, Id, NoMemory, Object};
use std::alloc::Global;

// What moves an object: where it goes, the tail in which it fits, where it fits one, and what its fields store there.
#[derive(Drop)]
pub struct Plan {
    to: Addr,
    tail: Option<u64>,
    fields: Vec<Option<Addr>>,
}

// Whether two addresses are one.
fn is_same(one: Addr, other: Addr) -> bool
    ensures { result ≡ same_address one other }
{
    one.car == other.car && one.slot == other.slot
}

// Where a field leads once the object at the first address is at the second.
fn led(cars: &Table<Held>, from: Addr, to: Addr, field: Option<Addr>) -> Option<Addr>
    ensures { result ≡ option_map (led (cars_of cars.now) from to) field }
{
    let at = field?;
    if is_same(from, at) {
        return Some(to);
    }
    Some(resolve(cars, at))
}

// Where the fields of an object lead once the object at the first address is at the second.
fn led_fields(
    cars: &Table<Held>,
    alloc: Global,
    from: Addr,
    to: Addr,
    fields: &[Option<Addr>],
) -> Result<Vec<Option<Addr>>, NoMemory>
    ensures { IfOk result (λ led. led.items ≡ led_fields (cars_of cars.now) from to fields.now) }
{
    let mut there = Vec::with_capacity(alloc, fields.len())?;
    for field in fields {
        there.push(led(cars, from, to, *field))?;
    }
    Ok(there)
}

// Plans how the object at an address goes to a train.
fn plan_of<F>(parts: &Parts<F>, alloc: Global, from: Addr, train: u64) -> Result<Plan, NoMemory>
    requires law { HeapLaw (view parts.now) }
    requires live { IsSome (object_at (view parts.now).cars from) }
    ensures { IfOk result (λ plan. IsPlan (view parts.now) from train plan) }
{
    let number = parts.cars.vacant();
    let Some(object) = object_at(&parts.cars, from) else {
        // The caller shows that an object lies here.
        unreachable!()
    };
    let tail = tail_for(parts, train, room_of(object));
    let to = place_in(&parts.cars, tail, number);
    let fields = led_fields(&parts.cars, alloc, from, to, object.fields.as_slice())?;
    Ok(Plan { to, tail, fields })
}

// Makes room in queues for what is told where the object at an address goes to another, and stores these fields there.
// It answers how many of its fields and of these name a car.
fn make_room_to_move(
    links: &mut LinkTable,
    alloc: Global,
    cars: &Table<Held>,
    from: Addr,
    fields: &[Option<Addr>],
) -> Result<u64, NoMemory>
    requires live { IsSome (object_at (cars_of cars.now) from) }
    ensures sets { sets_of links.new ≡ sets_of links.old }
    ensures queues { queues_of links.new ≡ queues_of links.old }
    ensures room { OnOk result ((object : Object) → object_at (cars_of cars.now) from ≡ Some object
        → (car : ℕ) → HasRoom links.new car (named_by object.fields car + named_by fields.now car)) }
    ensures many { IfOk result (λ many. (object : Object) → object_at (cars_of cars.now) from ≡ Some object
        → many ≡ naming object.fields + naming fields.now) }
{
    let Some(object) = object_at(cars, from) else {
        // The caller shows that an object lies here.
        unreachable!()
    };
    let many = make_room_for_named(links, alloc, object.fields.as_slice(), fields)?;
    Ok(many)
}

// The object at an address goes to another car, which is prepared, and stores these fields there; its slot says where
// it went, and the cars hear of the fields. It answers the object's identity.
fn carry<F>(parts: &mut Parts<F>, from: Addr, to: Addr, fields: Vec<Option<Addr>>) -> Id
    requires housed { AreHoused (sets_of parts.old.links) parts.old.trains.trains }
    requires from { is_ready parts.old.cars from.car ≡ true }
    requires ready { is_ready parts.old.cars to.car ≡ true }
    requires birth { HasBirthRoom parts.old.cars to.car }
    requires apart { (from.car == to.car) ≡ false }
    requires may { MayGo (view parts.old) parts.old.links from to fields.items }
    ensures view { IsCarried (view parts.old) (view parts.new) from to fields.items }
    ensures id { result ≡ identity (view parts.old) from }
    ensures rest { KeepsRest parts.old parts.new }
{
    let object = take_away(&mut parts.cars, from, to);
    tell_moved(
        &mut parts.links,
        &parts.trains,
        parts.phase,
        from,
        to,
        object.fields.as_slice(),
        &fields,
    );
    let Object { id, bytes, .. } = object;
    let fields = Fields::from_vec(fields);
    put_into(&mut parts.cars, to.car, Object { id, fields, bytes });
    id
}

/// The object at an address of the car that is emptied moves to a train: to the train's last car where it fits, and
/// else to a new car at the train's end. Its slot says where it went, its fields are followed, and the cars hear of
/// them. It answers the object's identity. After want of memory all is as it was.
pub fn relocate<F>(
    parts: &mut Parts<F>,
    alloc: Global,
    from: Addr,
    train: u64,
) -> Result<Id, NoMemory>
    requires law { HeapLaw (view parts.old) }
    requires moving { (view parts.old).phase ≡ Moving from.car }
    requires live { IsSome (object_at (view parts.old).cars from) }
    requires train { IsSome (cars_at parts.old.trains.trains train) }
    requires apart { (car : ℕ) → tail parts.old.trains.trains train ≡ Some car → (from.car == car) ≡ false }
    ensures ok { IfOk result (λ _. IsMovedTo (view parts.old) (view parts.new) from train) }
    ensures id { IfOk result (λ id. id ≡ identity (view parts.old) from) }
    ensures err { OnErr result (view parts.new ≡ view parts.old) }
    ensures rest { KeepsRest parts.old parts.new }
{
    let plan = plan_of(parts, alloc, from, train)?;
    let room = make_room_to_move(&mut parts.links, alloc, &parts.cars, from, &plan.fields)?;
    make_ready(&mut parts.cars, from.car)?;
    prepare_place(parts, alloc, train, plan.tail, room)?;
    let id = carry(parts, from, plan.to, plan.fields);
    Ok(id)
}
