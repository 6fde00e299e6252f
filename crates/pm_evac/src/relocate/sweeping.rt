ghost use Rattle.std.specs.Prelude.{◌≡◌, ℕ, IfOk, OnOk, OnErr, IsSome, Some, length, ◌<◌, ◌^◌};
ghost use Rattle.pm_view.specs.Reading.{object_at, aside_in};
ghost use Rattle.pm_view.specs.Collecting.{without_slot_at, swept};
ghost use Rattle.pm_space.specs.Linked.{sets_of, queues_of, AreHoused, HasRoom, Tells};
ghost use Rattle.pm_space.specs.Shown.{view, cars_of, KeepsRest};
ghost use Rattle.pm_evac.specs.Relocate.Changed.{identity};
ghost use Rattle.pm_evac.specs.Relocate.Named.{named_by, withdrawals};

use crate::relocate::rooms::make_room_for_named;
use pm_snap::Table;
use pm_space::{Held, LinkTable, Parts, object_at, tell_all};
use pm_trains::Trains;
use pm_types::{Addr, Id, NoMemory, Object, RefSource};
use pm_view::Phase;
use std::alloc::Global;

// Makes room in queues for what is told where these fields become null.
fn make_room_to_withdraw(
    links: &mut LinkTable,
    alloc: Global,
    fields: &[Option<Addr>],
) -> Result<(), NoMemory>
    ensures sets { sets_of links.new ≡ sets_of links.old }
    ensures queues { queues_of links.new ≡ queues_of links.old }
    ensures room { OnOk result ((car : ℕ) → HasRoom links.new car (named_by fields.now car)) }
{
    make_room_for_named(links, alloc, fields, &[])?;
    Ok(())
}

// Tells the cars that the fields of an object name that they do no more, in room that was made before.
fn withdraw(links: &mut LinkTable, trains: &Trains, phase: Phase, at: Addr, fields: &[Option<Addr>])
    requires few { length fields.now < 2 ^ 32 }
    requires housed { AreHoused (sets_of links.old) trains.now.trains }
    requires room { (car : ℕ) → HasRoom links.old car (named_by fields.now car) }
    ensures sets { sets_of links.new ≡ sets_of links.old }
    ensures queues { Tells links.old links.new (withdrawals (aside_in phase trains.now.trains) at fields.now) }
{
    for index in 0..fields.len() as u32 {
        let source = RefSource::Field { at, index };
        tell_all(links, trains, phase, source, fields[index as usize], None);
    }
}

// Takes the object out of a Live slot, which is Gone then.
fn take_object(cars: &mut Table<Held>, at: Addr) -> Result<Object, NoMemory>
    requires live { IsSome (object_at (cars_of cars.old) at) }
    ensures object { IfOk result (λ object. object_at (cars_of cars.old) at ≡ Some object) }
    ensures ok { OnOk result (cars_of cars.new ≡ without_slot_at (cars_of cars.old) at) }
    ensures err { OnErr result (cars.new ≡ cars.old) }
    ensures frozen { cars.new.frozen ≡ cars.old.frozen }
{
    let held = cars.change(at.car)?;
    Ok(held.car.drop_slot(at.slot))
}

/// An object is swept: its slot is Gone, and each car that a field of it named hears that it does no more. It answers
/// the object's identity. After want of memory all is as it was.
pub fn sweep<F>(parts: &mut Parts<F>, alloc: Global, at: Addr) -> Result<Id, NoMemory>
    requires live { IsSome (object_at (view parts.old).cars at) }
    requires housed { AreHoused (sets_of parts.old.links) parts.old.trains.trains }
    ensures ok { OnOk result (view parts.new ≡ swept (view parts.old) at) }
    ensures id { IfOk result (λ id. id ≡ identity (view parts.old) at) }
    ensures err { OnErr result (view parts.new ≡ view parts.old) }
    ensures rest { KeepsRest parts.old parts.new }
{
    let Some(object) = object_at(&parts.cars, at) else {
        // The caller shows that an object lies here.
        unreachable!()
    };
    make_room_to_withdraw(&mut parts.links, alloc, object.fields.as_slice())?;
    let object = take_object(&mut parts.cars, at)?;
    withdraw(
        &mut parts.links,
        &parts.trains,
        parts.phase,
        at,
        object.fields.as_slice(),
    );
    Ok(object.id)
}
