//! Young objects that come into cars.

ghost use Rattle.std.specs.Prelude.{◌≡◌, ◌<◌, length, slice_index, true, IsSome, IfOk, OnOk, OnErr};
ghost use Rattle.std.specs.FinMap.{get};
ghost use Rattle.pm_view.specs.Counts.{IsStandingAt};
ghost use Rattle.pm_view.specs.Objects.{AddsObject, KeepsObjects};
ghost use Rattle.pm_space.specs.Shown.{view, KeepsRest};
ghost use Rattle.pm_nursery.specs.Escaping.{IsAscending};
ghost use Rattle.pm_nursery.specs.Sweeping.{among, AreYoung};
ghost use Rattle.pm_young.specs.Entering.{MayComeIn};
ghost use Rattle.pm_young.specs.Bringing.{ArePlaces, BringsBlank, BringsFields, BringsHeld, BringsHolders, BringsIn};
ghost use Rattle.pm_young.specs.Bringing.{BringsOne, BringsWhole, Enters, EntersPart, HoldsWithin, IsPlaceOf};
ghost use Rattle.pm_young.specs.Bringing.{CarriesJoined, CarriesJoinedPart, CarriesPart, CarriesReached, MayAllComeIn};
ghost use Rattle.pm_young.specs.Bringing.{MayYoungComeIn, StandsApart};
ghost use Rattle.pm_young.specs.Bringing.{StandsBlank, StandsBlankAt, StandsWithout};
ghost use Rattle.pm_young.specs.Rows.{AreBorn, AreNowHeld, ComeByRows, IsBornBlank, IsNowHeld, fields_of, place_at};
ghost use Rattle.pm_young.specs.Rows.{placed_among, with_all_links, with_links};

use pm_mutate::{admit, hold, link};
use pm_nursery::Nursery;
use pm_space::Space;
use pm_types::{Addr, Id, NoMemory};
use std::alloc::Global;

// A young object comes into a car, without its fields. The answer is its address. After want of memory all is as it
// was.
fn admit_one<F: Drop>(
    space: &mut Space<F>,
    alloc: Global,
    nursery: &Nursery,
    id: Id,
) -> Result<Addr, NoMemory>
    requires young { IsSome (get nursery.now.objects id) }
    requires may { MayComeIn (view space.old.parts) id }
    ensures worlds { OnOk result
        (BringsOne (view space.old.parts) nursery.now.objects id (view space.new.parts)) }
    ensures objects { IfOk result (λ place. AddsObject (view space.old.parts) (view space.new.parts) id place) }
    ensures row { IfOk result (λ place. IsBornBlank (view space.old.parts) id (get nursery.now.objects id) place
        (view space.new.parts)) }
    ensures next { (view space.new.parts).next ≡ (view space.old.parts).next }
    ensures err { OnErr result (view space.new.parts ≡ view space.old.parts) }
    ensures rest { KeepsRest space.old.parts space.new.parts }
{
    nursery.sound();
    let Some(young) = nursery.get(id) else {
        unreachable!()
    };
    admit(space, alloc, id, young.fields().len() as u32, young.bytes())
}

// Young objects come into cars, in the order of the list, without their fields. The room that their list and their
// identities take is taken first. Each is noted once it is in a car. The answer is their addresses.
fn admit_all<F: Drop>(
    space: &mut Space<F>,
    alloc: Global,
    nursery: &Nursery,
    ids: &[Id],
    entered: &mut Vec<Id>,
) -> Result<Vec<Addr>, NoMemory>
    requires ascending { IsAscending ids.now }
    requires young { AreYoung nursery.now ids.now }
    requires may { MayAllComeIn (view space.old.parts) ids.now }
    ensures worlds { OnOk result
        (BringsBlank (view space.old.parts) nursery.now.objects ids.now (view space.new.parts)) }
    ensures as_many { IfOk result (λ places. length places.items ≡ length ids.now) }
    ensures places { IfOk result (λ places. ArePlaces (view space.new.parts) ids.now places.items) }
    ensures rows { IfOk result (λ places. AreBorn (view space.old.parts) nursery.now.objects ids.now places.items
        (view space.new.parts)) }
    ensures enters { OnOk result
        (Enters (view space.old.parts) (view space.new.parts) entered.old.items entered.new.items ids.now) }
    ensures part { OnErr result
        (EntersPart (view space.old.parts) (view space.new.parts) entered.old.items entered.new.items ids.now) }
    ensures rest { KeepsRest space.old.parts space.new.parts }
{
    entered.reserve(ids.len())?;
    let mut places = Vec::with_capacity(alloc, ids.len())?;
    for id in ids {
        let place = admit_one(space, alloc, nursery, *id)?;
        entered.push_reserved(*id);
        places.push_reserved(place);
    }
    Ok(places)
}

// The place of one of the identities.
fn place_of(ids: &[Id], places: &[Addr], id: Id) -> Addr
    requires ascending { IsAscending ids.now }
    requires as_many { length places.now ≡ length ids.now }
    requires among { among ids.now id ≡ true }
    ensures { IsPlaceOf ids.now places.now id result }
{
    match ids.binary_search(&id) {
        Ok(at) => places[at],
        Err(_) => unreachable!(),
    }
}

// Each field that is not null of an object that came in is set, once.
fn link_one<F: Drop>(
    space: &mut Space<F>,
    nursery: &Nursery,
    ids: &[Id],
    places: &[Addr],
    index: usize,
) -> Result<(), NoMemory>
    requires ascending { IsAscending ids.now }
    requires as_many { length places.now ≡ length ids.now }
    requires index { index < length ids.now }
    requires young { AreYoung nursery.now ids.now }
    requires within { HoldsWithin nursery.now.objects ids.now }
    requires places { ArePlaces (view space.old.parts) ids.now places.now }
    requires stands { ∥ StandsBlankAt (view space.old.parts) nursery.now.objects ids.now index ∥₁ }
    ensures worlds { OnOk result
        (BringsFields (view space.old.parts) nursery.now.objects ids.now index (view space.new.parts)) }
    ensures row { OnOk result (view space.new.parts ≡ with_links (view space.old.parts)
        (placed_among ids.now places.now) (place_at places.now index) 0
        (fields_of (get nursery.now.objects (slice_index ids.now index)))) }
    ensures objects { KeepsObjects (view space.old.parts) (view space.new.parts) }
    ensures next { (view space.new.parts).next ≡ (view space.old.parts).next }
    ensures rest { KeepsRest space.old.parts space.new.parts }
{
    nursery.sound();
    let Some(young) = nursery.get(ids[index]) else {
        unreachable!()
    };
    for (field, value) in young.fields().iter().enumerate() {
        if let Some(to) = value {
            link(
                space,
                places[index],
                field as u32,
                place_of(ids, places, *to),
            )?;
        }
    }
    Ok(())
}

// Each field that is not null of the objects that came in is set, once: what it holds came in too.
fn link_all<F: Drop>(
    space: &mut Space<F>,
    nursery: &Nursery,
    ids: &[Id],
    places: &[Addr],
) -> Result<(), NoMemory>
    requires ascending { IsAscending ids.now }
    requires as_many { length places.now ≡ length ids.now }
    requires young { AreYoung nursery.now ids.now }
    requires within { HoldsWithin nursery.now.objects ids.now }
    requires places { ArePlaces (view space.old.parts) ids.now places.now }
    requires stands { ∥ StandsBlank (view space.old.parts) nursery.now.objects ids.now ∥₁ }
    ensures worlds { OnOk result
        (BringsWhole (view space.old.parts) nursery.now.objects ids.now (view space.new.parts)) }
    ensures rows { OnOk result (view space.new.parts ≡ with_all_links (view space.old.parts) nursery.now.objects
        (placed_among ids.now places.now) ids.now places.now) }
    ensures objects { KeepsObjects (view space.old.parts) (view space.new.parts) }
    ensures next { (view space.new.parts).next ≡ (view space.old.parts).next }
    ensures rest { KeepsRest space.old.parts space.new.parts }
{
    for index in 0..ids.len() {
        link_one(space, nursery, ids, places, index)?;
    }
    Ok(())
}

// Each register that names the object holds its place, in the space.
fn hold_one<F: Drop>(
    space: &mut Space<F>,
    nursery: &Nursery,
    id: Id,
    at: Addr,
) -> Result<(), NoMemory>
    requires place { IsStandingAt (view space.old.parts) id at }
    ensures worlds { OnOk result
        (BringsHolders (view space.old.parts) nursery.now.registers id (view space.new.parts)) }
    ensures row { OnOk result (IsNowHeld (view space.old.parts) nursery.now.registers id at (view space.new.parts)) }
    ensures objects { KeepsObjects (view space.old.parts) (view space.new.parts) }
    ensures next { (view space.new.parts).next ≡ (view space.old.parts).next }
    ensures rest { KeepsRest space.old.parts space.new.parts }
{
    nursery.sound();
    let holders = nursery.holders(id);
    for (_, (client, register)) in holders {
        hold(space, *client, *register, at)?;
    }
    Ok(())
}

// Each register that names one of the objects that came in holds its place, in the space.
fn hold_all<F: Drop>(
    space: &mut Space<F>,
    nursery: &Nursery,
    ids: &[Id],
    places: &[Addr],
) -> Result<(), NoMemory>
    requires as_many { length places.now ≡ length ids.now }
    requires places { ArePlaces (view space.old.parts) ids.now places.now }
    ensures worlds { OnOk result
        (BringsHeld (view space.old.parts) nursery.now.registers ids.now (view space.new.parts)) }
    ensures rows { OnOk result
        (AreNowHeld (view space.old.parts) nursery.now.registers ids.now places.now (view space.new.parts)) }
    ensures objects { KeepsObjects (view space.old.parts) (view space.new.parts) }
    ensures next { (view space.new.parts).next ≡ (view space.old.parts).next }
    ensures rest { KeepsRest space.old.parts space.new.parts }
{
    for index in 0..places.len() {
        hold_one(space, nursery, ids[index], places[index])?;
    }
    Ok(())
}

// Young objects come into cars, in the order of the list, with the registers that name one. What their fields hold is
// among them. Each is noted once it is in a car; each field that is not null, and each register that names one, is set
// once. The nursery has them still. After want of memory a first part of them was noted, and each of these is in a car.
fn escape<F: Drop>(
    space: &mut Space<F>,
    alloc: Global,
    nursery: &Nursery,
    ids: &[Id],
    entered: &mut Vec<Id>,
) -> Result<(), NoMemory>
    requires ascending { IsAscending ids.now }
    requires young { AreYoung nursery.now ids.now }
    requires within { HoldsWithin nursery.now.objects ids.now }
    requires may { MayAllComeIn (view space.old.parts) ids.now }
    requires stands { ∥ StandsWithout (view space.old.parts) ids.now ∥₁ }
    ensures worlds { OnOk result
        (BringsIn (view space.old.parts) nursery.now ids.now (view space.new.parts)) }
    ensures rows { OnOk result (ComeByRows (view space.old.parts) nursery.now ids.now (view space.new.parts)) }
    ensures enters { OnOk result
        (Enters (view space.old.parts) (view space.new.parts) entered.old.items entered.new.items ids.now) }
    ensures part { OnErr result
        (EntersPart (view space.old.parts) (view space.new.parts) entered.old.items entered.new.items ids.now) }
    ensures rest { KeepsRest space.old.parts space.new.parts }
{
    let places = admit_all(space, alloc, nursery, ids, entered)?;
    link_all(space, nursery, ids, &places)?;
    hold_all(space, nursery, ids, &places)
}

/// The young objects that registers reach along young fields come into cars, in the order of their identities, with the
/// registers that name one. The nursery has them still. After want of memory a first part of them was noted, and each
/// of these is in a car.
pub(crate) fn carry_reached<F: Drop>(
    space: &mut Space<F>,
    alloc: Global,
    nursery: &Nursery,
    entered: &mut Vec<Id>,
) -> Result<(), NoMemory>
    requires may { MayYoungComeIn (view space.old.parts) nursery.now }
    requires stands { ∥ StandsApart (view space.old.parts) nursery.now ∥₁ }
    ensures ok { OnOk result (CarriesReached (view space.old.parts) nursery.now entered.old.items
        (view space.new.parts) entered.new.items) }
    ensures part { OnErr result (CarriesPart (view space.old.parts) nursery.now entered.old.items
        (view space.new.parts) entered.new.items) }
    ensures rest { KeepsRest space.old.parts space.new.parts }
{
    nursery.sound();
    let ids = nursery.reached(alloc)?;
    escape(space, alloc, nursery, ids.as_slice(), entered)
}

/// The young objects that are joined to this one come into cars, in the order of their identities, with the registers
/// that name one, and leave the nursery. After want of memory the nursery is as it was; a first part of them was noted,
/// and each of these is in a car.
pub(crate) fn carry_joined<F: Drop>(
    space: &mut Space<F>,
    alloc: Global,
    nursery: &mut Nursery,
    id: Id,
    entered: &mut Vec<Id>,
) -> Result<(), NoMemory>
    requires young { IsSome (get nursery.old.objects id) }
    requires may { MayYoungComeIn (view space.old.parts) nursery.old }
    requires stands { ∥ StandsApart (view space.old.parts) nursery.old ∥₁ }
    ensures ok { OnOk result (CarriesJoined (view space.old.parts) nursery.old id entered.old.items
        (view space.new.parts) nursery.new entered.new.items) }
    ensures part { OnErr result (CarriesJoinedPart (view space.old.parts) nursery.old id entered.old.items
        (view space.new.parts) entered.new.items) }
    ensures rest { KeepsRest space.old.parts space.new.parts }
{
    nursery.sound();
    let ids = nursery.joined(alloc, id)?;
    escape(space, alloc, nursery, ids.as_slice(), entered)?;
    nursery.carry_off(ids.as_slice());
    Ok(())
}
