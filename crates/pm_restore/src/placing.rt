//! Which objects of a dump go into which car.
ghost use Rattle.std.specs.Prelude.{◌≡◌, ◌≤◌, get_or, length, IfOk};
ghost use Rattle.pm_types.specs.declared.limits.TheConstants.{FIELDS, OBJECT_BYTES};
ghost use Rattle.pm_dump.specs.Lent.{object_shown};
ghost use Rattle.pm_dump.specs.Sound.{IsListed, IsSoundDump};
ghost use Rattle.pm_restore.specs.Packing.Packing.{object_room, place_in};
ghost use Rattle.pm_restore.specs.Firsts.{firsts_of};

use pm_dump::{Dump, DumpObject};
use pm_types::{Addr, CAR_HEAD_BYTES, FIELD_BYTES, NoMemory, OBJECT_HEAD_BYTES, PAGE_BYTES};
use std::alloc::Global;
use std::marker::Model;

/// Which objects of a dump each car has: the place of the first object of each car, ascending. Car c, counted from 1,
/// has the objects from its first place up to that of the next car.
#[derive(Drop)]
pub struct Placing {
    firsts: Vec<usize>,
}

impl Model for Placing {
    ghost use Rattle.std.specs.Prelude.{List, ℕ};

    ghost Value = { List ℕ };

    ghost view = { λ placing. placing.firsts.items };
}

/// How many bytes an object takes in a car.
fn room_of(object: &DumpObject<'_>) -> usize
    requires few { length object.now.fields.now ≤ FIELDS }
    requires short { length object.now.bytes.now ≤ OBJECT_BYTES }
    ensures { result ≡ object_room (object_shown object.now) }
{
    OBJECT_HEAD_BYTES as usize + FIELD_BYTES as usize * object.fields.len() + object.bytes.len()
}

/// The place of the first object of each car.
fn first_places(alloc: Global, dump: &Dump) -> Result<Vec<usize>, NoMemory>
    requires { IsSoundDump dump.now }
    ensures { IfOk result (λ firsts. firsts.items ≡ firsts_of dump.now.objects) }
{
    let mut firsts = Vec::new(alloc);
    // No car is begun, as if one was full.
    let mut used = PAGE_BYTES;
    for place in 0..dump.object_count() {
        let room = room_of(&dump.object(place));
        if used + room <= PAGE_BYTES {
            used += room;
        } else {
            firsts.push(place)?;
            used = CAR_HEAD_BYTES as usize + room;
        }
    }
    Ok(firsts)
}

/// The place of the object of an identity that is listed, counted from 0, found by a binary search.
fn place_of_id(dump: &Dump, id: u32) -> usize
    requires sound { IsSoundDump dump.now }
    requires listed { IsListed dump.now.objects id }
    ensures { result ≡ place_in dump.now.objects id }
{
    let mut low = 0;
    let mut high = dump.object_count();
    'halves: while low < high {
        let middle = low + (high - low) / 2;
        if dump.object(middle).id < id {
            low = middle + 1;
        } else {
            high = middle;
        }
    }
    low
}

/// The first place at this index, or else the end.
fn first_or(firsts: &[usize], index: usize, end: usize) -> usize
    ensures { result ≡ get_or firsts.now index end }
{
    if index < firsts.len() {
        firsts[index]
    } else {
        end
    }
}

impl Placing {
    ghost use Rattle.std.specs.Prelude.{◌≡◌, ◌<◌, IfOk, length};
    ghost use Rattle.pm_dump.specs.Sound.{IsListed, IsSoundDump};
    ghost use Rattle.pm_restore.specs.Packing.Packing.{address_of, place_of};
    ghost use Rattle.pm_restore.specs.Firsts.{firsts_of};
    ghost use Rattle.pm_restore.specs.Parts.{IsPartRange};

    /// The cars of a dump: its objects in their order, each car filled before the next is begun.
    pub fn of(alloc: Global, dump: &Dump) -> Result<Placing, NoMemory>
        requires { IsSoundDump dump.now }
        ensures { IfOk result (λ placing. placing ≡ firsts_of dump.now.objects) }
    {
        let firsts = first_places(alloc, dump)?;
        Ok(Placing { firsts })
    }

    /// How many cars there are.
    pub fn car_count(&self) -> usize
        ensures { result ≡ length self.now }
    {
        self.firsts.len()
    }

    /// Where the objects of the car of this number begin and end in the dump; twice the same place where there is no
    /// such car.
    pub fn range(&self, dump: &Dump, number: u64) -> (usize, usize)
        requires sound { IsSoundDump dump.now }
        requires placed { self.now ≡ firsts_of dump.now.objects }
        ensures { IsPartRange dump.now.objects number result.0 result.1 }
    {
        if number == 0 || number > self.firsts.len() as u64 {
            return (0, 0);
        }
        let index = number as usize;
        let end = dump.object_count();
        (
            first_or(&self.firsts, index - 1, end),
            first_or(&self.firsts, index, end),
        )
    }

    /// The car and slot of the object at this place of the dump, counted from 0: the car is found by a binary search.
    pub fn address(&self, dump: &Dump, place: usize) -> Addr
        requires sound { IsSoundDump dump.now }
        requires placed { self.now ≡ firsts_of dump.now.objects }
        requires there { place < length dump.now.objects }
        ensures { result ≡ place_of dump.now.objects place }
    {
        let car = self.firsts.partition_point(|first| *first <= place);
        Addr {
            car: car as u64,
            slot: (place - self.firsts[car - 1]) as u32,
        }
    }

    /// The car and slot of the object of an identity that is listed: its place is found by one binary search, and the
    /// car by another.
    pub fn address_of(&self, dump: &Dump, id: u32) -> Addr
        requires sound { IsSoundDump dump.now }
        requires placed { self.now ≡ firsts_of dump.now.objects }
        requires listed { IsListed dump.now.objects id }
        ensures { result ≡ address_of dump.now.objects id }
    {
        self.address(dump, place_of_id(dump, id))
    }
}
