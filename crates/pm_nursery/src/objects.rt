ghost use Rattle.std.specs.Prelude.{◌≡◌, ◌+◌, ◌<◌, ◌≤◌, ◌↔◌, ℕ, false, length, Some, None, Contains, IsSomeAnd};
ghost use Rattle.std.specs.Prelude.{IfOk, IfErr, OnOk, OnErr};
ghost use Rattle.std.specs.Option.{option_map};
ghost use Rattle.std.specs.Ordering.{nat_cmp};
ghost use Rattle.std.specs.List.{All};
ghost use Rattle.std.specs.List.Sorted.{IsStrictlySortedBy};
ghost use Rattle.std.specs.Map.{keys_of};
ghost use Rattle.std.specs.FinMap as map;
ghost use Rattle.pm_model.specs.Heap.{Object, with_bytes, with_field};
ghost use Rattle.pm_nursery.specs.Rows.{IsAt, IsGap};
ghost use Rattle.pm_nursery.specs.Walking.{AreGone, HoldsNothing};

use crate::young::Young;
use pm_types::{Id, NoMemory};
use std::alloc::Global;
use std::marker::Model;

/// Young objects, seen as a heap. One is found by halving. One that goes moves those behind it, and those that go
/// together move each of the others once at most.
#[derive(Drop)]
pub(crate) struct Objects {
    // Each object behind its identity, in ascending order of these.
    young: Vec<(Id, Young)>,
    // Whether a field may have been set since there was no object.
    may_hold: bool,
}

impl Model for Objects {
    ghost use Rattle.std.specs.Ordering.{nat_cmp};
    ghost use Rattle.std.specs.FinMap as map;
    ghost use Rattle.std.specs.Coded.{coded_ℕ};
    ghost use Rattle.pm_model.specs.Heap.{Object, object_code};
    ghost use Rattle.pm_nursery.specs.Walking.{AreListed};

    ghost Value = { map.FinMap nat_cmp Object };

    ghost coded = { map.code coded_ℕ object_code };

    ghost view = { λ it. map.from_entries it.young.items };

    ghost invariant = { λ it. AreListed it.young.items it.may_hold };
}

// The place of the object, or the place for one. One behind all of them is found at once.
fn search(young: &[(Id, Young)], id: Id) -> Result<usize, usize>
    requires { IsStrictlySortedBy nat_cmp (keys_of young.now) }
    ensures found { IfOk result (IsAt (keys_of young.now) id) }
    ensures absent { IfErr result (IsGap nat_cmp (keys_of young.now) id) }
{
    if let Some(last) = young.last() {
        if last.0 < id {
            return Err(young.len());
        }
    }
    young.binary_search_by_key(&id, |entry| entry.0)
}

impl Objects {
    /// No object.
    pub(crate) fn new(alloc: Global) -> Objects
        ensures { result ≡ map.empty }
    {
        Objects {
            young: Vec::new(alloc),
            may_hold: false,
        }
    }

    /// How many objects there are.
    pub(crate) fn len(&self) -> usize
        ensures { result ≡ map.len self.now }
    {
        self.young.len()
    }

    /// The object at the identity, lent, or `None` where there is none.
    pub(crate) fn get(&self, id: Id) -> Option<&Young>
        ensures { option_map (λ young. young.now) result ≡ map.get self.now id }
    {
        match search(&self.young, id) {
            Ok(at) => Some(&self.young[at].1),
            Err(_) => None,
        }
    }

    /// The objects, lent, each behind its identity, in ascending order of these.
    pub(crate) fn as_slice(&self) -> &[(Id, Young)]
        ensures { (id : ℕ) (object : Object)
            → (map.get self.now id ≡ Some object) ↔ Contains result.now (id, object) }
    {
        self.young.as_slice()
    }

    /// Puts the object at the identity. Its fields are null. After want of memory all is as it was, and the object is let
    /// go.
    pub(crate) fn insert(&mut self, id: Id, young: Young) -> Result<(), NoMemory>
        requires { All (λ field. field ≡ None) young.fields }
        ensures ok { OnOk result (self.new ≡ map.insert self.old id young) }
        ensures err { OnErr result (self.new ≡ self.old) }
    {
        match search(&self.young, id) {
            Ok(at) => {
                self.young[at].1 = young;
                Ok(())
            }
            Err(at) => {
                self.young.insert(at, (id, young))?;
                Ok(())
            }
        }
    }

    /// Puts this into a field of the object, in place.
    pub(crate) fn set_field(&mut self, id: Id, index: usize, value: Option<Id>)
        requires { IsSomeAnd (map.get self.old id) (λ object. index < length object.fields) }
        ensures { (object : Object) → map.get self.old id ≡ Some object
            → self.new ≡ map.insert self.old id (with_field object index value) }
    {
        let Ok(at) = search(&self.young, id) else {
            return;
        };
        self.young[at].1.set_field(index, value);
        if value.is_some() {
            self.may_hold = true;
        }
    }

    /// Puts these bytes into the object from this place on, in place.
    pub(crate) fn set_bytes(&mut self, id: Id, at: usize, from: &[u8])
        requires { IsSomeAnd (map.get self.old id) (λ object. at + length from.now ≤ length object.bytes) }
        ensures { (object : Object) → map.get self.old id ≡ Some object
            → self.new ≡ map.insert self.old id (with_bytes object at from.now) }
    {
        let Ok(place) = search(&self.young, id) else {
            return;
        };
        self.young[place].1.set_bytes(at, from);
    }

    /// Whether a field of an object may name one: not where none was set since there was no object.
    pub(crate) fn may_hold(&self) -> bool
        ensures { result ≡ false → HoldsNothing self.now }
    {
        self.may_hold
    }

    // Where there is no object, no field may name one.
    fn note_empty(&mut self)
        ensures { self.new ≡ self.old }
    {
        if self.young.is_empty() {
            self.may_hold = false;
        }
    }

    // Takes the object away, if there is one.
    fn remove(&mut self, id: Id)
        ensures { self.new ≡ map.remove self.old id }
    {
        if let Ok(at) = search(&self.young, id) {
            self.young.remove(at);
            self.note_empty();
        }
    }

    // Takes the objects of these identities away, and moves each of the others once at most.
    fn retain_others(&mut self, ids: &[Id])
        ensures { AreGone self.old ids.now self.new }
    {
        self.young.retain(|entry| !ids.contains(&entry.0));
        self.note_empty();
    }

    /// Takes the objects of these identities away.
    pub(crate) fn remove_all(&mut self, ids: &[Id])
        ensures { AreGone self.old ids.now self.new }
    {
        match ids {
            [id] => self.remove(*id),
            _ => self.retain_others(ids),
        }
    }

    /// Takes all objects away.
    pub(crate) fn clear(&mut self)
        ensures { self.new ≡ map.empty }
    {
        self.young = Vec::new(*self.young.allocator());
        self.may_hold = false;
    }
}
