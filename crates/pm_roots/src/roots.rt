ghost use Rattle.std.specs.Prelude.{◌≡◌, ℕ, List, ◌<◌, ◌≤◌, ◌==◌, ◌↔◌, Some, None, IsSome, IsOk, IfSome, IfNone, IfOk, OnErr, slice_get, length, if◌then◌else◌};
ghost use Rattle.std.specs.FinMap as map;
ghost use Rattle.std.specs.List.{insert};
ghost use Rattle.std.specs.Option.{option_map};
ghost use Rattle.slab.specs.Slab.{get};
ghost use Rattle.pm_roots.specs.Bindings.{address_at, IsBound, IsFree, IsNumberFor, with_address};
ghost use Rattle.pm_roots.specs.Sound.{IsSound};
ghost use Rattle.pm_roots.specs.Kept.{Adds};

use crate::BindFault;
use crate::search::search;
use pm_types::{Addr, Name, NoMemory, ROOTS};
use slab::Slab;
use std::alloc::Global;
use std::marker::Model;
use std::mem;

/// The bound names, seen as a finite map from names to a number and an address. At most 4,096 names are
/// bound at one time. A number belongs to one bound name at a time: a new name gets the number that was
/// given back last, else the next.
#[derive(Drop)]
pub struct Roots {
    // Each name with its number, in ascending order of the names' bytes.
    names: Vec<(Name, usize)>,
    // The address under each number.
    addresses: Slab<Addr>,
}

impl Model for Roots {
    ghost use Rattle.std.specs.FinMap as map;
    ghost use Rattle.std.specs.Coded.{coded_ℕ, coded_list, coded×};
    ghost use Rattle.pm_types.specs.contracts.address.Addr as address;
    ghost use Rattle.pm_roots.specs.Bindings.{Bindings};
    ghost use Rattle.pm_roots.specs.Kept.{IsKept, shown};
    ghost use Rattle.slab.specs.Slab.{get};

    ghost Value = { Bindings };

    ghost coded = { map.code (coded_list coded_ℕ) (coded× coded_ℕ address.the_row.coded) };

    ghost view = { λ it. shown it.names.items (get it.addresses) };

    ghost invariant = { λ it. IsKept it.names.items (get it.addresses) };
}

// Adds the name at its place, with the next number and the address.
fn add(
    names: &mut Vec<(Name, usize)>,
    addresses: &mut Slab<Addr>,
    place: usize,
    name: Name,
    at: Addr,
) -> Result<usize, NoMemory>
    requires { place ≤ length names.old.items }
    ensures names { IfOk result (λ number. names.new.items ≡ insert names.old.items place (name, number)) }
    ensures addresses { IfOk result (λ number. Adds (get addresses.old) (get addresses.new) number at) }
    ensures err_names { OnErr result (names.new.items ≡ names.old.items) }
    ensures err_addresses { OnErr result (addresses.new.slots ≡ addresses.old.slots) }
{
    addresses.reserve(1)?;
    let number = addresses.vacant_key();
    match names.insert(place, (name, number)) {
        Ok(()) => {
            addresses.insert_reserved(at);
            Ok(number)
        }
        Err(failed) => Err(NoMemory::from(failed)),
    }
}

impl Roots {
    /// No name is bound.
    pub fn new(alloc: Global) -> Self
        ensures { result ≡ map.empty }
    {
        Roots {
            names: Vec::new(alloc),
            addresses: Slab::new(alloc),
        }
    }

    /// What holds of the roots at every moment: at most 4,096 names are bound, and their numbers differ. It
    /// does nothing, and takes no memory.
    pub fn sound(&self)
        ensures { IsSound self.now }
    {
        let _names = self.names.len();
    }

    /// How many names are bound.
    pub fn len(&self) -> u64
        ensures { result ≡ map.len self.now }
    {
        self.names.len() as u64
    }

    /// The number and the address of the name.
    pub fn find(&self, name: &Name) -> Option<(u64, Addr)>
        ensures { result ≡ map.get self.now name.now }
    {
        match search(&self.names, name) {
            Ok(place) => {
                let number = self.names[place].1;
                Some((number as u64, self.addresses[number]))
            }
            Err(_) => None,
        }
    }

    /// The address under the number, where some name has it.
    pub fn at(&self, number: u64) -> Option<Addr>
        ensures value { result ≡ address_at self.now number }
        ensures bound { IfSome result (IsBound self.now number) }
        ensures free { IfNone result (IsFree self.now number) }
    {
        self.addresses.get(number as usize).copied()
    }

    /// The name, number and address at the place, counted from 0 in ascending order of the names' bytes.
    pub fn nth(&self, place: u64) -> (&Name, u64, Addr)
        requires { place < map.len self.now }
        ensures { slice_get (map.entries self.now) place ≡ Some (result.0.now, (result.1, result.2)) }
    {
        let (name, number) = &self.names[place as usize];
        (name, *number as u64, self.addresses[*number])
    }

    /// Binds the name to the address, and answers its number and the address that it was bound to. A name
    /// that is bound keeps its number.
    ///
    /// `TooMany`: the name is not bound, and 4,096 names are. `Memory`: the name is not bound, fewer are,
    /// and memory ran out.
    pub fn bind(&mut self, name: Name, at: Addr) -> Result<(u64, Option<Addr>), BindFault>
        ensures number { IfOk result (λ done. IsNumberFor (map.get self.old name) self.old done.0) }
        ensures old_address { IfOk result (λ done. done.1 ≡ option_map (λ bound. bound.1) (map.get self.old name)) }
        ensures names { IfOk result (λ done. self.new ≡ map.insert self.old name (done.0, at)) }
        ensures numbers { IfOk result (λ done. (number : ℕ)
            → address_at self.new number ≡ (if number == done.0 then Some at else address_at self.old number)) }
        ensures too_many { (result ≡ Err BindFault.TooMany) ↔ ((map.get self.old name ≡ None)
            × (ROOTS ≤ map.len self.old)) }
        ensures bound_again { IsSome (map.get self.old name) → IsOk result }
        ensures err { OnErr result (self.new ≡ self.old) }
    {
        match search(&self.names, &name) {
            Ok(place) => {
                let number = self.names[place].1;
                let old = mem::replace(&mut self.addresses[number], at);
                Ok((number as u64, Some(old)))
            }
            Err(place) => {
                if self.names.len() >= ROOTS {
                    return Err(BindFault::TooMany);
                }
                let added = add(&mut self.names, &mut self.addresses, place, name, at);
                let number = match added {
                    Ok(number) => number,
                    Err(refused) => return Err(BindFault::Memory(refused)),
                };
                Ok((number as u64, None))
            }
        }
    }

    /// Takes the name away, and answers the number and the address that it was bound to; `None` exactly
    /// where it is not bound. The number is the next that is given.
    pub fn unbind(&mut self, name: &Name) -> Option<(u64, Addr)>
        ensures value { result ≡ map.get self.old name.now }
        ensures names { self.new ≡ map.remove self.old name.now }
        ensures numbers { IfSome result (λ bound. (number : ℕ)
            → address_at self.new number ≡ (if number == bound.0 then None else address_at self.old number)) }
        ensures absent { IfNone result (self.new ≡ self.old) }
    {
        match search(&self.names, name) {
            Ok(place) => {
                let (_, number) = self.names.remove(place);
                Some((number as u64, self.addresses.remove(number)))
            }
            Err(_) => None,
        }
    }

    /// Sets the address under a number that some name has.
    pub fn set(&mut self, number: u64, at: Addr)
        requires { IsSome (address_at self.old number) }
        ensures names { (name : List ℕ) → map.get self.new name ≡ with_address number at (map.get self.old name) }
        ensures numbers { (other : ℕ)
            → address_at self.new other ≡ (if other == number then Some at else address_at self.old other) }
    {
        self.addresses[number as usize] = at;
    }
}
