ghost use Rattle.std.specs.Prelude.{◌≡◌, ◌<◌, ℕ, [], ◌∷◌, not, nat_eq, MatchOption, Some, IfOk, IfErr, OnOk, OnErr};
ghost use Rattle.std.specs.FinMap as map;
ghost use Rattle.pm_types.specs.declared.limits.TheConstants.{CLIENTS, REGISTERS};
ghost use Rattle.pm_types.specs.Orders.{place_cmp};
ghost use Rattle.std.specs.List.Sorted.{IsStrictlySortedBy};
ghost use Rattle.std.specs.Map.{keys_of};
ghost use Rattle.pm_nursery.specs.Holding.{AreFree, AreHeld, AreHolders};
ghost use Rattle.pm_nursery.specs.Rows.{IsAt, IsGap};

use crate::index::{Place, add, exchange, of_id, take};
use pm_types::{Id, NoMemory};
use std::alloc::Global;
use std::marker::Model;

/// Registers that hold an identity, seen as a finite map from (client, register) to what it holds. One is found by
/// halving. One that comes or goes moves those behind it, of 8,192 in all.
#[derive(Drop)]
pub(crate) struct Registers {
    // Each register with what it holds, in ascending order.
    held: Vec<(Place, Id)>,
    // Each identity beside each register that holds it, in ascending order.
    turned: Vec<(Id, Place)>,
}

impl Model for Registers {
    ghost use Rattle.std.specs.Prelude.{ℕ};
    ghost use Rattle.std.specs.FinMap as map;
    ghost use Rattle.std.specs.Coded.{coded_ℕ, coded×};
    ghost use Rattle.pm_types.specs.Orders.{place_cmp};
    ghost use Rattle.pm_nursery.specs.Holding.{AreIndexed};

    ghost Value = { map.FinMap place_cmp ℕ };

    ghost coded = { map.code (coded× coded_ℕ coded_ℕ) coded_ℕ };

    ghost view = { λ it. map.from_entries it.held.items };

    ghost invariant = { λ it. AreIndexed it.held.items it.turned.items };
}

// The place of the register among those that ascend, or the place for it.
fn search(held: &[(Place, Id)], place: Place) -> Result<usize, usize>
    requires { IsStrictlySortedBy place_cmp (keys_of held.now) }
    ensures found { IfOk result (IsAt (keys_of held.now) place) }
    ensures absent { IfErr result (IsGap place_cmp (keys_of held.now) place) }
{
    held.binary_search_by_key(&place, |entry| entry.0)
}

impl Registers {
    /// No register holds anything.
    pub(crate) fn new(alloc: Global) -> Registers
        ensures { result ≡ map.empty }
    {
        Registers {
            held: Vec::new(alloc),
            turned: Vec::new(alloc),
        }
    }

    /// What this register of this client holds, or `None` where it holds nothing.
    pub(crate) fn get(&self, client: u32, register: u32) -> Option<Id>
        ensures { result ≡ map.get self.now (client, register) }
    {
        match search(&self.held, (client, register)) {
            Ok(at) => Some(self.held[at].1),
            Err(_) => None,
        }
    }

    /// Lets this register of this client hold the identity. After want of memory all is as it was.
    pub(crate) fn hold(&mut self, client: u32, register: u32, id: Id) -> Result<(), NoMemory>
        requires client { client < CLIENTS }
        requires register { register < REGISTERS }
        ensures ok { OnOk result (self.new ≡ map.insert self.old (client, register) id) }
        ensures err { OnErr result (self.new ≡ self.old) }
    {
        let place = (client, register);
        self.turned.reserve(1)?;
        match search(&self.held, place) {
            Ok(at) => {
                let old = self.held[at].1;
                if old != id {
                    self.held[at].1 = id;
                    exchange(&mut self.turned, old, id, place);
                }
                Ok(())
            }
            Err(at) => {
                self.held.insert(at, (place, id))?;
                add(&mut self.turned, id, place);
                Ok(())
            }
        }
    }

    /// Lets this register of this client hold nothing.
    pub(crate) fn forget(&mut self, client: u32, register: u32)
        ensures { self.new ≡ map.remove self.old (client, register) }
    {
        let place = (client, register);
        if let Ok(at) = search(&self.held, place) {
            let (_, id) = self.held.remove(at);
            take(&mut self.turned, id, place);
        }
    }

    /// Lets all registers of this client hold nothing.
    pub(crate) fn close(&mut self, client: u32)
        ensures { self.new ≡ map.retain_keys self.old (λ place. not (nat_eq place.0 client)) }
    {
        self.held.retain(|entry| entry.0.0 != client);
        self.turned.retain(|pair| pair.1.0 != client);
    }

    /// The registers that hold the identity, lent, in ascending order, each behind it.
    pub(crate) fn holders(&self, id: Id) -> &[(Id, Place)]
        ensures { AreHolders self.now id result.now }
    {
        of_id(&self.turned, id)
    }

    /// The identities that are held.
    pub(crate) fn ids(&self, alloc: Global) -> Result<Vec<Id>, NoMemory>
        ensures { IfOk result (λ ids. AreHeld self.now ids.items) }
    {
        let held = self.held.as_slice();
        let mut ids = Vec::new(alloc);
        for (_, id) in held {
            ids.push(*id)?;
        }
        Ok(ids)
    }

    // The first register that holds the identity, or `None` where none does.
    fn first_holder(&self, id: Id) -> Option<Place>
        ensures { MatchOption result ((place : ℕ × ℕ) → map.get self.now place ≡ Some id → ⊥)
            (λ place. map.get self.now place ≡ Some id) }
    {
        match self.holders(id).first() {
            Some((_, place)) => Some(*place),
            None => None,
        }
    }

    /// Lets each register that holds the identity hold nothing.
    pub(crate) fn forget_holders(&mut self, id: Id)
        ensures { AreFree self.old (id ∷ []) self.new }
    {
        while let Some((client, register)) = self.first_holder(id) {
            self.forget(client, register);
        }
    }

    /// Lets each register that holds one of the identities hold nothing.
    pub(crate) fn forget_all(&mut self, ids: &[Id])
        ensures { AreFree self.old ids.now self.new }
    {
        for id in ids {
            self.forget_holders(*id);
        }
    }

    /// Lets all registers hold nothing.
    pub(crate) fn clear(&mut self)
        ensures { self.new ≡ map.empty }
    {
        self.held = Vec::new(*self.held.allocator());
        self.turned = Vec::new(*self.turned.allocator());
    }
}
