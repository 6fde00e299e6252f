ghost use Rattle.std.specs.Prelude.{◌≡◌, OnOk, OnErr, not, nat_eq};
ghost use Rattle.std.specs.FinMap as map;

use pm_types::{Id, NoMemory};
use std::alloc::Global;
use std::collections::BTreeMap;
use std::marker::Model;

/// The registers of all clients, seen as a finite map from (client, register) to what it holds.
/// An empty register is not in it.
#[derive(Drop)]
pub struct Registers {
    held: BTreeMap<(u32, u32), Id>,
}

impl Model for Registers {
    ghost use Rattle.std.specs.Prelude.{ℕ};
    ghost use Rattle.std.specs.FinMap as map;
    ghost use Rattle.std.specs.Coded.{coded_ℕ, coded×};
    ghost use Rattle.pm_types.specs.Orders.{place_cmp};

    ghost Value = { map.FinMap place_cmp ℕ };

    ghost coded = { map.code (coded× coded_ℕ coded_ℕ) coded_ℕ };

    ghost view = { λ it. map.from_entries it.held.entries };
}

impl Registers {
    /// Registers that are all empty.
    pub fn new(alloc: Global) -> Self
        ensures { result ≡ map.empty }
    {
        Registers {
            held: BTreeMap::new(alloc),
        }
    }

    /// What this register of this client holds.
    pub fn get(&self, client: u32, register: u32) -> Option<Id>
        ensures { result ≡ map.get self.now (client, register) }
    {
        self.held.get(&(client, register)).copied()
    }

    /// Lets this register of this client hold the identity.
    pub fn set(&mut self, client: u32, register: u32, id: Id) -> Result<(), NoMemory>
        ensures ok { OnOk result (self.new ≡ map.insert self.old (client, register) id) }
        ensures err { OnErr result (self.new ≡ self.old) }
    {
        self.held.insert((client, register), id)?;
        Ok(())
    }

    /// Lets this register of this client be empty.
    pub fn forget(&mut self, client: u32, register: u32)
        ensures { self.new ≡ map.remove self.old (client, register) }
    {
        self.held.remove(&(client, register));
    }

    /// Lets all registers of this client be empty.
    pub fn close(&mut self, client: u32)
        ensures { self.new ≡ map.retain_keys self.old (λ place. not (nat_eq place.0 client)) }
    {
        self.held.retain(|place, _id| place.0 != client);
    }
}
