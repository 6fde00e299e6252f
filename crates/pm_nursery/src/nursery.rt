ghost use Rattle.std.specs.Prelude.{◌≡◌, ◌+◌, ◌<◌, ◌≤◌, ℕ, length, Some, None, IsSome, IsSomeAnd, IfSome, IfOk, OnOk};
ghost use Rattle.std.specs.Prelude.{OnErr};
ghost use Rattle.std.specs.List.{All};
ghost use Rattle.std.specs.Option.{option_map};
ghost use Rattle.std.specs.FinMap as map;
ghost use Rattle.pm_types.specs.declared.limits.TheConstants.{CLIENTS, REGISTERS};
ghost use Rattle.pm_model.specs.Heap.{Object, with_bytes, with_field};
ghost use Rattle.pm_nursery.specs.declared.limits.TheConstants.{YOUNG};
ghost use Rattle.pm_nursery.specs.Escaping.{IsAscending, is_full};
ghost use Rattle.pm_nursery.specs.Holding.{AreHolders};
ghost use Rattle.pm_nursery.specs.Joined.{AreJoined};
ghost use Rattle.pm_nursery.specs.Moving.{young_changing, young_closing, young_forgetting, young_holding};
ghost use Rattle.pm_nursery.specs.Sweeping.{AreReached, GoesOut, IsDetached};
ghost use Rattle.pm_nursery.specs.Young.{IsNursery, IsSmall, no_nursery};

use crate::limits::YOUNG;
use crate::objects::Objects;
use crate::pairs::held_beside_holder;
use crate::registers::Registers;
use crate::walk::walk;
use crate::young::Young;
use pm_types::{CLIENTS, Id, NoMemory, REGISTERS};
use std::alloc::Global;
use std::collections::BTreeSet;
use std::marker::Model;

/// Young objects, at most 256 of them, and the registers that hold one. What a field or a register names is one of
/// them.
#[derive(Drop)]
pub struct Nursery {
    objects: Objects,
    registers: Registers,
}

impl Model for Nursery {
    ghost use Rattle.pm_nursery.specs.Young.{NurseryView, IsNursery, nursery_code};

    ghost Value = { NurseryView };

    ghost coded = { nursery_code };

    ghost view = { λ it. record { objects = it.objects; registers = it.registers } };

    ghost invariant = { λ it. IsNursery (record { objects = it.objects; registers = it.registers }) };
}

impl Nursery {
    /// No object, and no register that holds one.
    pub fn new(alloc: Global) -> Nursery
        ensures { result ≡ no_nursery }
    {
        Nursery {
            objects: Objects::new(alloc),
            registers: Registers::new(alloc),
        }
    }

    /// What holds of a nursery at every moment. It does nothing, and takes no memory.
    pub fn sound(&self)
        ensures { IsNursery self.now }
    {
        let _objects = &self.objects;
    }

    /// How many young objects there are, at most 256.
    pub fn len(&self) -> usize
        ensures { result ≡ map.len self.now.objects }
    {
        self.objects.len()
    }

    /// Whether there are 256 young objects, as many as can be.
    pub fn is_full(&self) -> bool
        ensures { result ≡ is_full self.now }
    {
        self.len() >= YOUNG
    }

    /// The young object of the identity, lent, or `None` where no young object has it.
    pub fn get(&self, id: Id) -> Option<&Young>
        ensures { option_map (λ young. young.now) result ≡ map.get self.now.objects id }
    {
        self.objects.get(id)
    }

    /// The young object that this register of this client holds, or `None` where it holds none.
    pub fn held(&self, client: u32, register: u32) -> Option<Id>
        ensures { result ≡ map.get self.now.registers (client, register) }
    {
        self.registers.get(client, register)
    }

    /// Adds a young object under an identity that no young object has. Its fields are null, at most 255, and its bytes
    /// at most 4,096. After want of memory all is as it was, and the object is let go.
    pub fn add(&mut self, id: Id, young: Young) -> Result<(), NoMemory>
        requires few { map.len self.old.objects < YOUNG }
        requires new { map.get self.old.objects id ≡ None }
        requires small { IsSmall young }
        requires null { All (λ field. field ≡ None) young.fields }
        ensures ok { OnOk result (self.new ≡ young_changing self.old id young) }
        ensures err { OnErr result (self.new ≡ self.old) }
    {
        self.objects.insert(id, young)
    }

    /// Puts null or a young object into a field of a young object, in place. It takes no memory.
    pub fn set_field(&mut self, id: Id, index: usize, value: Option<Id>)
        requires field { IsSomeAnd (map.get self.old.objects id) (λ object. index < length object.fields) }
        requires value { IfSome value (λ to. IsSome (map.get self.old.objects to)) }
        ensures { (object : Object) → map.get self.old.objects id ≡ Some object
            → self.new ≡ young_changing self.old id (with_field object index value) }
    {
        self.objects.set_field(id, index, value);
    }

    /// Puts these bytes into a young object from this place on, in place. It takes no memory.
    pub fn set_bytes(&mut self, id: Id, at: usize, from: &[u8])
        requires { IsSomeAnd (map.get self.old.objects id) (λ object. at + length from.now ≤ length object.bytes) }
        ensures { (object : Object) → map.get self.old.objects id ≡ Some object
            → self.new ≡ young_changing self.old id (with_bytes object at from.now) }
    {
        self.objects.set_bytes(id, at, from);
    }

    /// Lets this register of this client hold the young object, in place of what it held. After want of memory all is
    /// as it was.
    pub fn hold(&mut self, client: u32, register: u32, id: Id) -> Result<(), NoMemory>
        requires client { client < CLIENTS }
        requires register { register < REGISTERS }
        requires there { IsSome (map.get self.old.objects id) }
        ensures ok { OnOk result (self.new ≡ young_holding self.old client register id) }
        ensures err { OnErr result (self.new ≡ self.old) }
    {
        self.registers.hold(client, register, id)
    }

    /// Lets this register of this client hold no young object. It takes no memory.
    pub fn forget(&mut self, client: u32, register: u32)
        ensures { self.new ≡ young_forgetting self.old client register }
    {
        self.registers.forget(client, register);
    }

    /// Lets no register of this client hold a young object. It takes no memory.
    pub fn close(&mut self, client: u32)
        ensures { self.new ≡ young_closing self.old client }
    {
        self.registers.close(client);
    }

    /// The young objects that are joined to this one, itself among them, ascending, each once: no other object holds
    /// one of them, and none of them holds another object. It takes time by the number of young fields that are not
    /// null, and its logarithm; and next to none where no field was set since there was no young object.
    pub fn joined(&self, alloc: Global, id: Id) -> Result<Vec<Id>, NoMemory>
        requires { IsSome (map.get self.now.objects id) }
        ensures ascending { IfOk result (λ ids. IsAscending ids.items) }
        ensures joined { IfOk result (λ ids. AreJoined self.now.objects id ids.items) }
        ensures detached { IfOk result (λ ids. IsDetached self.now.objects ids.items) }
    {
        let mut pending = Vec::new(alloc);
        pending.push(id)?;
        if !self.objects.may_hold() {
            return Ok(pending);
        }
        let holders = held_beside_holder(alloc, &self.objects)?;
        walk(alloc, &self.objects, &holders, pending)
    }

    /// The young objects that the registers reach along young fields, ascending, each once. It takes time by the number
    /// of registers that hold one, of the objects that are reached, and of their fields.
    pub fn reached(&self, alloc: Global) -> Result<Vec<Id>, NoMemory>
        ensures ascending { IfOk result (λ ids. IsAscending ids.items) }
        ensures reached { IfOk result (λ ids. AreReached self.now ids.items) }
    {
        let held = self.registers.ids(alloc)?;
        walk(alloc, &self.objects, &BTreeSet::new(alloc), held)
    }

    /// The registers that hold this young object, lent, in ascending order: each item is the identity, and then the
    /// client and the register.
    pub fn holders(&self, id: Id) -> &[(Id, (u32, u32))]
        ensures { AreHolders self.now.registers id result.now }
    {
        self.registers.holders(id)
    }

    /// Takes away young objects that no other one holds and that hold no other one, with the registers that hold one of
    /// them. It takes no memory.
    pub fn carry_off(&mut self, ids: &[Id])
        requires { IsDetached self.old.objects ids.now }
        ensures { GoesOut self.old ids.now self.new }
    {
        self.objects.remove_all(ids);
        self.registers.forget_all(ids);
    }

    /// Takes away all young objects and what the registers hold. It takes no memory.
    pub fn drop_all(&mut self)
        ensures { self.new ≡ no_nursery }
    {
        self.objects.clear();
        self.registers.clear();
    }
}
