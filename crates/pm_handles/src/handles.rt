ghost use Rattle.std.specs.Prelude.{◌≡◌, ◌+◌, ◌*◌, ◌<◌, IfOk};
ghost use Rattle.std.specs.FinMap as map;
ghost use Rattle.pm_handles.specs.Handles.{with_register};
ghost use Rattle.pm_handles.specs.Sound.{IsSound};

use pm_types::{Addr, CLIENTS, NoMemory, REGISTERS};
use std::alloc::Global;
use std::marker::Model;

// How many registers all clients have.
const CELLS: usize = 8192;

const _: () = prove!(CELLS == CLIENTS as usize * REGISTERS as usize);

/// The registers of all clients, seen as a finite map from (client, register) to the address that the
/// register holds. An empty register is not in it.
#[derive(Drop)]
pub struct Handles {
    /// The registers of client 0, then those of client 1, and so on.
    held: Vec<Option<Addr>>,
}

impl Model for Handles {
    ghost use Rattle.std.specs.Prelude.{◌≡◌, length};
    ghost use Rattle.std.specs.FinMap as map;
    ghost use Rattle.std.specs.Coded.{coded_ℕ, coded×};
    ghost use Rattle.pm_types.specs.contracts.address.Addr as address;
    ghost use Rattle.pm_types.specs.declared.address.Addr.{Addr};
    ghost use Rattle.pm_types.specs.Orders.{place_cmp};
    ghost use Rattle.pm_handles.specs.Handles.{held_from};

    ghost Value = { map.FinMap place_cmp Addr };

    ghost coded = { map.code (coded× coded_ℕ coded_ℕ) address.the_row.coded };

    ghost view = { λ it. map.from_entries (held_from 0 it.held.items) };

    ghost invariant = { λ it. length it.held.items ≡ 8192 };
}

// The place of a client's register among all.
fn place_of(client: u32, register: u32) -> usize
    requires client { client < CLIENTS }
    requires register { register < REGISTERS }
    ensures { result ≡ client * REGISTERS + register }
{
    client as usize * REGISTERS as usize + register as usize
}

impl Handles {
    /// Registers that are all empty.
    pub fn new(alloc: Global) -> Result<Handles, NoMemory>
        ensures { IfOk result (λ handles. handles ≡ map.empty) }
    {
        Ok(Handles {
            held: vec![in alloc; None; CELLS]?,
        })
    }

    /// What holds of the registers at every moment: one that holds an address is below 1,024, and its
    /// client below 8. It does nothing, and takes no memory.
    pub fn sound(&self)
        ensures { IsSound self.now }
    {
        let _registers = self.held.len();
    }

    /// What this register of this client holds, or `None` where it is empty.
    pub fn get(&self, client: u32, register: u32) -> Option<Addr>
        requires client { client < CLIENTS }
        requires register { register < REGISTERS }
        ensures { result ≡ map.get self.now (client, register) }
    {
        self.held[place_of(client, register)]
    }

    /// Lets this register of this client hold the address, or nothing, and answers what stood there. It
    /// takes no memory.
    pub fn set(&mut self, client: u32, register: u32, at: Option<Addr>) -> Option<Addr>
        requires client { client < CLIENTS }
        requires register { register < REGISTERS }
        ensures old { result ≡ map.get self.old (client, register) }
        ensures after { self.new ≡ with_register self.old (client, register) at }
    {
        let place = place_of(client, register);
        let old = self.held[place];
        self.held[place] = at;
        old
    }
}
