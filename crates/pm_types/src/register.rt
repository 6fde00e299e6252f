ghost use Rattle.std.specs.Prelude.{◌≡◌, ◌<◌, ◌≤◌, ◌↔◌, IsNone, IfSome};

use crate::REGISTERS;
use std::marker::Model;

/// The number of a register, 0 to 1023, seen as that number.
#[derive(Clone, Copy, Debug, PartialEq, Eq)]
pub struct Reg {
    number: u32,
}

impl Model for Reg {
    ghost use Rattle.std.specs.Prelude.{ℕ, ◌<◌};
    ghost use Rattle.pm_types.specs.declared.limits.TheConstants.{REGISTERS};

    ghost Value = { ℕ };

    ghost view = { λ reg. reg.number };

    ghost invariant = { λ reg. reg.number < REGISTERS };

    ghost inverse = { λ number. record { number = number } };
}

impl Reg {
    /// The register of this number, or `None` exactly where the number is over 1023.
    pub fn new(number: u32) -> Option<Reg>
        ensures none { IsNone result ↔ (REGISTERS ≤ number) }
        ensures number { IfSome result (λ reg. reg ≡ number) }
    {
        if number < REGISTERS {
            Some(Reg { number })
        } else {
            None
        }
    }

    /// A law: a register is one that a client has. The function does nothing.
    pub fn sound(&self)
        ensures { self.now < REGISTERS }
    {
        let _number = self.number;
    }

    /// The register's number.
    pub fn number(&self) -> u32
        ensures number { result ≡ self.now }
        ensures small { self.now < REGISTERS }
    {
        self.number
    }
}
