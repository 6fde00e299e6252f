//! The anchor of the collector: an object that is to leave the oldest train, and the train to which it
//! goes.
#![tactic(auto)]

ghost use Rattle.std.specs.Prelude.{◌≡◌, Some, None};

use pm_types::Addr;
use std::marker::Model;

/// The anchor, seen as an address with the number of a train, or as none.
#[derive(Debug, Drop)]
pub struct Guard {
    noted: Option<(Addr, u64)>,
}

impl Model for Guard {
    ghost use Rattle.std.specs.Prelude.{Option, ℕ};
    ghost use Rattle.pm_types.specs.declared.address.Addr.{Addr};

    ghost Value = { Option (Addr × ℕ) };

    ghost view = { λ guard. guard.noted };
}

impl Guard {
    /// No anchor.
    pub fn new() -> Guard
        ensures { result ≡ None }
    {
        Guard { noted: None }
    }

    /// Notes the object at this address as the anchor, with the number of the train to which it goes,
    /// in place of an earlier anchor.
    pub fn note(&mut self, at: Addr, train: u64)
        ensures { self.new ≡ Some (at, train) }
    {
        self.noted = Some((at, train));
    }

    /// The anchor's address and the number of its train, or `None` where there is no anchor. It takes
    /// no memory.
    pub fn anchor(&self) -> Option<(Addr, u64)>
        ensures { result ≡ self.now }
    {
        self.noted
    }

    /// Takes the anchor away.
    pub fn clear(&mut self)
        ensures { self.new ≡ None }
    {
        self.noted = None;
    }
}
