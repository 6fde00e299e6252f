//! What a ship answers.
ghost use Rattle.std.specs.Prelude.{◌≡◌};
ghost use Rattle.pm_ship.specs.declared.fault.ShipFault.TheVariants.{Memory};
ghost use Rattle.pm_types.specs.Memory.{no_memory};

use pm_types::{NoMemory, OpenFault};
use std::alloc::{AllocError, AllocFailed};
use thiserror::Error;

/// What a ship made of a standby.
#[derive(Clone, Copy, Debug, PartialEq, Eq)]
pub struct Shipped {
    /// The number of the copy that both stores have now.
    pub epoch: u32,
    /// How many pages were written for it: one for each car that stood on no page of the standby's copy, and those of
    /// the catalog; 0 where the standby had the copy already.
    pub written: u64,
}

/// Why nothing was shipped. The first that applies of the first four is the one that is answered.
#[derive(Clone, Copy, Debug, PartialEq, Eq, Error)]
pub enum ShipFault {
    /// The first store is refused, by the first rule that fails: a page of it is damaged or malformed.
    #[error("{0}")]
    From(OpenFault),
    /// The standby is refused so.
    #[error("standby {0}")]
    To(OpenFault),
    /// The standby has a later copy than the first store.
    #[error("standby ahead {to} {from}")]
    Ahead {
        /// The number of the standby's copy.
        to: u32,
        /// The number of the first store's copy.
        from: u32,
    },
    /// The standby has a copy of the same number, which is another one.
    #[error("standby foreign {0}")]
    Foreign(u32),
    /// The disk of the first store failed: its count of failed calls rose.
    #[error("disk fault")]
    Disk {
        /// The count of failed calls before.
        before: u64,
        /// The count of failed calls after.
        after: u64,
    },
    /// The disk of the standby failed: its count of failed calls rose.
    #[error("standby disk fault")]
    OtherDisk {
        /// The count of failed calls before.
        before: u64,
        /// The count of failed calls after.
        after: u64,
    },
    /// Memory ran out.
    #[error("no memory")]
    Memory(NoMemory),
}

impl From<NoMemory> for ShipFault {
    ghost from_gives = { λ refused e. e ≡ Memory refused };

    fn from(refused: NoMemory) -> ShipFault {
        ShipFault::Memory(refused)
    }
}

impl From<AllocError> for ShipFault {
    ghost from_gives = { λ _ e. e ≡ Memory no_memory };

    fn from(refused: AllocError) -> ShipFault {
        ShipFault::Memory(NoMemory::from(refused))
    }
}

impl<T: Drop> From<AllocFailed<T>> for ShipFault {
    ghost from_gives = { λ _ e. e ≡ Memory no_memory };

    fn from(refused: AllocFailed<T>) -> ShipFault {
        ShipFault::Memory(NoMemory::from(refused))
    }
}
