//! Why no copy was read.

ghost use Rattle.std.specs.Prelude.{◌≡◌};
ghost use Rattle.pm_graphs.specs.declared.fault.ReadFault.TheVariants.{Malformed, Failed, Memory};
ghost use Rattle.pm_types.specs.Memory.{no_memory};

use pm_disk::DiskFailed;
use pm_types::NoMemory;
use std::alloc::{AllocError, AllocFailed};

/// Why no copy was read.
#[derive(Clone, Copy, Debug, PartialEq, Eq)]
pub(crate) enum ReadFault {
    /// A page has another digest than the one that is kept of it.
    Damaged {
        /// The page, counted from 0.
        page: u64,
        /// The digest that is kept.
        kept: [u8; 32],
        /// The digest of what stands there.
        found: [u8; 32],
    },
    /// A field of a page is at fault.
    Malformed {
        /// The page, counted from 0.
        page: u64,
        /// The place of the field's first byte in the page.
        at: u32,
    },
    /// The disk failed.
    Failed,
    /// Memory ran out.
    Memory(NoMemory),
}

/// The place of an address.
#[derive(Clone, Copy, Debug, PartialEq, Eq)]
pub(crate) struct Place {
    /// The page, counted from 0.
    pub page: u64,
    /// The place of the address's first byte in the page.
    pub at: u32,
}

impl From<Place> for ReadFault {
    ghost from_gives = { λ place e. e ≡ Malformed place.page place.at };

    fn from(place: Place) -> ReadFault {
        ReadFault::Malformed {
            page: place.page,
            at: place.at,
        }
    }
}

impl From<DiskFailed> for ReadFault {
    ghost from_gives = { λ _ e. e ≡ Failed };

    fn from(_e: DiskFailed) -> ReadFault {
        ReadFault::Failed
    }
}

impl From<NoMemory> for ReadFault {
    ghost from_gives = { λ refused e. e ≡ Memory refused };

    fn from(refused: NoMemory) -> ReadFault {
        ReadFault::Memory(refused)
    }
}

impl From<AllocError> for ReadFault {
    ghost from_gives = { λ _ e. e ≡ Memory no_memory };

    fn from(refused: AllocError) -> ReadFault {
        ReadFault::Memory(NoMemory::from(refused))
    }
}

impl<T: Drop> From<AllocFailed<T>> for ReadFault {
    ghost from_gives = { λ _ e. e ≡ Memory no_memory };

    fn from(refused: AllocFailed<T>) -> ReadFault {
        ReadFault::Memory(NoMemory::from(refused))
    }
}
