//! Why a copy was not settled.

ghost use Rattle.std.specs.Prelude.{◌≡◌};
ghost use Rattle.pm_save.specs.declared.progress.fault.SaveFault.TheVariants.{Disk, Memory};
ghost use Rattle.pm_types.specs.Memory.{no_memory};

use pm_disk::DiskFailed;
use pm_types::NoMemory;
use std::alloc::{AllocError, AllocFailed};
use thiserror::Error;

/// Why a copy was not settled.
#[derive(Clone, Copy, Debug, PartialEq, Eq, Error)]
pub enum SaveFault {
    /// The disk failed, and has counted it.
    #[error("disk fault")]
    Disk,
    /// Memory ran out, before anything was published.
    #[error("no memory")]
    Memory(NoMemory),
}

impl From<DiskFailed> for SaveFault {
    ghost from_gives = { λ _ e. e ≡ Disk };

    fn from(_e: DiskFailed) -> SaveFault {
        SaveFault::Disk
    }
}

impl From<NoMemory> for SaveFault {
    ghost from_gives = { λ refused e. e ≡ Memory refused };

    fn from(refused: NoMemory) -> SaveFault {
        SaveFault::Memory(refused)
    }
}

impl From<AllocError> for SaveFault {
    ghost from_gives = { λ _ e. e ≡ Memory no_memory };

    fn from(refused: AllocError) -> SaveFault {
        SaveFault::Memory(NoMemory::from(refused))
    }
}

impl<T: Drop> From<AllocFailed<T>> for SaveFault {
    ghost from_gives = { λ _ e. e ≡ Memory no_memory };

    fn from(refused: AllocFailed<T>) -> SaveFault {
        SaveFault::Memory(NoMemory::from(refused))
    }
}
