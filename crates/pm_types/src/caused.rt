//! Why a call failed that has causes of its own.

ghost use Rattle.std.specs.Prelude.{◌≡◌};
ghost use Rattle.pm_types.specs.declared.caused.Fault.TheVariants.{Memory};
ghost use Rattle.pm_types.specs.Memory.{no_memory};

use crate::NoMemory;
use std::alloc::{AllocError, AllocFailed};

/// Why a call failed: for a cause of its own, or since memory ran out.
#[derive(Clone, Copy, Debug, PartialEq, Eq)]
pub enum Fault<C> {
    /// The cause.
    Bad(C),
    /// Memory ran out.
    Memory(NoMemory),
}

impl<C> From<NoMemory> for Fault<C> {
    ghost from_gives = { λ refused fault. fault ≡ Memory refused };

    fn from(refused: NoMemory) -> Fault<C> {
        Fault::Memory(refused)
    }
}

impl<C> From<AllocError> for Fault<C> {
    ghost from_gives = { λ _ fault. fault ≡ Memory no_memory };

    fn from(refused: AllocError) -> Fault<C> {
        Fault::Memory(NoMemory::from(refused))
    }
}

impl<T: Drop, C> From<AllocFailed<T>> for Fault<C> {
    ghost from_gives = { λ _ fault. fault ≡ Memory no_memory };

    fn from(refused: AllocFailed<T>) -> Fault<C> {
        Fault::Memory(NoMemory::from(refused))
    }
}
