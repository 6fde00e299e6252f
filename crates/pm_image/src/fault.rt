//! Why a page could not be read.

ghost use Rattle.std.specs.Prelude.{◌≡◌};
ghost use Rattle.pm_image.specs.declared.fault.PageFault.TheVariants.{Memory};
ghost use Rattle.pm_types.specs.Memory.{no_memory};

use pm_types::NoMemory;
use std::alloc::{AllocError, AllocFailed};
use thiserror::Error;

/// Why a page could not be read.
#[derive(Clone, Copy, Debug, PartialEq, Eq, Error)]
pub enum PageFault {
    /// The first test that fails is of the field whose first byte has this place in the page, 0 to
    /// 16,384.
    #[error("the page is malformed at byte {0}")]
    Malformed(u32),
    /// Memory ran out.
    #[error("no memory")]
    Memory(NoMemory),
}

impl From<NoMemory> for PageFault {
    ghost from_gives = { λ refused e. e ≡ Memory refused };

    fn from(refused: NoMemory) -> PageFault {
        PageFault::Memory(refused)
    }
}

impl From<AllocError> for PageFault {
    ghost from_gives = { λ _ e. e ≡ Memory no_memory };

    fn from(refused: AllocError) -> PageFault {
        PageFault::Memory(NoMemory::from(refused))
    }
}

impl<T: Drop> From<AllocFailed<T>> for PageFault {
    ghost from_gives = { λ _ e. e ≡ Memory no_memory };

    fn from(refused: AllocFailed<T>) -> PageFault {
        PageFault::Memory(NoMemory::from(refused))
    }
}
