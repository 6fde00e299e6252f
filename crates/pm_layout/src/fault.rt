//! Why no slot could be read.

ghost use Rattle.std.specs.Prelude.{◌≡◌};
ghost use Rattle.pm_layout.specs.declared.fault.LayoutFault.TheVariants.{Memory};
ghost use Rattle.pm_types.specs.Memory.{no_memory};

use pm_types::NoMemory;
use std::alloc::{AllocError, AllocFailed};
use thiserror::Error;

/// Why no slot could be read at a place. Places are counted in bytes from the first byte of what was
/// handed in. The kind is looked at first and the length next; then the slot is read from left to
/// right, and the first fault is the one that is answered.
#[derive(Clone, Copy, Debug, PartialEq, Eq, Error)]
pub enum LayoutFault {
    /// The slot that begins at this place does not end inside the bytes: there is no byte at all, or
    /// there are fewer than its kind and its counts ask for.
    #[error("the slot at byte {0} is cut")]
    Short(u64),
    /// The slot begins at `at` with a byte that is no kind.
    #[error("byte {at} is {byte}, which is no kind of slot")]
    Kind { at: u64, byte: u8 },
    /// The number of fields, at this place, is over the limit.
    #[error("{n} fields at byte {at} are too many")]
    Fields { at: u64, n: u32 },
    /// The number of bytes, at this place, is over the limit.
    #[error("{n} bytes at byte {at} are too many")]
    Count { at: u64, n: u32 },
    /// The address at this place has car 0: in a field with a slot other than 0, or in a Moved slot.
    #[error("the address at byte {0} has car 0")]
    Null(u64),
    /// The identity at this place is 0 or over 4,294,967,295.
    #[error("the identity at byte {0} is out of range")]
    Ident(u64),
    /// Memory ran out.
    #[error("no memory")]
    Memory(NoMemory),
}

impl From<AllocError> for LayoutFault {
    ghost from_gives = { λ _ e. e ≡ Memory no_memory };

    fn from(refused: AllocError) -> LayoutFault {
        LayoutFault::Memory(NoMemory::from(refused))
    }
}

impl<T: Drop> From<AllocFailed<T>> for LayoutFault {
    ghost from_gives = { λ _ e. e ≡ Memory no_memory };

    fn from(refused: AllocFailed<T>) -> LayoutFault {
        LayoutFault::Memory(NoMemory::from(refused))
    }
}
