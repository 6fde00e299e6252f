//! The evidence that memory ran out, and the one file in which it is made.

ghost use Rattle.std.specs.Prelude.{◌≡◌, ◌≤◌};
ghost use Rattle.pm_types.specs.Memory.{no_memory};

use std::alloc::{AllocError, AllocFailed};
use std::error::Error;
use std::fmt;

/// The least count at which `NoMemory::uncountable` may be answered, 2^49 - 3: no count or number of a store ends below
/// it. It is the end of the table of pages, the first of all ends: those of trains are 2^62, of keys and lists 2^64 - 1.
pub const MOST_COUNTED: u64 = 562_949_953_421_309;

/// A growth was refused: memory ran out, or a count came to its end. The call that answers it left everything as it was.
///
/// A value is the evidence of it. It is made in this file alone, of what the standard library answers where an allocation
/// was refused, or of a count that can not grow; so who has none can not answer it.
#[derive(Clone, Copy, Debug, PartialEq, Eq)]
pub struct NoMemory {
    refused: (),
}

impl NoMemory {
    /// The evidence that a counter, a table or a list is at its end: it counts this much already.
    pub fn uncountable(count: u64) -> NoMemory
        requires { MOST_COUNTED ≤ count }
        ensures { result ≡ no_memory }
    {
        let _count = count;
        NoMemory { refused: () }
    }

    /// What could not be stored, and the evidence that there was no memory for it.
    pub fn beside<T>(failed: AllocFailed<T>) -> (T, NoMemory)
        ensures value { result.0 ≡ failed.value }
        ensures evidence { result.1 ≡ no_memory }
    {
        (failed.value, NoMemory { refused: () })
    }
}

impl fmt::Display for NoMemory {
    fn fmt<W: fmt::Write>(&self, f: &mut fmt::Formatter<W>) -> fmt::Result {
        write!(f, "no memory")
    }
}

impl Error for NoMemory {}

impl From<AllocError> for NoMemory {
    ghost from_gives = { λ _ e. e ≡ no_memory };

    fn from(_e: AllocError) -> NoMemory {
        NoMemory { refused: () }
    }
}

// The value that came back is let go.
impl<T: Drop> From<(T, NoMemory)> for NoMemory {
    ghost from_gives = { λ _ e. e ≡ no_memory };

    fn from(e: (T, NoMemory)) -> NoMemory {
        e.1
    }
}

impl<T: Drop> From<AllocFailed<T>> for NoMemory {
    ghost from_gives = { λ _ e. e ≡ no_memory };

    fn from(_e: AllocFailed<T>) -> NoMemory {
        NoMemory { refused: () }
    }
}
