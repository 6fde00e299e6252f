ghost use Rattle.std.specs.Prelude.{◌≡◌};
ghost use Rattle.pm_dump.specs.declared.fault.DumpFault.TheVariants as dump_fault;
ghost use Rattle.pm_types.specs.Memory.{no_memory};

use pm_types::{Fault, NoMemory};
use std::alloc::{AllocError, AllocFailed};

/// Why a line of a dump is bad. A line has the first of the first three that applies; `Dangling` is told only where no
/// line has one of them.
#[derive(Clone, Copy, Debug, PartialEq, Eq)]
pub enum DumpCause {
    /// It spells no line that may stand there: a wrong spelling or kind of line, a next identity or an identity of 0, a
    /// line behind the end, a last line without its newline, or the end of the bytes where a line is due.
    Form,
    /// Its identity or its name is not greater than the one in the line before.
    Order,
    /// A number is over its limit, an object has more than 4,096 bytes or 255 fields, or 4,096 names stand before.
    Limit,
    /// A field or a name stands for an object that is not listed.
    Dangling,
}

/// Why bytes are not read as a dump. Want of memory, from std, becomes `Memory`.
#[derive(Clone, Copy, Debug, PartialEq, Eq)]
pub enum DumpFault {
    /// The line of this number is the one that is told.
    Line {
        /// The line's number, counted from 1.
        number: u64,
        /// Why it is bad.
        cause: DumpCause,
    },
    /// Memory ran out.
    Memory(NoMemory),
}

impl From<AllocError> for DumpFault {
    ghost from_gives = { λ _ fault. fault ≡ dump_fault.Memory no_memory };

    fn from(refused: AllocError) -> DumpFault {
        DumpFault::Memory(NoMemory::from(refused))
    }
}

impl<T: Drop> From<AllocFailed<T>> for DumpFault {
    ghost from_gives = { λ _ fault. fault ≡ dump_fault.Memory no_memory };

    fn from(refused: AllocFailed<T>) -> DumpFault {
        DumpFault::Memory(NoMemory::from(refused))
    }
}

// Why a line was not read: it is bad, or memory ran out.
pub(crate) type LineFault = Fault<DumpCause>;
