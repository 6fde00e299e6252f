ghost use Rattle.std.specs.Prelude.{◌≡◌};
ghost use Rattle.pm_script.specs.declared.fault.ScriptFault.TheVariants as script_fault;
ghost use Rattle.pm_types.specs.Memory.{no_memory};

use pm_types::{Fault, NoMemory};
use std::alloc::{AllocError, AllocFailed};

/// Why a line is bad. The first that applies is the one that is answered; of the last three, that of the first wrong
/// word from the left.
#[derive(Clone, Copy, Debug, PartialEq, Eq)]
pub enum Cause {
    /// It has more than 16,384 bytes.
    LineTooLong,
    /// The first word is neither a client, 0 to 7, nor `!`.
    Client,
    /// There is no second word, or after that first word no command has this one.
    Word,
    /// The command has another number of words.
    Count,
    /// A word is no number, or one over the limit of its kind.
    Number,
    /// A word is neither `-` nor pairs of hexadecimal digits.
    Hex,
    /// A word is not 1 to 64 of `a-z 0-9 . - _`.
    Name,
}

/// Why bytes are not read as a script. Want of memory, from std, becomes `Memory`.
#[derive(Clone, Copy, Debug, PartialEq, Eq)]
pub enum ScriptFault {
    /// The line of this number, counted from 1, is the first that is bad.
    Line {
        /// The line's number, 1 to 65,536.
        number: u32,
        /// Why it is bad.
        cause: Cause,
    },
    /// There are more than 65,536 lines.
    TooManyLines,
    /// There are more than 268,435,456 bytes. The reader takes no such bytes; who hands them in answers this.
    TooLong,
    /// Memory ran out.
    Memory(NoMemory),
}

impl From<AllocError> for ScriptFault {
    ghost from_gives = { λ _ fault. fault ≡ script_fault.Memory no_memory };

    fn from(refused: AllocError) -> ScriptFault {
        ScriptFault::Memory(NoMemory::from(refused))
    }
}

impl<T: Drop> From<AllocFailed<T>> for ScriptFault {
    ghost from_gives = { λ _ fault. fault ≡ script_fault.Memory no_memory };

    fn from(refused: AllocFailed<T>) -> ScriptFault {
        ScriptFault::Memory(NoMemory::from(refused))
    }
}

/// Why a line was not read: it is bad, or memory ran out.
pub type LineFault = Fault<Cause>;
