//! Why a store is not opened, why none is made, and why a store in use does not answer.

ghost use Rattle.std.specs.Prelude.{◌≡◌};
ghost use Rattle.pm_types.specs.declared.fault.OpenFault.TheVariants as open_fault;
ghost use Rattle.pm_types.specs.declared.fault.InitFault.TheVariants as init_fault;
ghost use Rattle.pm_types.specs.declared.fault.EngineFault.TheVariants as engine_fault;

use crate::NoMemory;
use thiserror::Error;

/// Why bytes are not opened as a store. The first that applies is the one that is answered.
#[derive(Clone, Copy, Debug, PartialEq, Eq, Error)]
pub enum OpenFault {
    /// There are fewer than 32,768 bytes, neither of the two header pages is open, or the open one that
    /// is current does not begin as a header does.
    #[error("not a store")]
    NotAStore,
    /// The format has this version, which this program does not read.
    #[error("version {0}")]
    Version(u32),
    /// What stands on this page has another digest than the one that is kept of it.
    #[error("page {page} is damaged")]
    Damaged {
        /// The page, counted from 0.
        page: u64,
        /// The SHA-256 that is kept.
        kept: [u8; 32],
        /// The SHA-256 of what stands there.
        found: [u8; 32],
    },
    /// A field of this page has a value that it can not have.
    #[error("page {page} is malformed at byte {at}")]
    Malformed {
        /// The page, counted from 0.
        page: u64,
        /// The place of the field's first byte in the page, 0 to 16,384: a record that begins at the
        /// page's end has none of its bytes there.
        at: u32,
    },
    /// The disk failed: its count of failed calls rose.
    #[error("disk fault")]
    Disk {
        /// The count of failed calls before.
        before: u64,
        /// The count of failed calls after.
        after: u64,
    },
    /// Memory ran out.
    #[error("no memory")]
    Memory(NoMemory),
}

/// Why no store is made on a disk.
#[derive(Clone, Copy, Debug, PartialEq, Eq, Error)]
pub enum InitFault {
    /// The disk holds this number of bytes, which is over 0. They are as they were.
    #[error("not empty: {0} bytes")]
    NotEmpty(u64),
    /// The disk failed: its count of failed calls rose.
    #[error("disk fault")]
    Disk {
        /// The count of failed calls before.
        before: u64,
        /// The count of failed calls after.
        after: u64,
    },
    /// Memory ran out.
    #[error("no memory")]
    Memory(NoMemory),
}

/// Why a store that is in use does not answer.
#[derive(Clone, Copy, Debug, PartialEq, Eq, Error)]
pub enum EngineFault {
    /// Memory ran out. Everything is as it was.
    #[error("no memory")]
    Memory(NoMemory),
    /// The disk failed: its count of failed calls rose. The store has to be opened again.
    #[error("disk fault")]
    Disk {
        /// The count of failed calls before.
        before: u64,
        /// The count of failed calls after.
        after: u64,
    },
    /// The disk failed at an earlier call, and the store has to be opened again.
    #[error("the store has to be opened again")]
    Reopen {
        /// The count of failed calls now.
        count: u64,
    },
}

impl From<NoMemory> for OpenFault {
    ghost from_gives = { λ refused fault. fault ≡ open_fault.Memory refused };

    fn from(refused: NoMemory) -> OpenFault {
        OpenFault::Memory(refused)
    }
}

impl From<NoMemory> for InitFault {
    ghost from_gives = { λ refused fault. fault ≡ init_fault.Memory refused };

    fn from(refused: NoMemory) -> InitFault {
        InitFault::Memory(refused)
    }
}

impl From<NoMemory> for EngineFault {
    ghost from_gives = { λ refused fault. fault ≡ engine_fault.Memory refused };

    fn from(refused: NoMemory) -> EngineFault {
        EngineFault::Memory(refused)
    }
}
