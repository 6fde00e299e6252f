//! Why an engine with a nursery answers no more.

/// What a call answered, after which every further one answers `Reopen`.
#[derive(Clone, Copy, Debug, PartialEq, Eq)]
pub enum HaltCause {
    /// The disk failed.
    Disk,
    /// Memory ran out. An escape may have been cut off then, so what the space stands for is not known any more.
    Memory,
}

/// The first call that answered that the disk failed, or that memory ran out.
#[derive(Clone, Copy, Debug, PartialEq, Eq)]
pub struct Halt {
    pub cause: HaltCause,
    /// The disk's count of failed calls at that moment.
    pub count: u64,
}
