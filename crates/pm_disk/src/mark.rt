/// What kind of call was made, whatever it answered.
#[derive(Clone, Copy, Debug, PartialEq, Eq)]
pub enum CallKind {
    /// A sync.
    Sync,
    /// A write, also one of no bytes.
    Write,
    /// A read past the end of what the disk told.
    ReadPastEnd,
    /// A call of the length, or a read of what is there or of a disk that tells nothing.
    Look,
}

/// A call that was made, as the clock of a disk notes it.
#[derive(Clone, Copy, Debug, PartialEq, Eq)]
pub struct Mark {
    /// What the disk says of the call: a disk in memory the number of the calls before it that stand in its list.
    pub number: u64,
    pub kind: CallKind,
}
