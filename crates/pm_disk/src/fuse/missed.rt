/// A call that a fuse failed, by what was asked. Places and lengths are in bytes. It says no more, since only clauses
/// know what another disk tells, and so whether a read would have reached past its end.
#[derive(Clone, Copy, Debug, PartialEq, Eq)]
pub enum Missed {
    Len,
    Read { at: u64, len: u64 },
    Write,
    Sync,
}
