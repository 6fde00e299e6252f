use pm_types::Bytes;

/// A call of a disk. Places and lengths are in bytes.
#[derive(Debug, Drop)]
pub enum DiskCall {
    Len,
    Read { at: u64, len: u64 },
    Write { at: u64, bytes: Bytes },
    Sync,
}
