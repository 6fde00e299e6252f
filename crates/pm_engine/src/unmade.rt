//! The event for which memory ran out.

/// An event that was not made, since memory ran out: whose it is.
#[derive(Clone, Copy, Debug, PartialEq, Eq)]
pub enum Unmade {
    /// A command of this client.
    OfClient(u32),
    /// One of the collector.
    OfCollector,
    /// One that writes a page of the copy in progress.
    OfFlusher,
}
