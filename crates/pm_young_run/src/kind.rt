//! The kinds of event that a line asks for by their number.

/// An event that answers no command, and changes nothing of the nursery.
#[derive(Clone, Copy, Debug, PartialEq, Eq)]
pub(crate) enum Kind {
    /// A step of the collector.
    Collect,
    /// A page of the copy in progress.
    Flush,
}
