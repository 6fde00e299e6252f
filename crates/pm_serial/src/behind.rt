//! What a run puts behind its last reply.

/// What a run puts behind its last reply.
#[derive(Clone, Copy, Debug, PartialEq, Eq)]
pub(crate) enum Behind {
    /// Nothing.
    Nothing,
    /// The end line, and a line for each watch.
    LastLines,
}
