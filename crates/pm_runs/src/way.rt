//! How the workers of a run share its engine.

/// How the workers of a run share its engine.
#[derive(Clone, Copy, Debug, PartialEq, Eq)]
pub enum Way {
    /// They take turns, and the first fault ends them all.
    Turns,
    /// Each has a pass of its own, and ends at the first fault that it meets. The others go on.
    Passes,
}
