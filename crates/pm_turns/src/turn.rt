/// What came of a turn.
#[derive(Clone, Copy, Debug, PartialEq, Eq)]
pub enum Turn {
    /// The turn was made, and there may be more.
    Made,
    /// This worker has nothing left.
    Finished,
    /// The value takes no more turns.
    Stopped,
}
