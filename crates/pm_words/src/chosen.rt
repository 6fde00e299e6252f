/// Which of the trains that an object may move to a run chooses, by the word PLACE.
#[derive(Clone, Copy, Debug, PartialEq, Eq)]
pub enum Chosen {
    /// `first`: the first of them, which is the oldest. A run without a PLACE chooses it too.
    First,
    /// `last`: the last of them.
    Last,
    /// `middle`: the one in the middle, the later one of two.
    Middle,
}
