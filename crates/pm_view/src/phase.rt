/// What the collector is at.
#[derive(Clone, Copy, Debug, PartialEq, Eq)]
pub enum Phase {
    /// No collection is in progress.
    Idle,
    /// The queued changes of this train's cars are applied, before it is decided what becomes of it.
    Draining(u64),
    /// The objects of this car, the first of the oldest train, move to other cars.
    Moving(u64),
    /// The objects that are left in this car go, one by one.
    Sweeping(u64),
    /// The objects of this train go, one by one, and its cars with them.
    Doomed(u64),
}
