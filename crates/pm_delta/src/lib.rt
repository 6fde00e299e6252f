//! The queue of changes that wait for a car's remembered set.
#![tactic(auto)]

mod queue;

pub use queue::Queue;
