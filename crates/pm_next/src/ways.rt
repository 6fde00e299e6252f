//! The trains to which an object may go, and the one that the chooser picks.

mod ways;

pub use ways::{home, pick_way, ways_out};
