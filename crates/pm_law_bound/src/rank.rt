//! Laws of the rank: what fits stays, and the rank never rises and falls with each collection.

mod laws;

pub use laws::{a_command_keeps_the_rank, an_event_keeps_the_rank, the_rank_is_bounded};
