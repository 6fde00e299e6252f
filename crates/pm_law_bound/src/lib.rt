//! Laws of watches: one begins with its bound and keeps it, and at the bound nothing is left of what was lost when it was
//! set.
#![tactic(auto)]

mod laws;
pub mod rank;
pub mod sunk;

pub use laws::{
    a_bound_that_is_reached_ends_what_was_lost, a_watch_begins_with_its_bound,
    a_watch_keeps_its_bound, watches_keep_their_bounds,
};
