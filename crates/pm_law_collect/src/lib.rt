//! Laws of the collector's events: each keeps the heap law and what a space stands for.
#![tactic(auto)]

pub mod changes;
mod laws;
mod making;
pub mod moves;
pub mod phases;
pub mod sweeps;
pub mod traces;
pub mod work;

pub use laws::{
    an_anchor_stands_until_it_moves, an_event_keeps_the_law_and_the_worlds,
    an_event_moves_one_object_at_most, an_object_may_go_where_it_is_named,
    there_is_a_train_to_pick,
};
pub use making::an_event_makes_no_object;
