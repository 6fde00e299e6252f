//! Laws of the course of a collection: what is left of it, when it is completed, what its anchor keeps to, and where
//! objects are born meanwhile.
#![tactic(auto)]

mod anchors;
mod births;
mod completion;
pub mod count;
mod standing;

pub use anchors::an_anchor_is_noted_with_its_train;
pub use births::{
    an_event_opens_a_train_where_it_selects_the_open_one,
    no_command_adds_to_the_train_that_is_collected,
};
pub use completion::one_event_completes_a_collection;
pub use standing::no_more_is_reached_than_stands;
