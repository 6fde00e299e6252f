//! What contracts see of a space, the law that holds of it, and the rows that commands and events are made of.
#![tactic(auto)]

mod examples;
mod phase;

pub use examples::{
    examples_of_bounds, examples_of_ranks, examples_of_sunk_sets, examples_of_what_fits,
};
pub use phase::Phase;
