//! Which train an object moves to: a chooser that is kept, and three choosers.
#![tactic(auto)]

mod choosers;
mod placement;

pub use choosers::{first_of, last_of, middle_of};
pub use placement::Placement;
