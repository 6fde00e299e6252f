//! What is remembered of a car: the places outside it that store an address in it.
#![tactic(auto)]

mod entry;
mod gathering;
mod group;
mod law;
mod list;
mod remset;
mod trees;

pub use gathering::Gathering;
pub use law::the_first_is_the_least;
pub use remset::Remset;
