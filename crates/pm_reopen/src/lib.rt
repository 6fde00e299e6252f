//! Opening a store as a space.
#![tactic(auto)]

mod listed;
mod opened_car;
mod opened_cars;
mod opened_roots;
mod opening;
pub mod rebuild;

pub use listed::build_listed;
pub use opening::{open_space, open_space_alone};
