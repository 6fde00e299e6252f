//! Young objects, at most 256 of them, and the registers that hold one: what lies outside the cars until it escapes.
#![tactic(auto)]

mod index;
mod limits;
mod nursery;
mod objects;
mod pairs;
mod registers;
mod walk;
mod young;

pub use limits::YOUNG;
pub use nursery::Nursery;
pub use young::Young;
