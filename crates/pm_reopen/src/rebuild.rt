//! Building a space of cars and roots.

mod building;
mod gatherings;
mod linking;
mod lists;
mod naming;
mod remembering;
mod trains;

pub use building::build;
pub use lists::{CarList, RootList};
