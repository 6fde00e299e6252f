//! A car: a numbered space of bounded size in which objects stand, each in a slot of its own.
#![tactic(auto)]

mod car;
mod entry;
mod law;
mod look;
mod object;
mod row;

pub use car::Car;
pub use law::slots_are_counted;
pub use look::Look;
