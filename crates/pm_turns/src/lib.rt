//! Workers take turns at one value, each in a thread of its own. What is known of the value that they are given is known
//! of the one that comes back.
#![tactic(auto)]

mod gate;
mod home;
mod limits;
mod rule;
#[cfg(test)]
mod tests;
mod turn;
mod value;
mod workers;

pub use gate::{Gate, OpenGate};
pub use limits::{WORKERS, limits_of_workers};
pub use turn::Turn;
pub use value::Turned;
pub use workers::take_turns;
