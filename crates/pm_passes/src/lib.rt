//! Many callers share one value with a log, each with a pass that knows what its caller has seen of the log.
#![tactic(auto)]

mod home;
mod memory;
mod pass;
mod rule;
mod service;
mod shares;
#[cfg(test)]
mod tests;
mod value;
mod view;

pub use home::{Hold, Home, PassSeat};
pub use pass::Pass;
pub use value::{Logged, Served};
pub use view::{Numbers, Origin, View};
