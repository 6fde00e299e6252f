//! The named roots of a store: each name has a number of its own, by which the collector knows it, and
//! an address.
#![tactic(auto)]

mod fault;
mod roots;
mod search;

pub use fault::BindFault;
pub use roots::Roots;
