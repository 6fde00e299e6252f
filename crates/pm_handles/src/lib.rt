//! The registers of the clients, which hold addresses.
#![tactic(auto)]

mod handles;

pub use handles::Handles;
