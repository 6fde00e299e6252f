//! `act`, which carries out any command of a client on a space, and says what it keeps; and four calls for objects that
//! come in late.
#![tactic(auto)]

mod acting;
pub mod births;
pub mod commands;
mod young;

pub use acting::act;
pub use young::{admit, hold, link, spend};
