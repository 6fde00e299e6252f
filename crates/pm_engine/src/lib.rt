//! The engine: clients' commands, events of the collector and checkpoints over one space and one disk, with the journal of
//! what was answered.
#![tactic(auto)]

mod client;
mod collect;
mod engine;
pub mod events;
mod flush;
mod open;
mod tally;
mod unmade;
pub mod works;

pub use crate::works::SaveFault;
pub use engine::Engine;
pub use tally::Tally;
pub use unmade::Unmade;
