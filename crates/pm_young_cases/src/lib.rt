//! The cases of the part `young`: an engine with a nursery, on a disk in memory. `docs/TESTS.md` says how a case is
//! written.
#![tactic(auto)]

mod beside;
mod cars;
mod case;
mod commands;
mod drawn;
mod events;
mod failing;
mod given;
mod lines;
mod serial;
mod store;
mod texts;

pub use case::Case;
