//! An engine with a nursery: objects are born young, outside the cars, and come into one where a sweep finds them
//! reached.
#![tactic(auto)]

mod across;
mod alone;
mod birth;
mod client;
mod collect;
mod commands;
mod engine;
mod escape;
mod flush;
mod halt;
mod laws;
mod naming;
mod open;
mod reading;
mod setting;
mod sides;
mod sweep;
mod tally;
mod within;
mod young;

pub use engine::YoungEngine;
pub use halt::{Halt, HaltCause};
pub use laws::{
    a_young_engine_goes_on, any_call_goes_on, memory_halts, what_died_young_never_comes_in,
};
pub use tally::YoungTally;
