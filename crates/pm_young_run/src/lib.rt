//! A serial run with a nursery: the lines of a script, one after another, over an engine in which objects are born
//! young.
#![tactic(auto)]

mod event;
mod kind;
mod last_lines;
mod laws;
mod line;
mod run;

pub use laws::sweeps_are_events;
pub use pm_engine::events::Stop;
pub use pm_young::YoungEngine;
pub use run::run_young_lines;
