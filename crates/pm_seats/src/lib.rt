//! Many callers share one engine, each with a pass; it knows which caller made each entry of its journal.
#![tactic(auto)]

mod callers;
mod collecting;
mod events;
mod fault;
mod limits;
mod logbook;
mod shared;
mod turns;
mod value;

pub use callers::Callers;
pub use events::Seen;
pub use fault::SeatFault;
pub use limits::{LAST_EVENT, limits_of_events};
pub use logbook::Logbook;
pub use shared::Shared;
