//! The book of a run in threads: an engine, each client's commands that are still to be asked, the events of the
//! collector and the flush events that are still to be made. Each worker makes its own, one after another, in any order.
#![tactic(auto)]

mod book;
pub mod crew;
mod step;
mod value;
mod workers;

pub use book::Book;
pub use workers::{COLLECTOR, FLUSHER};
