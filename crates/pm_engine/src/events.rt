//! One event over an engine: a client's command, a step of the collector, and a page of the copy in progress. A run in one
//! thread and a run in many make their events by these calls, so that both say the same of journal, engine and disk.

mod event;
mod stop;

pub use crate::{Engine, SaveFault, Tally};
pub use event::{ask, collect_once, flush_once, give};
pub use stop::{Stop, stop_after};
