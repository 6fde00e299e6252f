//! Workers with passes of their own: each client's commands, the collector's events and the flush events of a script, each
//! made by calls of one `Shared`, in a thread of its own.
#![tactic(auto)]

mod calls;
mod fault;
mod next;
mod passes;
mod task;
mod workers;

pub use calls::run_calls;
pub use fault::worse;
pub use passes::run_passes;
pub use task::{Task, tasks_of};
pub use workers::{spread, work};
