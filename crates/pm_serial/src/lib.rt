//! A serial run: the lines of a script, one after another, over an engine. Each command is answered and its reply is
//! written; each event of the collector and each flush event is made.
#![tactic(auto)]

mod behind;
mod ending;
mod event;
mod journal;
mod kind;
mod line;
pub mod output;
mod run;
mod telling;

pub use ending::finish_with_last_lines;
pub use journal::end_workers;
pub use pm_engine::events::{Engine, Stop, Tally, stop_after};
pub use run::{answer_lines, run_lines};
pub use telling::tell_reply;
