//! A conversation with a store: a line is heard, its answer is told at once, and the collector works between the lines.
#![tactic(auto)]

mod answer;
mod buffers;
mod command;
mod ending;
mod events;
mod questions;
mod room;
mod talk;
mod texts;
mod turn;

pub use buffers::Buffers;
pub use ending::Ending;
pub use events::MOST_EVENTS;
pub use talk::converse;
