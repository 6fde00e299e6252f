//! The lines of a script, parted by who asks: each client's commands in order, and how many events of the collector and
//! flush events there are.

mod asked;
mod parts;
mod queues;
mod split;

pub use asked::{collects_asked, commands_asked, flushes_asked};
pub use parts::Parts;
