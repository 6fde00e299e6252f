//! Laws of the work that is left of a collection: each event lowers it, and a command adds little to it.

mod commands;
mod events;
mod single_rows;
mod stale;

pub use commands::a_command_adds_little_work;
pub use events::an_event_lowers_the_work_left;
pub use single_rows::a_source_or_a_birth_leaves_the_slot_that_moved;
pub use stale::{a_command_leaves_the_slot_that_moved, only_the_slot_that_moved_last_is_named};
