//! The collector's events on the parts of the space: the row that comes next is made.
#![tactic(auto)]

mod first_rows;
mod on_parts;
pub mod relocate;

pub use on_parts::{apply_at, finish_at, fix_at, free_at, free_doomed_at, make};
pub use pm_next::{Row, moved_once_applied, next_row};
