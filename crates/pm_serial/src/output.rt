//! Lines on their way to a sink, through a buffer whose room is taken once: those of replies, and those at the end of a
//! run.

pub mod line;
mod output;
mod tail;

pub use output::{BUFFER_BYTES, Output, the_buffer_has_its_size};
pub use tail::add_tail;
