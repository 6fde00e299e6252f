//! A run over a store: a script is read, the store is opened, and the lines are run over its copy, in their order, with a
//! nursery or without, or in threads.
#![tactic(auto)]

pub mod ends;
mod opening;
mod running;
pub mod threads;
mod together;
pub mod trial;
mod way;
mod writes;
mod young;

pub use crate::ends::{
    Alone, Detail, Ended, detail_text, end_unopened, line_of, not_opened, shipped_line, write_text,
};
pub use opening::run_lines;
pub use running::run_source;
pub use together::{images_since_now, run_together};
pub use way::Way;
pub use writes::Writes;
pub use young::run_young;
