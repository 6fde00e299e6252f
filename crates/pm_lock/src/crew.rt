//! A whole run in threads: the workers take turns at a book, and what is left once they have ended is made by the caller.

mod finish;
mod run;

pub use crate::Book;
pub use run::run_all;
