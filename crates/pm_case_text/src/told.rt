//! What a case says of a run before it is made: its words, its script, which calls fail. And what is read of scripts and
//! journals by themselves. The program is not run here.

mod calls;
mod drawn_lines;
mod printed;
mod replayed;
mod scripts;
mod setting;

pub use drawn_lines::generated;
pub use printed::push_digest_of;
pub use replayed::{alike_in, push_alike};
pub use scripts::{push_read, push_texts};
pub use setting::{DUMP, INIT, RESTORE, RUN, RUN_THREADS, Setting};
