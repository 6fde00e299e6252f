//! Runs of the whole program over two disks, a source and a sink in memory, for `pm_cases`: with what a run begins, what it
//! left, what is printed of it, and runs that are made again and again.
#![tactic(auto)]

mod disks;
mod drawn;
mod ends;
mod failing;
mod images;
pub mod meeting_cases;
mod restored;
mod running;
mod shown;
mod tallies;

pub use disks::{named, push_digits_at, put_digest_of, seal};
pub use drawn::push_drawn;
pub use ends::push_memory_text;
pub use failing::{Repeated, push_failings, push_fuses};
pub use images::{opening, push_images};
pub use pm_case_text::told::{INIT, Setting, push_alike, push_read, push_texts};
pub use restored::push_round;
pub use running::{RunEnd, run_next};
pub use shown::{push_first, push_last, push_named, push_run};
