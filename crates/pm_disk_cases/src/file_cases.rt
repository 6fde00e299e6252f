//! The cases of the part `files`: calls of a disk over a file, what they answer, and what the system is asked.
//! `docs/TESTS.md` says how a case is written.

mod case;
mod disks;
mod fake_file;
mod fake_files;
mod files;
mod system;
mod systems;

pub use case::Case;
