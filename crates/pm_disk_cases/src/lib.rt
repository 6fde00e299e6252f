//! The cases of the part `disks`: bytes, pages, disks and streams, each by itself. `docs/TESTS.md` says how a case is
//! written.
#![tactic(auto)]

mod cars;
mod case;
mod catalogs;
mod disks;
pub mod file_cases;
mod fuses;
mod headers;
mod peers;
mod slots;
mod spelling;
mod streams;

pub use case::Case;
