//! The cases of the part `engine`: lines that are run over an engine on a disk in memory, runs that stop at each call of
//! the disk, and a store that is shipped to a standby. `docs/TESTS.md` says how a case is written.
#![tactic(auto)]

mod case;
mod chosen;
mod running;
mod spelling;
mod standby;
mod stopping;

pub use case::Case;
