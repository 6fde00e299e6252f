//! The cases of the part `lock`: turns of a book over an engine on a disk in memory, one after another and in threads;
//! events of a logbook; calls of callers with passes; and runs of workers with passes.
//! `docs/TESTS.md` says how a case is written.
#![tactic(auto)]

mod called;
mod case;
mod logged;
mod opened;
mod reopened;
mod served;
mod shared;
mod spelling;
mod threaded;
mod turned;

pub use case::take;
