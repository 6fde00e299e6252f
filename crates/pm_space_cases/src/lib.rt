//! The cases of the part `space`: commands and events of the collector on a space in memory. `docs/TESTS.md` says how a
//! case is written.
#![tactic(auto)]

mod beside;
mod case;
mod collected;
mod drawn;
mod frozen;
mod laid;
mod late;
mod lines;
mod opened;
mod paths;
mod replayed;
mod scripted;
mod searched;
mod spaced;
mod told;

pub use case::take;
