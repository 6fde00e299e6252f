//! The cases of the part `values`: functions on values by themselves, scripts that are parted by who asks, dumps and
//! scripts for a run with a nursery that are read. `docs/TESTS.md` says how a case is written.
#![tactic(auto)]

mod case;
pub mod containers;
mod dump_lines;
mod dumps;
mod parts;
mod scripts;
mod values;
mod young_scripts;

pub use case::take;
