//! A run in threads over an engine: workers make what a script asks, each its own, in any order, and the replies are
//! written at the end.

mod run;

pub use run::run_script;
