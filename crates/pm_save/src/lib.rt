//! Saving copies of a space page by page while its clients go on.
#![tactic(auto)]

mod clean;
mod copying;
mod listed_cars;
pub mod progress;
mod roots;
mod saver;
pub mod writer;

pub use crate::writer::SaveFault;
pub use saver::Saver;
