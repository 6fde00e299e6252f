//! The report of a store: one line for the store, each train and each car, and one for all together.
//! Its text stands in `specs/Report.antt`, with what each column means.
#![tactic(auto)]

mod counting;
mod laws;
mod lines;
mod reporting;
pub mod tell;

pub use laws::{the_report_of_a_new_space, the_report_of_one_object};
pub use reporting::report;
