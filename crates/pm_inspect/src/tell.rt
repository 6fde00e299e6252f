//! What is told of a store: it is opened, and a text is made of its space. Which text that is, a `Teller` says.

mod laws;
mod teller;
mod telling;

pub use laws::a_store_has_one_report;
pub use teller::{DumpText, ReportText, Teller, WhyText};
pub use telling::tell_store;
