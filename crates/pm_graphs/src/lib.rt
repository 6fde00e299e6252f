//! Reading the graph behind a header.
#![tactic(auto)]

mod chain;
mod fault;
mod from_page;
mod leads;
mod links;
mod mapped_cars;
mod opening;
mod read_cars;
mod reading;
pub mod settled;

pub use chain::Chain;
pub use from_page::{FromPage, Unpacked};
pub use leads::{Leads, resolve};
pub use mapped_cars::MappedCars;
pub use opening::{flatten, read_graph, with_cars};
pub use read_cars::ReadCars;
