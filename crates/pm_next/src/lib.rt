//! Which event of the collector comes next, found once as a row with what it is about, by searches on the space.
#![tactic(auto)]

mod finding;
mod next;
mod row;
mod skipping;
mod sources;
pub mod ways;

pub use finding::{anchor_in, changed_car, has_change, lowest_live};
pub use next::next_row;
pub use row::Row;
pub use skipping::outside;
pub use sources::{Entry, least, moved_once_applied, stale, stale_at, stale_now};
