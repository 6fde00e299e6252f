//! Shipping: one store is brought to the last settled copy of another.
#![tactic(auto)]

mod disks;
mod entries;
mod fault;
mod history;
mod index;
mod listed_cars;
mod next_copy;
mod placed_cars;
mod same_lists;
mod shipping;
mod standby;
mod store;

pub use disks::{ShipEnd, ship_disks};
pub use fault::{ShipFault, Shipped};
pub use history::{
    a_ship_leaves_one_store, a_standby_has_a_settled_copy, attached_pages_have_their_copy,
};
pub use listed_cars::ListedCars;
pub use shipping::ship;
