//! A copy in progress: its cars, its next page, and what is kept of a page that was written.

mod car_page;
mod cuts;
mod entries;
mod fault;
mod frozen;
mod next;
mod place;
mod written;

pub use car_page::{CarPage, spell};
pub use cuts::Counter;
pub use fault::SaveFault;
pub use frozen::Frozen;
pub use next::{Next, Ready, find_next, first_part, is_open, ready_next};
pub use place::{InProgress, Place, PlacedCar};
pub use pm_law_saving::{
    a_copy_begins_beside_the_settled_one, a_copy_is_given_up,
    a_listed_copy_begins_beside_the_settled_one, a_published_copy_is_the_settled_one,
    pages_of_a_copy_are_written_in_order, the_next_page_is_written_beside_the_current_copy,
};
pub use written::{note_written, put_page};
