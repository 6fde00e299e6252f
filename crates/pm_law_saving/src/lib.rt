//! Laws of saving: what holds of a saver, the frozen cars of its space and the pages of its store through all steps of a
//! copy.
#![tactic(auto)]

mod beginning;
mod ending;
pub mod serving;
mod writing;

pub use beginning::{
    a_copy_begins_beside_the_settled_one, a_listed_copy_begins_beside_the_settled_one,
    a_store_begins_with_its_settled_copy,
};
pub use ending::{
    a_copy_is_given_up, a_gate_is_closed_beside_the_copy, a_published_copy_is_the_settled_one,
    a_whole_copy_may_be_published,
};
pub use writing::{
    pages_of_a_copy_are_written_in_order, the_next_page_is_written_beside_the_current_copy,
};
