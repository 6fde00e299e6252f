//! The pages of a store on a disk: how a copy is written beside the current one, and becomes current by one byte.
#![tactic(auto)]

mod attaching;
mod law;
mod looking;
mod making;
mod page_use;
mod pages;
mod runs;
mod slots;
mod table;

pub use law::{
    a_header_in_the_picked_slot_is_current, a_new_store_has_three_pages,
    an_image_is_opened_with_its_graph, the_next_copy_grows_beside_the_current_one,
};
pub use making::init;
pub use page_use::PageUse;
pub use pages::Pages;
