//! Laws of layout: what a plan of cars and roots lays on pages is read again, and how entries are cut into pages.

mod cuts;
mod examples;
mod laws;
mod spaces;

pub use cuts::{
    cutting_goes_on_at_the_last_page, entries_are_cut_in_one_way, pages_are_cut_by_sizes,
};
pub use examples::{
    a_first_checkpoint_is_a_plan, a_new_store_holds_nothing, a_plan_may_have_moved_slots,
    examples_of_cutting,
};
pub use laws::{
    a_kept_page_holds_its_car, a_plans_pages_may_be_written, what_a_plan_lays_is_read_again,
};
pub use spaces::a_space_is_laid_as_its_copy;
