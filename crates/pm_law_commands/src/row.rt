//! Laws of the rows that commands and events are made of: each keeps the heap law, and what a space stands
//! for changes as the row says.

mod examples;
mod laws;

pub use examples::{examples_of_births, examples_of_the_barrier, examples_of_what_is_read};
pub use laws::{
    a_car_hears_at_most_once, a_name_is_bound_or_unbound, a_new_space_stands_for_nothing,
    a_source_is_set, a_source_that_is_set_stands_for_it, an_object_is_born, bytes_are_changed,
    effective_sets_tell_the_sources_outside,
};
