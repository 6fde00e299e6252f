//! Laws of copies: which copy a space is, that what a copy lists is accepted again, and what opening makes of a store.
#![tactic(auto)]

mod building;
mod examples;
pub mod graphs;
mod laws;
pub mod layout;
pub mod walks;

pub use building::{a_built_space_keeps_the_law, opening_builds_a_space};
pub use examples::examples_of_opening;
pub use laws::{
    a_copys_cars_are_accepted, a_space_holds_its_worlds_copy, a_space_stands_for_some_world,
    a_store_is_opened_as_its_copy, accepted_cars_have_pages, an_opened_space_keeps_the_law,
    opening_leaves_objects_in_their_slots, opening_makes_one_space,
};
