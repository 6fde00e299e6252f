//! Laws of young worlds: an escape changes no world, a sweep drops exactly what nothing reaches, and each command is
//! answered by one part of a young world. No code.
#![tactic(auto)]

mod commands;
mod escapes;
mod laws;

pub use commands::{
    a_command_is_answered_within, a_command_is_answered_young, a_command_of_both_sides_is_refused,
};
pub use escapes::{what_escapes_is_carried, what_is_carried_escapes, what_is_young_then};
pub use laws::{
    a_field_is_set_to_an_old_object, a_nursery_is_of_its_world, a_nursery_stays_closed,
    a_sweep_drops_what_nothing_reaches, a_world_is_young_with_nothing, a_young_world_goes_on,
    a_young_worlds_copy, an_escape_changes_no_world, nothing_names_a_further_object,
    what_is_joined_is_detached,
};
