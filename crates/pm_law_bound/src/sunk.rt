//! Laws of sunk sets: what only its own members name stays in the old trains.

mod laws;

pub use laws::{
    a_command_keeps_sunk_sets, a_member_goes_to_a_low_train, an_event_keeps_sunk_sets,
    what_a_world_has_lost_is_sunk, what_is_lost_stays_lost,
};
