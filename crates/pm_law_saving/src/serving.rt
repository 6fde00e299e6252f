//! Laws of serving: what an engine shows after each of its calls is what the world of its journal is.

mod laws;

pub use laws::{
    a_kept_command_goes_on, a_served_command_goes_on, an_engine_begins_to_serve,
    an_event_leaves_what_is_served, copies_leave_what_a_space_stands_for, what_is_kept_is_left,
    what_is_kept_needs_no_space, what_is_stored_is_told,
};
