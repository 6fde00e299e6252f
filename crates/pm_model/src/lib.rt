//! What the store means: the world that clients see, what each command answers, and a plain slow
//! program that does just that.
#![tactic(auto)]

mod graph;
mod lasting;
mod laws;
mod objects;
mod oracle;
mod registers;
mod request;
mod roots;
mod telling;

pub use graph::Graph;
pub use lasting::{a_stored_field_is_loaded, commands_leave_the_rest, worlds_stay_closed};
pub use laws::{
    a_chain_ends_at_the_settled_copy, a_copy_keeps_what_the_roots_reach,
    a_dropped_copy_is_in_no_chain, an_entry_goes_at_the_end, copies_are_numbered_in_order,
    journals_go_one_behind_the_other, no_object_is_taken_away, reachable_is_least_closed,
    refusals_keep_the_world, what_is_bound_is_found, what_settles_was_in_progress,
};
pub use objects::{Node, Objects};
pub use oracle::Oracle;
pub use registers::Registers;
pub use request::Request;
pub use roots::Roots;
pub use telling::replies_tell_what_was_done;
