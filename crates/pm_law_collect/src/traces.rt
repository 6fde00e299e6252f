//! Examples of collections, worked out by hand: which events come one after the other, and what they make of a space.

mod traces;
mod wrong;

pub use traces::{a_cycle_goes, a_number_is_used_again, an_anchor_ends_futile_passes};
pub use wrong::{
    a_withdrawal_that_names_a_slot_breaks_the_law, events_that_come_too_early_break_the_law,
};
