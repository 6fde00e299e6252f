//! Laws of queued changes that are applied and of sources that are fixed.

mod changes;
mod fixing;

pub use changes::a_change_that_is_applied_leaves_the_effective_sets;
pub use fixing::a_source_that_is_fixed_named_a_place_that_moved;
