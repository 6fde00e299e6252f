//! A table of values by key that can be frozen: what it held at that moment can be read until it is
//! thawed, whatever happens to the table meanwhile. To freeze copies nothing: an old value is kept when
//! its key is first changed.
#![tactic(auto)]

mod freed;
mod keep;
mod law;
mod notes;
mod table;
mod use_of_change;

pub use keep::Keep;
pub use law::one_key_is_the_lowest;
pub use table::Table;
pub use use_of_change::put;
