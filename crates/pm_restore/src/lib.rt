//! Restoring a dump: which objects go into which car, where an object lies, and how the cars are settled as copy 1.
#![tactic(auto)]

mod beginning;
mod laws;
mod names;
mod packed;
pub mod packing;
mod placing;
mod settling;
mod slots;

pub use laws::a_made_store_is_new;
pub use packed::PackedDump;
pub use placing::Placing;
pub use settling::settle_dump;
