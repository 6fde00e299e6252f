//! Laws of stores and dumps: a store's copy is within the limits of a dump, and what is restored of its dump is that copy.
//! Each function's contract is a law, and the function does nothing.
#![tactic(auto)]

mod laws;

pub use laws::{
    a_dump_is_restored_as_its_copy, a_restored_store_has_the_same_dump,
    a_stores_copy_is_within_a_dump,
};
