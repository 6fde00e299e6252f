//! Laws of phases: what may be given up, and the proofs that each phase that begins keeps the heap law.

mod laws;

pub use laws::{
    an_object_moves_on_where_nothing_outside_names_it, nothing_outside_names_what_is_given_up,
};
